//! Fraud claims under a header.

ghost use Rattle.std.specs.Prelude.{◌≡◌, ◌↔◌, ◌*◌, ◌<◌, ◌≤◌, ℕ, Option, IsTrue, IsOk, IfOk, IfErr, Some, None, true, false, length, map, take};
ghost use Rattle.std.specs.List.{list_all, list_any};
ghost use Rattle.nmt_proofs.specs.declared.opening.OpenRefusal.{OpenRefusal as NotOpened};
ghost use Rattle.namespace_id.specs.Answers.{refusal_in};
ghost use Rattle.namespace_id.specs.Cells.{is_width, is_in_square};
ghost use Rattle.axis_roots.specs.declared.message.messages.CheckRefusal.{CheckRefusal as Why};
ghost use Rattle.axis_roots.specs.Messages.{position};
ghost use Rattle.axis_roots.specs.Sets.{is_along, along_in, sample_names, is_bare, fits_set};
ghost use Rattle.axis_roots.specs.Claims.{ClaimParts, is_on, has_shape, has_set_shape, is_set_cell, claimed_root, FitsRoot, Accepts, IsFalseClaim};
ghost use Rattle.befp_verify.specs.declared.verifying.FraudRefusal.TheVariants as refusal;
ghost use Rattle.befp_verify.specs.Refusals.{is_shaped, cell_refusal, refused_from, first_unproved, nodes_refusal, unopened, HasFraudCause, why_of};
ghost use Rattle.befp_verify.specs.Lines.{IsRootThrough};

use crate::view::view_law;
use crate::{ClaimView, Upheld};
use axis_roots::{
    CheckRefusal, FraudClaim, Message, are_ascending, claim_laws, index, is_along, is_root,
    line_strict_root, message_laws, opens, position,
};
use data_header::Header;
use leopard_code::{Room, rebuild};
use namespace_id::{
    Axis, Digest, Namespace, NoMemory, PARITY, SHARE_SIZE, Share, is_in_square, leaf_namespace,
};
use nmt_proofs::{OpenRefusal, open_set};
use std::alloc::Global;
use std::marker::Model;
use thiserror::Error;

/// Why a fraud claim isn't accepted. The variants stand in the order in which they are tested.
#[derive(Clone, Copy, Debug, PartialEq, Eq, Error)]
pub enum FraudRefusal {
    /// The index isn't one of the square, or there aren't exactly k cells, all on the axis, at ascending
    /// positions; or there is a set, and no cell is along the axis, or one that is lies outside the
    /// square or has a path of its own.
    #[error("a claim has k cells of one axis of the square, at ascending positions")]
    Shape,
    /// The first cell that isn't proved under the header, and why.
    #[error("cell {0} is not proved: {1}")]
    Cell(u64, CheckRefusal),
    /// The set doesn't open the cells along the axis, and why.
    #[error("the set does not open its cells: {0}")]
    Set(OpenRefusal),
    /// The axis that goes through the cells has the header's root.
    #[error("the axis through the cells has the root of the header")]
    AxisMatches,
}

/// A fraud claim that isn't accepted, handed back unchanged, and why.
#[derive(Debug, Drop)]
pub struct FraudRefused {
    pub claim: FraudClaim,
    pub why: FraudRefusal,
}

/// Buffers for verifying claims on squares of width k, and of the code of this width.
pub struct VerifyRoom {
    k: u16,
    code: Room,
    known: Vec<u16>,
    shares: Vec<Share>,
    all: Vec<Share>,
    names: Vec<Namespace>,
}

impl Model for VerifyRoom {
    ghost use Rattle.std.specs.Prelude.{ℕ};
    ghost use Rattle.befp_verify.specs.Rooms.{IsRoomForAxis};

    ghost Value = { ℕ };

    ghost view = { λ r. r.k };

    ghost invariant = { λ r. IsRoomForAxis r.k r.code r.known.items r.shares.items r.all.items r.names.items };
}

impl Drop for VerifyRoom {
    fn drop(self) {
        let VerifyRoom {
            k: _,
            code: _,
            known: _,
            shares: _,
            all: _,
            names: _,
        } = self;
    }
}

impl VerifyRoom {
    /// A room for squares of width `k`. It takes all memory that verifying needs, and refuses only where there
    /// is none.
    pub fn new(alloc: Global, k: u16) -> Result<VerifyRoom, NoMemory>
        requires width { IsTrue (is_width k) }
        ensures { IfOk result (λ room. room ≡ k) }
    {
        let count = k as usize;
        let code = Room::new(alloc, k)?;
        let known = vec![in alloc; 0; count]?;
        let shares = vec![in alloc; Share([0; SHARE_SIZE]); count]?;
        let all = vec![in alloc; Share([0; SHARE_SIZE]); 2 * count]?;
        let names = vec![in alloc; PARITY; 2 * count]?;
        Ok(VerifyRoom {
            k,
            code,
            known,
            shares,
            all,
            names,
        })
    }
}

/// Whether each cell is on the accused axis.
fn are_on(claim: &ClaimView<'_>) -> bool
    ensures { result ≡ list_all (is_on claim.now) claim.now.cells }
{
    claim
        .cells
        .iter()
        .all(|message| index(claim.axis, message.cell) == claim.index)
}

/// Whether a claim accuses an axis of a square of width `k` by exactly k cells of it, at ascending
/// positions.
fn has_shape(k: u16, claim: &ClaimView<'_>) -> bool
    requires { IsTrue (is_width k) }
    ensures { result ≡ has_shape k claim.now }
{
    claim.index < 2 * k
        && claim.cells.len() == k as usize
        && are_on(claim)
        && are_ascending(claim.axis, claim.cells)
}

/// Whether some cell is along the axis.
pub(crate) fn some_along(axis: Axis, cells: &[Message]) -> bool
    ensures { result ≡ list_any (is_along axis) cells.now }
{
    cells.iter().any(|message| is_along(axis, message))
}

/// Whether a sample along the axis has a cell of the square, and no path of its own.
fn is_bare(k: u16, axis: Axis, message: &Message) -> bool
    requires { IsTrue (is_width k) }
    ensures { result ≡ is_bare k axis message.now }
{
    if is_along(axis, message) {
        is_in_square(k, message.cell) && message.path.nodes().is_empty()
    } else {
        true
    }
}

/// Whether each cell is so.
fn are_bare(k: u16, axis: Axis, cells: &[Message]) -> bool
    requires { IsTrue (is_width k) }
    ensures { result ≡ list_all (is_bare k axis) cells.now }
{
    cells.iter().all(|message| is_bare(k, axis, message))
}

/// Whether the cells of a claim fit its set, if it has one.
fn has_set_shape(k: u16, claim: &ClaimView<'_>) -> bool
    requires { IsTrue (is_width k) }
    ensures { result ≡ has_set_shape k claim.now }
{
    match claim.set {
        None => true,
        Some(_nodes) => some_along(claim.axis, claim.cells) && are_bare(k, claim.axis, claim.cells),
    }
}

/// Whether a claim has its shape, and its cells fit its set, if it has one.
fn is_shaped(k: u16, claim: &ClaimView<'_>) -> bool
    requires { IsTrue (is_width k) }
    ensures { result ≡ is_shaped k claim.now }
{
    has_shape(k, claim) && has_set_shape(k, claim)
}

/// Whether the set of a claim shows the cell of a sample.
fn is_set_cell(claim: &ClaimView<'_>, message: &Message) -> bool
    ensures { result ≡ is_set_cell claim.now message.now }
{
    match claim.set {
        None => false,
        Some(_nodes) => is_along(claim.axis, message),
    }
}

/// Why a cell of a claim isn't proved, where the claim's set doesn't show it.
fn cell_refusal(header: &Header, claim: &ClaimView<'_>, message: &Message) -> Option<CheckRefusal>
    ensures { result ≡ cell_refusal header.now claim.now message.now }
{
    if is_set_cell(claim, message) {
        return None;
    }
    match opens(header, message) {
        Ok(()) => None,
        Err(why) => Some(why),
    }
}

/// The first of these cells of a claim that isn't proved and that the claim's set doesn't show, and why.
fn first_unproved(
    header: &Header,
    claim: &ClaimView<'_>,
    cells: &[Message],
) -> Option<(u64, CheckRefusal)>
    ensures { result ≡ refused_from (cell_refusal header.now claim.now) 0 cells.now }
{
    for i in 0..cells.len() {
        if let Some(why) = cell_refusal(header, claim, &cells[i]) {
            return Some((i as u64, why));
        }
    }
    None
}

/// Copies the positions, the leaf namespaces and the shares of the cells along an axis to the fronts of buffers, and
/// tells how many there are.
fn gather_along(
    k: u16,
    axis: Axis,
    cells: &[Message],
    known: &mut [u16],
    names: &mut [Namespace],
    shares: &mut [Share],
) -> usize
    requires width { IsTrue (is_width k) }
    requires bare { list_all (is_bare k axis) cells.now ≡ true }
    requires known { length cells.now ≤ length known.old }
    requires names { length cells.now ≤ length names.old }
    requires shares { length cells.now ≤ length shares.old }
    ensures count { result ≡ length (along_in axis cells.now) }
    ensures known { take result known.new ≡ map (λ m. position axis m.cell) (along_in axis cells.now) }
    ensures names { take result names.new ≡ sample_names k (along_in axis cells.now) }
    ensures shares { take result shares.new ≡ map (λ m. m.share) (along_in axis cells.now) }
{
    let mut count = 0;
    for at in 0..cells.len() {
        let message = &cells[at];
        if is_along(axis, message) {
            known[count] = position(axis, message.cell);
            names[count] = leaf_namespace(k, message.cell, &message.share);
            shares[count] = message.share;
            count += 1;
        }
    }
    count
}

/// Why an opening is refused, if it is.
fn reason(opened: Result<(), OpenRefusal>) -> Option<OpenRefusal>
    ensures { result ≡ refusal_in opened }
{
    match opened {
        Ok(()) => None,
        Err(why) => Some(why),
    }
}

/// Why the nodes of a set don't open the cells of a claim that are along its axis.
fn nodes_refusal(
    room: &mut VerifyRoom,
    header: &Header,
    claim: &ClaimView<'_>,
    nodes: &[Digest],
) -> Option<OpenRefusal>
    requires room { room.old ≡ header.now.k }
    requires shape { has_shape header.now.k claim.now ≡ true }
    requires set_shape { fits_set header.now.k claim.now.axis claim.now.cells (Some nodes.now) ≡ true }
    ensures refusal { result ≡ nodes_refusal header.now claim.now (Some nodes.now) }
    ensures room { room.new ≡ room.old }
{
    let k = header.k;
    let count = gather_along(
        k,
        claim.axis,
        claim.cells,
        &mut room.known,
        &mut room.names,
        &mut room.shares,
    );
    let axis_root = header.root_of(claim.axis, claim.index);
    reason(open_set(
        2 * k,
        &room.known[..count],
        &room.names[..count],
        &room.shares[..count],
        nodes,
        &axis_root,
    ))
}

/// Why the set of a claim doesn't open, if it has one.
fn unopened(room: &mut VerifyRoom, header: &Header, claim: &ClaimView<'_>) -> Option<OpenRefusal>
    requires room { room.old ≡ header.now.k }
    requires shape { is_shaped header.now.k claim.now ≡ true }
    ensures refusal { result ≡ unopened header.now claim.now }
    ensures room { room.new ≡ room.old }
{
    match claim.set {
        None => None,
        Some(nodes) => nodes_refusal(room, header, claim, nodes),
    }
}

/// Copies the positions of cells on the axis, and their shares.
fn gather(axis: Axis, cells: &[Message], known: &mut [u16], shares: &mut [Share])
    requires known { length known.old ≡ length cells.now }
    requires shares { length shares.old ≡ length cells.now }
    ensures known { known.new ≡ map (λ m. position axis m.cell) cells.now }
    ensures shares { shares.new ≡ map (λ m. m.share) cells.now }
{
    for i in 0..known.len() {
        known[i] = position(axis, cells[i].cell);
        shares[i] = cells[i].share;
    }
}

/// The strict root of the codeword through a claim's cells, taken as the accused axis; none where its leaf
/// namespaces fall.
fn root_through(room: &mut VerifyRoom, claim: &ClaimView<'_>) -> Option<Digest>
    requires shape { has_shape room.old claim.now ≡ true }
    requires inside { list_all (λ m. is_in_square room.old m.cell) claim.now.cells ≡ true }
    ensures root { IsRootThrough room.old claim.now result }
    ensures room { room.new ≡ room.old }
{
    gather(claim.axis, claim.cells, &mut room.known, &mut room.shares);
    rebuild(&mut room.code, &room.known, &room.shares, &mut room.all);
    line_strict_root(room.k, claim.axis, claim.index, &room.all, &mut room.names)
}

/// The four checks in their order.
fn cause_of(room: &mut VerifyRoom, header: &Header, claim: &ClaimView<'_>) -> Option<FraudRefusal>
    requires room { room.old ≡ header.now.k }
    ensures cause { HasFraudCause header.now claim.now result }
    ensures room { room.new ≡ room.old }
{
    view_law(claim);
    claim_laws();
    message_laws();
    if !is_shaped(header.k, claim) {
        return Some(FraudRefusal::Shape);
    }
    if let Some((i, why)) = first_unproved(header, claim, claim.cells) {
        return Some(FraudRefusal::Cell(i, why));
    }
    if let Some(why) = unopened(room, header, claim) {
        return Some(FraudRefusal::Set(why));
    }
    let root = header.root_of(claim.axis, claim.index);
    if is_root(root_through(room, claim), &root) {
        Some(FraudRefusal::AxisMatches)
    } else {
        None
    }
}

/// No two answers to a claim have their cause at once. It changes nothing.
fn cause_law(header: &Header)
    ensures { (claim : ClaimParts) (a b : Option FraudRefusal) →
        HasFraudCause header.now claim a → HasFraudCause header.now claim b → a ≡ b }
{
    let _k = header.k;
    claim_laws();
    message_laws();
}

/// Judges a claim that lies elsewhere as `verify` does one: why it isn't accepted under a header, none where it
/// is.
///
/// The room is for the header's width, and its buffers are written. It takes no memory.
///
/// docs/RULES.md, "Fraud claims".
pub fn judge(room: &mut VerifyRoom, header: &Header, claim: &ClaimView<'_>) -> Option<FraudRefusal>
    requires room { room.old ≡ header.now.k }
    ensures accepts { (result ≡ None) ↔ Accepts header.now claim.now }
    ensures cause { HasFraudCause header.now claim.now result }
    ensures room { room.new ≡ room.old }
{
    cause_law(header);
    cause_of(room, header, claim)
}

/// Verifies a bad-encoding fraud proof (BEFP) under a data availability header: whether the claim has exactly k
/// cells of one axis, at ascending positions, each proved under the header's root of its row or its
/// column, and the strict root of the one codeword through them is none or isn't the header's root of
/// that axis. Where the claim has a set, its cells along the axis are proved by that in place of paths of
/// their own. Under the header of a square a claim is accepted only where a sample of it, or its set, and
/// the square name two strings with one SHA-256 digest.
///
/// Refuses another shape, then the first cell that isn't proved, with the reason of `opens`, then a set
/// that doesn't open its cells, with the reason of `open_set`, then an axis that has the header's root; a
/// refusal hands the claim back unchanged. The room is for the header's width, and its buffers are
/// written. It takes no memory.
///
/// Al-Bassam, Sonnino, Buterin and Khoffi, fraud proofs of incorrectly generated extended data;
/// docs/RULES.md, "Fraud claims".
pub fn verify(
    room: &mut VerifyRoom,
    header: &Header,
    claim: FraudClaim,
) -> Result<Upheld, FraudRefused>
    requires room { room.old ≡ header.now.k }
    ensures accepts { IsOk result ↔ Accepts header.now claim }
    ensures upheld { IfOk result (λ upheld. upheld ≡ claim) }

    // Each refusal comes exactly where its test is the first that fails, and hands the claim back.
    ensures shape { (why_of result ≡ Some refusal.Shape) ↔ (is_shaped header.now.k claim ≡ false) }
    ensures cell { (i : ℕ) (why : Why) → (why_of result ≡ Some (refusal.Cell i why)) ↔
        (is_shaped header.now.k claim ≡ true) × (first_unproved header.now claim ≡ Some (i, why)) }
    ensures set { (why : NotOpened) → (why_of result ≡ Some (refusal.Set why)) ↔
        (is_shaped header.now.k claim ≡ true) × (first_unproved header.now claim ≡ None)
        × (unopened header.now claim ≡ Some why) }
    ensures axis_matches { (why_of result ≡ Some refusal.AxisMatches) ↔
        (is_shaped header.now.k claim ≡ true) × (first_unproved header.now claim ≡ None)
        × (unopened header.now claim ≡ None) × FitsRoot header.now.k claim (claimed_root header.now claim) }
    ensures returned { IfErr result (λ refused. refused.claim ≡ claim) }

    // All of these at once.
    ensures cause { HasFraudCause header.now claim (why_of result) }

    // A claim that is accepted under the header of a square has a sample, or a set, that names a collision
    // with it.
    ensures own { IsOk result → IsFalseClaim header.now claim }
    ensures room { room.new ≡ room.old }
{
    cause_law(header);
    claim_laws();
    match cause_of(room, header, &ClaimView::of(&claim)) {
        Some(why) => Err(FraudRefused { claim, why }),
        None => Ok(Upheld::of(claim)),
    }
}
