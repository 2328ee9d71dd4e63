//! Fraud claims with one proof of all samples along the accused axis, in place of one for each.

ghost use Rattle.std.specs.Prelude.{◌≡◌, ◌+◌, ◌^◌, ◌*◌, ◌≤◌, ◌<◌, ◌++◌, length, map, IsTrue, IfOk, OnOk, MatchOption, true, false};
ghost use Rattle.std.specs.Option.{is_some};
ghost use Rattle.befp_verify.specs.declared.compacting.Compacted.TheVariants.{Claim as Made};
ghost use Rattle.std.specs.List.{AllByRecursion, list_any};
ghost use Rattle.namespace_id.specs.Cells.{is_width, is_in_square};
ghost use Rattle.namespace_id.specs.Sizes.{most_depth, most_leaves};
ghost use Rattle.nmt_proofs.specs.Openings.{begun};
ghost use Rattle.nmt_proofs.specs.Merging.{leaves_of, merged_nodes, HoldsAlong, BranchesAgree};
ghost use Rattle.nmt_tree.specs.Roots.{is_leaf_count, halvings};
ghost use Rattle.axis_roots.specs.Sets.{is_along, along_in};
ghost use Rattle.data_header.specs.Headers.{Roots};
ghost use Rattle.axis_roots.specs.Claims.{ClaimParts, Accepts};
ghost use Rattle.befp_verify.specs.Compacting.{bare, bare_all, is_compacted, branch_of, branches_of, IsCompacted};
ghost use Rattle.befp_verify.specs.Placed.{placed_of, placed_branches, HasNodes, AreUnderOne, NamesTwoOf};

use crate::Upheld;
use crate::verifying::some_along;
use axis_roots::{FraudClaim, Message, SetNodes, is_along, position};
use data_header::Header;
use hash_clash::{Clash, Opening, clash_between};
use namespace_id::{Axis, BLANK_DIGEST, Digest, NoMemory, digests_law, leaf_namespace};
use nmt_proofs::Path;
use nmt_tree::{halvings, leaf_count};
use std::alloc::Global;

/// What a claim is made into by `compact`.
pub enum Compacted {
    /// An accepted claim on the same axis, with the same shares at the same cells.
    Claim(FraudClaim),
    /// A SHA-256 collision that two of the claim's cells along the accused axis name.
    Clash(Clash),
}

/// A sample's inclusion proof, with the place that it opens.
#[derive(Drop)]
pub(crate) struct Placed {
    pub(crate) pos: u16,
    pub(crate) opening: Opening,
}

/// A path with the same nodes.
fn same_path(path: &Path) -> Path
    ensures { result ≡ path.now }
{
    let mut copy = Path::new();
    for node in path.nodes() {
        copy.push(*node);
    }
    copy
}

/// How many openings are of places before one.
fn count_before(branches: &[Placed], middle: u16) -> usize
    ensures count { result ≡ begun middle (leaves_of (placed_branches branches.now)) }
    ensures bound { result ≤ length branches.now }
{
    for (i, branch) in branches.iter().enumerate() {
        if branch.pos >= middle {
            return i;
        }
    }
    branches.len()
}

/// Appends the nodes that open the leaves of branches of an interval, which lies behind so many right turns;
/// `beside` is the node of the interval itself, for where it holds none of them.
fn merge(
    depth: u8,
    start: u16,
    turns: usize,
    beside: Digest,
    branches: &[Placed],
    nodes: &mut Vec<Digest>,
) -> Result<(), NoMemory>
    requires depth { depth ≤ most_depth }
    requires interval { start + 2 ^ depth ≤ most_leaves }
    requires turned { turns ≤ most_depth }
    requires paths { AllByRecursion (HasNodes (turns + depth)) branches.now }
    ensures { OnOk result (nodes.new.items ≡
        nodes.old.items ++ merged_nodes depth start turns beside (placed_branches branches.now)) }
{
    if branches.is_empty() {
        let Ok(()) = nodes.push(beside) else {
            return Err(NoMemory);
        };
        return Ok(());
    }
    if depth == 0 {
        return Ok(());
    }
    let below = depth - 1;
    let middle = start + leaf_count(below);
    let path = branches[0].opening.path.nodes();
    let left_beside = path[turns];
    let right_beside = path[turns + below as usize];
    let (left, right) = branches.split_at(count_before(branches, middle));
    merge(below, start, turns, left_beside, left, nodes)?;
    merge(below, middle, turns + 1, right_beside, right, nodes)
}

/// A sample with the same values.
fn same_message(message: &Message) -> Message
    ensures { result ≡ message.now }
{
    Message {
        cell: message.cell,
        axis: message.axis,
        share: message.share,
        path: same_path(&message.path),
    }
}

/// A sample without its path, where it is along the axis.
fn bare_message(axis: Axis, message: &Message) -> Message
    ensures { result ≡ bare axis message.now }
{
    if is_along(axis, message) {
        Message {
            cell: message.cell,
            axis: message.axis,
            share: message.share,
            path: Path::new(),
        }
    } else {
        same_message(message)
    }
}

/// Samples with the same values.
fn same_messages(alloc: Global, cells: &[Message]) -> Result<Vec<Message>, NoMemory>
    ensures { IfOk result (λ made. made.items ≡ cells.now) }
{
    let mut made = Vec::with_capacity(alloc, cells.len())?;
    for message in cells {
        let Ok(()) = made.push(same_message(message)) else {
            return Err(NoMemory);
        };
    }
    Ok(made)
}

/// Samples without the paths of those that are along the axis.
fn bare_messages(alloc: Global, axis: Axis, cells: &[Message]) -> Result<Vec<Message>, NoMemory>
    ensures { IfOk result (λ made. made.items ≡ bare_all axis cells.now) }
{
    let mut made = Vec::with_capacity(alloc, cells.len())?;
    for message in cells {
        let Ok(()) = made.push(bare_message(axis, message)) else {
            return Err(NoMemory);
        };
    }
    Ok(made)
}

/// The nodes of a set, if there is one.
fn same_set(alloc: Global, set: &Option<SetNodes>) -> Result<Option<SetNodes>, NoMemory>
    ensures { IfOk result (λ made. made ≡ set.now) }
{
    let Some(set) = set else {
        return Ok(None);
    };
    let nodes = Vec::from_slice(alloc, &set.nodes)?;
    Ok(Some(SetNodes { nodes }))
}

/// A claim with the same values.
fn same_claim(alloc: Global, claim: &FraudClaim) -> Result<FraudClaim, NoMemory>
    ensures { IfOk result (λ made. made ≡ claim.now) }
{
    Ok(FraudClaim {
        axis: claim.axis,
        index: claim.index,
        cells: same_messages(alloc, &claim.cells)?,
        set: same_set(alloc, &claim.set)?,
    })
}

/// The opening that a sample makes at its place on the axis.
fn placed_message(k: u16, axis: Axis, message: &Message) -> Placed
    requires width { IsTrue (is_width k) }
    requires inside { is_in_square k message.now.cell ≡ true }
    ensures { placed_of result ≡ branch_of k axis message.now }
{
    Placed {
        pos: position(axis, message.cell),
        opening: Opening {
            name: leaf_namespace(k, message.cell, &message.share),
            share: message.share,
            path: same_path(&message.path),
        },
    }
}

/// Those of all samples along the axis.
fn placed_messages(
    alloc: Global,
    k: u16,
    axis: Axis,
    cells: &[Message],
) -> Result<Vec<Placed>, NoMemory>
    requires width { IsTrue (is_width k) }
    requires inside { AllByRecursion (λ m. is_in_square k m.cell ≡ true) cells.now }
    ensures { IfOk result (λ made. placed_branches made.items ≡ branches_of k axis cells.now) }
{
    let mut made = Vec::with_capacity(alloc, cells.len())?;
    for i in 0..cells.len() {
        let message = &cells[i];
        if is_along(axis, message) {
            let Ok(()) = made.push(placed_message(k, axis, message)) else {
                return Err(NoMemory);
            };
        }
    }
    Ok(made)
}

/// Whether a claim is left as it is: it has a set, or no cell along the axis.
fn is_compact(claim: &FraudClaim) -> bool
    ensures { result ≡ is_compacted claim.now }
{
    if claim.set.is_some() {
        return true;
    }
    !some_along(claim.axis, &claim.cells)
}

/// The collision that two neighbors among openings under one root name, if any two do.
fn first_clash(n: u16, branches: &[Placed]) -> Option<Clash>
    requires leaves { IsTrue (is_leaf_count n) }
    requires places { AllByRecursion (λ p. p.pos < n) branches.now }
    requires open { AreUnderOne (halvings n) (placed_branches branches.now) }
    ensures { MatchOption result (HoldsAlong (BranchesAgree (halvings n)) (placed_branches branches.now))
        (NamesTwoOf (halvings n) (placed_branches branches.now)) }
{
    for i in 1..branches.len() {
        let before = &branches[i - 1];
        let branch = &branches[i];
        let found = clash_between(n, before.pos, &before.opening, branch.pos, &branch.opening);
        if found.is_some() {
            return found;
        }
    }
    None
}

/// What stands for the node of the whole tree, which no opening takes.
fn no_node() -> Digest {
    BLANK_DIGEST
}

/// What makes a claim with a set of one that is accepted under a header and has none: the openings of its cells
/// along the accused axis are put together to one, or two of them name a collision.
fn make_set(alloc: Global, header: &Header, claim: &FraudClaim) -> Result<Compacted, NoMemory>
    requires accepted { Accepts header.now claim.now }
    requires wide { is_compacted claim.now ≡ false }
    ensures { IfOk result (IsCompacted header.now claim.now) }
{
    let n = 2 * header.k;
    let branches = placed_messages(alloc, header.k, claim.axis, &claim.cells)?;
    if let Some(clash) = first_clash(n, &branches) {
        return Ok(Compacted::Clash(clash));
    }
    let mut nodes = Vec::new(alloc);
    let beside = no_node();
    merge(halvings(n as usize), 0, 0, beside, &branches, &mut nodes)?;
    digests_law(&nodes);
    Ok(Compacted::Claim(FraudClaim {
        axis: claim.axis,
        index: claim.index,
        cells: bare_messages(alloc, claim.axis, &claim.cells)?,
        set: Some(SetNodes { nodes }),
    }))
}

/// Makes a fraud claim short: in place of the paths of its cells along the accused axis the claim gets one
/// set, which opens all of them. It stays accepted under the header that it was accepted under. A claim that
/// has a set, or no cell along its axis, stays as it is.
///
/// Where two cells along the axis have openings that contradict one another, it is the SHA-256 collision that
/// they name.
///
/// docs/RULES.md, "Fraud claims".
pub fn compact(alloc: Global, header: &Header, upheld: &Upheld) -> Result<Compacted, NoMemory>
    requires accepted { Accepts header.now upheld.now }
    ensures { IfOk result (IsCompacted header.now upheld.now) }
{
    let claim = upheld.claim();
    if is_compact(claim) {
        return Ok(Compacted::Claim(same_claim(alloc, claim)?));
    }
    make_set(alloc, header, claim)
}

/// What is proved of a claim that is made into another. It does nothing.
pub fn compact_laws()
    // A claim with a cell along its axis is made into one with a set.
    ensures set { (header : Roots) (claim made : ClaimParts) → IsCompacted header claim (Made made) →
        list_any (is_along claim.axis) claim.cells ≡ true → is_some made.set ≡ true }
{}
