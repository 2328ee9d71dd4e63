//! Buffers for one row or column.

ghost use Rattle.std.specs.Prelude.{◌≡◌, ◌≢◌, ◌↔◌, ◌*◌, ◌<◌, IsTrue, IfOk, Some, None, true, length, map, replicate, if◌then◌else◌};
ghost use Rattle.std.specs.List.{list_all};
ghost use Rattle.namespace_id.specs.Cells.{is_width, is_in_square};
ghost use Rattle.data_header.specs.Headers.{root_of};
ghost use Rattle.nmt_tree.specs.Trees.{digest_over};
ghost use Rattle.axis_roots.specs.Messages.{position};
ghost use Rattle.axis_roots.specs.Openings.{IsProved};
ghost use Rattle.axis_roots.specs.Claims.{claim_with, has_shape, IsThrough};
ghost use Rattle.axis_roots.specs.Lines.{blank, entry, cell_on, is_ordered_line, line_root, line_strict_root, line_tree};
ghost use Rattle.axis_roots.specs.Proved.{IsUnder, kept_message};
ghost use Rattle.nmt_proofs.specs.Clashes.{IsClash, clash_at};
ghost use Rattle.nmt_proofs.specs.Making.{leaf_nodes};
ghost use Rattle.axis_roots.specs.Trees.{line_leaves, line_stored};

use axis_roots::{Message, Proved, cell_on, check, made_laws, name_leaves, position};
use data_header::Header;
use hash_clash::{Clash, clash_leaves};
use leopard_code::{Room, rebuild};
use namespace_id::{Axis, Digest, Namespace, NoMemory, PARITY, SHARE_SIZE, Share, shares_law};
use nmt_proofs::{Path, make_leaf};
use nmt_tree::Tree;
use std::alloc::Global;
use std::marker::Model;

/// Buffers for one axis of a square of width k: 2k shares, with the tree over their leaves. Contracts see its
/// width and these shares.
#[derive(Drop)]
pub struct AxisRoom {
    k: u16,
    code: Room,
    known: Vec<u16>,
    given: Vec<Share>,
    shares: Vec<Share>,
    names: Vec<Namespace>,
    others: Vec<Namespace>,
    tree: Tree,
    /// The axis that the tree over the shares is of, where it is one.
    held: Option<(Axis, u16)>,
}

impl Model for AxisRoom {
    ghost use Rattle.befp_maker.specs.Rooms.{RoomParts, IsAxisRoom};

    ghost Value = { RoomParts };

    ghost view = { λ r. record { k = r.k; shares = r.shares.items } };

    ghost invariant = { λ r. IsAxisRoom r.k r.code r.known.items r.given.items r.shares.items r.names.items r.others.items r.tree r.held };
}

/// A share of zeros.
fn blank() -> Share
    ensures { result ≡ blank }
{
    Share([0; SHARE_SIZE])
}

/// Whether this is the axis.
fn is_of(held: Option<(Axis, u16)>, axis: Axis, index: u16) -> bool
    ensures { IsTrue result ↔ (held ≡ Some (axis, index)) }
{
    held == Some((axis, index))
}

/// Fills a tree with the leaves over a line of 2k shares, taken as a row or a column, and says of which axis it is
/// then: of none where their namespaces fall.
fn fill_tree(
    k: u16,
    axis: Axis,
    index: u16,
    line: &[Share],
    names: &mut [Namespace],
    tree: &mut Tree,
) -> Option<(Axis, u16)>
    requires width { IsTrue (is_width k) }
    requires index { index < 2 * k }
    requires line { length line.now ≡ 2 * k }
    requires names { length names.old ≡ 2 * k }
    requires tree { tree.old.count ≡ 2 * k }
    ensures names { length names.new ≡ 2 * k }
    ensures count { tree.new.count ≡ 2 * k }
    ensures held { result ≡ (if is_ordered_line k axis index line.now then Some (axis, index) else None) }
    ensures tree { is_ordered_line k axis index line.now ≡ true → tree.new ≡ line_stored k axis index line.now }
    ensures root { digest_over tree.new 0 tree.new.count ≡ line_strict_root k axis index line.now }
{
    name_leaves(k, axis, index, line, names);
    tree.fill(names, line).then_some((axis, index))
}

/// The certificate of a sample that is proved under a header.
fn certify(header: &Header, message: Message) -> Proved
    requires { IsProved header.now message }
    ensures under { IsUnder header.now result }
    ensures message { kept_message result ≡ message }
{
    let Ok(proved) = check(header, message) else {
        unreachable!()
    };
    proved
}

/// Copies the positions of proved samples on an axis, and their shares.
fn gather(axis: Axis, cells: &[Proved], known: &mut [u16], given: &mut [Share])
    requires known { length known.old ≡ length cells.now }
    requires given { length given.old ≡ length cells.now }
    ensures known { known.new ≡ map (λ c. position axis (kept_message c).cell) cells.now }
    ensures given { given.new ≡ map (λ c. (kept_message c).share) cells.now }
{
    for i in 0..known.len() {
        let message = cells[i].message();
        known[i] = position(axis, message.cell);
        given[i] = message.share;
    }
}

impl AxisRoom {
    /// A room for squares of width `k`, with shares of zeros. It takes all memory that deciding needs, and refuses
    /// only where there is none.
    pub fn new(alloc: Global, k: u16) -> Result<AxisRoom, NoMemory>
        requires width { IsTrue (is_width k) }
        ensures width { IfOk result (λ room. room.k ≡ k) }
        ensures shares { IfOk result (λ room. room.shares ≡ replicate (2 * k) blank) }
    {
        let count = k as usize;
        let code = Room::new(alloc, k)?;
        let tree = Tree::new(alloc, 2 * k)?;
        let known = vec![in alloc; 0; count]?;
        let given = vec![in alloc; blank(); count]?;
        let shares = vec![in alloc; blank(); 2 * count]?;
        let names = vec![in alloc; PARITY; 2 * count]?;
        let others = vec![in alloc; PARITY; 2 * count]?;
        Ok(AxisRoom {
            k,
            code,
            known,
            given,
            shares,
            names,
            others,
            tree,
            held: None,
        })
    }

    /// The 2k shares that the last call of `from_half` or `from_conflict` rebuilt, or that `hold` put
    /// there since; zeros before.
    pub fn shares(&self) -> &[Share]
        ensures value { result.now ≡ self.now.shares }
        ensures count { length result.now ≡ 2 * self.now.k }
    {
        &self.shares
    }

    /// Takes the shares of a line of 2k shares in place of its own. It takes no memory.
    pub fn hold(&mut self, line: &[Share])
        requires { length line.now ≡ 2 * self.old.k }
        ensures { self.new ≡ record { k = self.old.k; shares = line.now } }
    {
        self.held = None;
        self.shares.copy_from_slice(line);
    }

    /// Rebuilds the line through k cells of an axis, and answers its strict root; none where its leaf namespaces fall.
    pub(crate) fn rebuild(&mut self, axis: Axis, index: u16, cells: &[Proved]) -> Option<Digest>
        requires shape { has_shape self.old.k (claim_with axis index cells.now) ≡ true }
        requires inside { list_all (λ m. is_in_square self.old.k m.cell)
            (claim_with axis index cells.now).cells ≡ true }
        ensures through { IsThrough self.old.k (claim_with axis index cells.now) self.new.shares }
        ensures root { result ≡ line_strict_root self.old.k axis index self.new.shares }
        ensures width { self.new.k ≡ self.old.k }
    {
        gather(axis, cells, &mut self.known, &mut self.given);
        rebuild(&mut self.code, &self.known, &self.given, &mut self.shares);
        self.held = fill_tree(
            self.k,
            axis,
            index,
            &self.shares,
            &mut self.names,
            &mut self.tree,
        );
        self.tree.root()
    }

    /// The collision that a line and the room's shares name, which have one root as an axis and are two lines.
    pub(crate) fn clash(&mut self, axis: Axis, index: u16, line: &[Share]) -> Clash
        requires index { index < 2 * self.old.k }
        requires line { length line.now ≡ 2 * self.old.k }
        requires root { line_root self.old.k axis index line.now
            ≡ line_root self.old.k axis index self.old.shares }
        requires apart { line.now ≢ self.old.shares }
        ensures clash { IsClash result.left result.right }
        ensures found { clash_at (line_tree self.old.k axis index line.now)
            (line_tree self.old.k axis index self.old.shares) ≡ Some (result.left, result.right) }
        ensures kept { self.new ≡ self.old }
    {
        name_leaves(self.k, axis, index, line, &mut self.names);
        name_leaves(self.k, axis, index, &self.shares, &mut self.others);
        let clash = clash_leaves(&self.names, line, &self.others, &self.shares);
        // Reading it tells that it is a collision.
        clash.left();
        clash
    }

    /// The nodes that open the share at `pos` of an axis that the room's shares are and whose leaf namespaces don't
    /// fall. The tree is filled only where it is that of another axis.
    fn path(&mut self, axis: Axis, index: u16, pos: u16) -> Path
        requires index { index < 2 * self.old.k }
        requires pos { pos < 2 * self.old.k }
        requires ordered { is_ordered_line self.old.k axis index self.old.shares ≡ true }
        ensures nodes { result ≡ leaf_nodes (2 * self.old.k)
            (line_leaves self.old.k axis index self.old.shares) pos }
        ensures kept { self.new ≡ self.old }
    {
        if is_of(self.held, axis, index) {
            return make_leaf(&self.tree, pos);
        }
        self.held = fill_tree(
            self.k,
            axis,
            index,
            &self.shares,
            &mut self.names,
            &mut self.tree,
        );
        make_leaf(&self.tree, pos)
    }

    /// Makes the sample of the cell at `pos` along an axis that the room's shares are, and verifies it under the
    /// header: index and position are below 2k, the room is for the header's width, and the strict root of its shares,
    /// taken as that axis, is the header's. The shares stay.
    ///
    /// The tree over the shares is filled only where it is that of another axis. It takes no memory.
    ///
    /// docs/RULES.md, "Proved samples".
    pub fn proved(&mut self, header: &Header, axis: Axis, index: u16, pos: u16) -> Proved
        requires room { self.old.k ≡ header.now.k }
        requires index { index < 2 * self.old.k }
        requires pos { pos < 2 * self.old.k }
        requires root { line_strict_root self.old.k axis index self.old.shares
            ≡ Some (root_of header.now axis index) }
        ensures under { IsUnder header.now result }
        ensures cell { (kept_message result).cell ≡ cell_on axis index pos }
        ensures axis { (kept_message result).axis ≡ axis }
        ensures share { (kept_message result).share ≡ entry self.old.shares pos }
        ensures kept { self.new ≡ self.old }
    {
        made_laws();
        shares_law(&self.shares);
        let share = self.shares[pos as usize];
        let path = self.path(axis, index, pos);
        let cell = cell_on(axis, index, pos);
        certify(
            header,
            Message {
                cell,
                axis,
                share,
                path,
            },
        )
    }
}
