//! Samples that are judged by what earlier ones under the same header have shown.

ghost use Rattle.std.specs.Prelude.{◌≡◌, ◌↔◌, ◌<◌, ◌≤◌, ◌*◌, length, get_or, map, IsOk, IsErrOf, IfOk, IfErr, IfSome, Some, true, false, ℕ, IsTrue};
ghost use Rattle.namespace_id.specs.Answers.{refusal_in};
ghost use Rattle.namespace_id.specs.Cells.{is_width, is_in_square};
ghost use Rattle.namespace_id.specs.Digests.{no_digest};
ghost use Rattle.nmt_tree.specs.Roots.{halvings, is_leaf_count};
ghost use Rattle.nmt_proofs.specs.Openings.{Opens, has_count, has_order, has_root};
ghost use Rattle.data_header.specs.Headers.{root_of};
ghost use Rattle.axis_roots.specs.Messages.{position, index, shown_by, shown_leaf, root_for, is_inside, has_node_count, has_ordered_joins, is_under_root, message_refusal, IsMessage};
ghost use Rattle.axis_roots.specs.Openings.{IsProved};
ghost use Rattle.axis_roots.specs.Own.{IsOwn};
ghost use Rattle.axis_roots.specs.Proved.{IsUnder, kept_message};
ghost use Rattle.axis_roots.specs.Partials.{rooted, roots_in, HaveCount};

use super::certificates::RefusedMessage;
use super::messages::{CheckRefusal, Message, index, message_law, opens, position};
use super::proved::Proved;
use data_header::Header;
use namespace_id::{Axis, BLANK_DIGEST, Digest, NoMemory, is_in_square, leaf_namespace};
use nmt_proofs::{OpenRefusal, PartialTree};
use nmt_tree::{HashedNodes, leaf};
use std::alloc::Global;
use std::marker::Model;

/// The partial trees of `n` leaves under these roots.
fn trees_under(alloc: Global, n: u16, roots: &[Digest]) -> Result<Vec<PartialTree>, NoMemory>
    requires leaves { IsTrue (is_leaf_count n) }
    ensures trees { IfOk result (λ trees. trees.items ≡ map (rooted n) roots.now) }
{
    let mut trees = Vec::with_capacity(alloc, roots.len())?;
    for root in roots {
        let tree = PartialTree::new(alloc, n, root)?;
        let Ok(()) = trees.push(tree) else {
            return Err(NoMemory);
        };
    }
    Ok(trees)
}

/// The digest of the leaf over the cell of a sample, which is in the square of width k.
fn shown_leaf(k: u16, message: &Message) -> Digest
    requires width { IsTrue (is_width k) }
    requires cell { IsTrue (is_in_square k message.now.cell) }
    ensures { result ≡ shown_leaf k message.now.cell message.now.share }
{
    let name = leaf_namespace(k, message.cell, &message.share);
    leaf(&name, &message.share)
}

/// Whether the nodes of a sample open its share, of which the digest of the leaf is given, in the tree
/// of its row or column; these are the trees of the sample's axis, in a square of width k.
fn open_in(
    trees: &mut [PartialTree],
    ahead: &HashedNodes,
    k: u16,
    message: &Message,
    leaf: &Digest,
) -> Result<(), OpenRefusal>
    requires width { IsTrue (is_width k) }
    requires cell { IsTrue (is_in_square k message.now.cell) }
    requires leaves { HaveCount (2 * k) trees.old }
    requires index { index message.now.axis message.now.cell < length trees.old }
    requires place { position message.now.axis message.now.cell < 2 * k }
    requires leaf { leaf.now ≡ shown_leaf k message.now.cell message.now.share }
    ensures accepts { IsOk result ↔ Opens (halvings (2 * k)) (shown_by k message.now) message.now.path
        (get_or (roots_in trees.old) (index message.now.axis message.now.cell) no_digest) }
    ensures node_count { IsErrOf result OpenRefusal.NodeCount ↔
        (has_count (halvings (2 * k)) (shown_by k message.now) message.now.path ≡ false) }
    ensures unordered { IsErrOf result OpenRefusal.Unordered ↔
        (has_count (halvings (2 * k)) (shown_by k message.now) message.now.path ≡ true)
        × (has_order (halvings (2 * k)) (shown_by k message.now) message.now.path ≡ false) }
    ensures other_root { IsErrOf result OpenRefusal.OtherRoot ↔
        (has_count (halvings (2 * k)) (shown_by k message.now) message.now.path ≡ true)
        × (has_order (halvings (2 * k)) (shown_by k message.now) message.now.path ≡ true)
        × (has_root (halvings (2 * k)) (shown_by k message.now) message.now.path
        (get_or (roots_in trees.old) (index message.now.axis message.now.cell) no_digest) ≡ false) }
    ensures never { (i : ℕ) → IsErrOf result (OpenRefusal.Incomplete i) → ⊥ }
    ensures kept { trees.new ≡ trees.old }
{
    let name = leaf_namespace(k, message.cell, &message.share);
    let at = index(message.axis, message.cell) as usize;
    let pos = position(message.axis, message.cell);
    let nodes = message.path.nodes();
    trees[at].open_ahead(pos, &name, &message.share, leaf, nodes, Some(ahead))
}

/// The digests that samples have shown under a header: of each row and column, those of its namespaced
/// Merkle tree under the header's root.
///
/// They make the verification of many samples under one header cheaper, and decide nothing: what
/// contracts see of them is the header.
#[derive(Drop)]
pub struct PartialTrees {
    k: u16,
    rows: Vec<PartialTree>,
    cols: Vec<PartialTree>,
    ahead: HashedNodes,
}

impl Model for PartialTrees {
    ghost use Rattle.data_header.specs.Headers.{Roots};
    ghost use Rattle.axis_roots.specs.Partials.{ArePartials, rooted_header};

    ghost Value = { Roots };

    ghost view = { λ t. rooted_header t.k t.rows.items t.cols.items };

    ghost invariant = { λ t. ArePartials t.k t.rows.items t.cols.items };
}

impl PartialTrees {
    /// The roots of a header alone. It takes all memory at its start, 4k trees of 4k nodes of 91
    /// bytes, and refuses only where there is none.
    pub fn new(alloc: Global, header: &Header) -> Result<PartialTrees, NoMemory>
        ensures { IfOk result (λ trees. trees ≡ header.now) }
    {
        let rows = trees_under(alloc, 2 * header.k, &header.rows)?;
        let cols = trees_under(alloc, 2 * header.k, &header.cols)?;
        Ok(PartialTrees {
            k: header.k,
            rows,
            cols,
            ahead: HashedNodes::over([BLANK_DIGEST; 16]),
        })
    }

    /// Hashes eight nodes ahead, side by side, over sixteen digests in pairs. A later sample whose path
    /// leads over one of them is judged without hashing it, where it is the one at a place modulo 8 and
    /// the right half of the node begins at that place of its row or column. Nodes that were hashed
    /// ahead before are forgotten; the answers are the same whichever there are.
    pub fn hash_ahead(&mut self, halves: [Digest; 16])
        ensures kept { self.new ≡ self.old }
    {
        self.ahead = HashedNodes::over(halves);
    }

    /// Whether the nodes of a sample with a cell of the square open its share, of which the digest of
    /// the leaf is given.
    fn open(&mut self, message: &Message, leaf: &Digest) -> Result<(), OpenRefusal>
        requires inside { is_inside self.old message.now ≡ true }
        requires leaf { leaf.now ≡
            shown_leaf self.old.k message.now.cell message.now.share }
        ensures accepts { IsOk result ↔ Opens (halvings (2 * self.old.k))
            (shown_by self.old.k message.now) message.now.path (root_for self.old message.now) }
        ensures node_count { IsErrOf result OpenRefusal.NodeCount ↔
            (has_node_count self.old message.now ≡ false) }
        ensures unordered { IsErrOf result OpenRefusal.Unordered ↔
            (has_node_count self.old message.now ≡ true)
            × (has_ordered_joins self.old message.now ≡ false) }
        ensures other_root { IsErrOf result OpenRefusal.OtherRoot ↔
            (has_node_count self.old message.now ≡ true)
            × (has_ordered_joins self.old message.now ≡ true)
            × (is_under_root self.old message.now ≡ false) }
        ensures never { (i : ℕ) → IsErrOf result (OpenRefusal.Incomplete i) → ⊥ }
        ensures kept { self.new ≡ self.old }
    {
        match message.axis {
            Axis::Row => open_in(&mut self.rows, &self.ahead, self.k, message, leaf),
            Axis::Col => open_in(&mut self.cols, &self.ahead, self.k, message, leaf),
        }
    }

    /// Verifies a sample under the header, as the call `opens` of these trees does, where the digest of
    /// its leaf was hashed before, as in a queue (`LeafQueue`). It takes no memory.
    ///
    /// Celestia specifications, "Data Structures", namespaced Merkle tree inclusion proofs;
    /// docs/RULES.md, "Proved samples".
    pub fn opens_hashed(&mut self, message: &Message, leaf: &Digest) -> Result<(), CheckRefusal>
        requires leaf { leaf.now ≡
            shown_leaf self.old.k message.now.cell message.now.share }
        ensures accepts { IsOk result ↔ IsProved self.old message.now }
        ensures out_of_square { IsErrOf result CheckRefusal.OutOfSquare ↔
            (is_inside self.old message.now ≡ false) }
        ensures node_count { IsErrOf result CheckRefusal.NodeCount ↔
            (is_inside self.old message.now ≡ true)
            × (has_node_count self.old message.now ≡ false) }
        ensures unordered { IsErrOf result CheckRefusal.Unordered ↔
            (is_inside self.old message.now ≡ true)
            × (has_node_count self.old message.now ≡ true)
            × (has_ordered_joins self.old message.now ≡ false) }
        ensures other_root { IsErrOf result CheckRefusal.OtherRoot ↔
            (is_inside self.old message.now ≡ true)
            × (has_node_count self.old message.now ≡ true)
            × (has_ordered_joins self.old message.now ≡ true)
            × (is_under_root self.old message.now ≡ false) }

        // All of these at once.
        ensures first { refusal_in result ≡ message_refusal self.old message.now }

        // Under the header of a square, what is accepted is the square's own share, or the sample
        // and the square name a collision.
        ensures own { IsOk result → IsOwn self.old message.now }

        // They stay the partial trees of this header.
        ensures kept { self.new ≡ self.old }
    {
        message_law(message);
        if !is_in_square(self.k, message.cell) {
            return Err(CheckRefusal::OutOfSquare);
        }
        match self.open(message, leaf) {
            Ok(()) => Ok(()),
            Err(OpenRefusal::NodeCount) => Err(CheckRefusal::NodeCount),
            Err(OpenRefusal::Unordered) => Err(CheckRefusal::Unordered),
            Err(_) => Err(CheckRefusal::OtherRoot),
        }
    }

    /// Verifies a sample under the header, as the function `opens` does: it accepts the same, and
    /// refuses the same with the same reasons, in the same order. It takes no memory.
    ///
    /// What its path shows under the root is kept, so that later samples of that row or column are
    /// hashed only up to their first digest that is kept; the answers are the same whatever is kept.
    ///
    /// Celestia specifications, "Data Structures", namespaced Merkle tree inclusion proofs;
    /// docs/RULES.md, "Proved samples".
    pub fn opens(&mut self, message: &Message) -> Result<(), CheckRefusal>
        ensures accepts { IsOk result ↔ IsProved self.old message.now }
        ensures out_of_square { IsErrOf result CheckRefusal.OutOfSquare ↔
            (is_inside self.old message.now ≡ false) }
        ensures node_count { IsErrOf result CheckRefusal.NodeCount ↔
            (is_inside self.old message.now ≡ true)
            × (has_node_count self.old message.now ≡ false) }
        ensures unordered { IsErrOf result CheckRefusal.Unordered ↔
            (is_inside self.old message.now ≡ true)
            × (has_node_count self.old message.now ≡ true)
            × (has_ordered_joins self.old message.now ≡ false) }
        ensures other_root { IsErrOf result CheckRefusal.OtherRoot ↔
            (is_inside self.old message.now ≡ true)
            × (has_node_count self.old message.now ≡ true)
            × (has_ordered_joins self.old message.now ≡ true)
            × (is_under_root self.old message.now ≡ false) }

        // All of these at once.
        ensures first { refusal_in result ≡ message_refusal self.old message.now }

        // Under the header of a square, what is accepted is the square's own share, or the sample
        // and the square name a collision.
        ensures own { IsOk result → IsOwn self.old message.now }

        // They stay the partial trees of this header.
        ensures kept { self.new ≡ self.old }
    {
        if !is_in_square(self.k, message.cell) {
            return Err(CheckRefusal::OutOfSquare);
        }
        let leaf = shown_leaf(self.k, message);
        self.opens_hashed(message, &leaf)
    }

    /// The root of an axis, the row or column of this index, below 2k.
    fn root_of(&self, axis: Axis, index: u16) -> Digest
        requires { index < 2 * self.now.k }
        ensures { result ≡ root_of self.now axis index }
    {
        match axis {
            Axis::Row => self.rows[index as usize].root(),
            Axis::Col => self.cols[index as usize].root(),
        }
    }

    /// Verifies a sample under the header, as `opens` does, and makes the certificate of one that is
    /// accepted, as the function `check` does.
    ///
    /// Refuses what `opens` refuses, with its reason, and hands the sample back unchanged. It takes
    /// no memory.
    ///
    /// docs/RULES.md, "Proved samples".
    pub fn check(&mut self, message: Message) -> Result<Proved, RefusedMessage>
        ensures accepts { IsOk result ↔ IsProved self.old message }
        ensures under { IfOk result (IsUnder self.old) }
        ensures message { IfOk result (λ proved. kept_message proved ≡ message) }
        ensures own { IsOk result → IsOwn self.old message }

        // A refusal names the first check that fails, and hands the sample back.
        ensures why { IfErr result (λ refused. Some refused.why ≡ message_refusal self.old message) }
        ensures returned { IfErr result (λ refused. refused.message ≡ message) }

        // They stay the partial trees of this header.
        ensures kept { self.new ≡ self.old }
    {
        if let Err(why) = self.opens(&message) {
            return Err(RefusedMessage { message, why });
        }
        let root = self.root_of(message.axis, index(message.axis, message.cell));
        Ok(Proved::of(self.k, message, root))
    }
}

/// Verifies a sample under a header as `opens` does, by the partial trees under it where there are
/// some, and alone otherwise. It takes no memory.
///
/// docs/RULES.md, "Proved samples".
pub fn opens_by(
    header: &Header,
    trees: &mut Option<PartialTrees>,
    message: &Message,
) -> Result<(), CheckRefusal>
    requires under { IfSome trees.old (λ kept. kept ≡ header.now) }
    ensures accepts { IsOk result ↔ IsProved header.now message.now }
    ensures first { refusal_in result ≡ message_refusal header.now message.now }
    ensures own { IsOk result → IsOwn header.now message.now }
    ensures kept { trees.new ≡ trees.old }
{
    match trees {
        Some(kept) => kept.opens(message),
        None => opens(header, message),
    }
}

/// Verifies a sample under a header as `opens_by` does, where the digest of its leaf may have been hashed
/// before. It takes no memory.
///
/// docs/RULES.md, "Proved samples".
pub fn opens_hashed_by(
    header: &Header,
    trees: &mut Option<PartialTrees>,
    message: &Message,
    leaf: Option<Digest>,
) -> Result<(), CheckRefusal>
    requires under { IfSome trees.old (λ kept. kept ≡ header.now) }
    requires leaf { IfSome leaf (λ hashed. hashed ≡
        shown_leaf header.now.k message.now.cell message.now.share) }
    ensures accepts { IsOk result ↔ IsProved header.now message.now }
    ensures first { refusal_in result ≡ message_refusal header.now message.now }
    ensures own { IsOk result → IsOwn header.now message.now }
    ensures kept { trees.new ≡ trees.old }
{
    let Some(hashed) = leaf else {
        return opens_by(header, trees, message);
    };
    match trees {
        Some(kept) => kept.opens_hashed(message, &hashed),
        None => opens(header, message),
    }
}
