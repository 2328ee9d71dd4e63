//! What is wrong where two shares of one cell are known.

ghost use Rattle.std.specs.Prelude.{◌≡◌, ◌≢◌, ℕ, ◌*◌, ◌<◌, List, length, true, IsTrue, Some};
ghost use Rattle.namespace_id.specs.Cells.{is_width, is_in_square, leaf_namespace};
ghost use Rattle.nmt_proofs.specs.Clashes.{clash_at};
ghost use Rattle.axis_roots.specs.declared.message.messages.Message.{Message as Sent};
ghost use Rattle.axis_roots.specs.Proved.{IsUnder, kept_message};
ghost use Rattle.axis_roots.specs.Own.{opened_by};
ghost use Rattle.befp_maker.specs.Conflicts.{IsLineOf, IsAgainst};
ghost use Rattle.repair_queue.specs.Closures.{Fact};
ghost use Rattle.repair_queue.specs.Lines.{AreFacts};
ghost use Rattle.repair_queue.specs.Repairs.{IsEnd};
ghost use Rattle.repair_queue.specs.Tools.{HasSpare};

use crate::ending::Ending;
use crate::tools::Tools;
use axis_roots::{Message, Proved, position};
use befp_maker::from_conflict;
use data_header::Header;
use hash_clash::{Clash, Opening, clash_paths};
use namespace_id::{Axis, leaf_namespace};

/// Names what is wrong where a sample shows another share than the line of its row or its column
/// that the tools hold, which has the header's root.
pub(crate) fn conflict(
    tools: &mut Tools,
    header: &Header,
    axis: Axis,
    index: u16,
    other: Proved,
) -> Ending
    requires room { tools.old.room.k ≡ header.now.k }
    requires spare { HasSpare header.now.k tools.old.spare }
    requires index { index < 2 * header.now.k }
    requires line { IsLineOf header.now axis index tools.old.line.items }
    requires other { IsAgainst header.now axis index tools.old.line.items other }
    ensures { (ms : List Sent) → AreFacts header.now ms axis index tools.old.line.items →
        Fact header.now ms (kept_message other).cell (kept_message other).share →
        IsEnd header.now ms result }
{
    let cells = tools.spare.take().unwrap();
    let line = &tools.line;
    match from_conflict(&mut tools.room, header, axis, index, line, other, cells) {
        Ok(proof) => Ending::Fraud(proof),
        Err(clash) => Ending::Clash(clash),
    }
}

/// The opening of a sample's leaf.
fn opening_of(k: u16, message: Message) -> Opening
    requires width { IsTrue (is_width k) }
    requires cell { is_in_square k message.cell ≡ true }
    ensures name { result.name ≡ leaf_namespace k message.cell message.share }
    ensures share { result.share ≡ message.share }
    ensures path { result.path ≡ message.path }
{
    let name = leaf_namespace(k, message.cell, &message.share);
    Opening {
        name,
        share: message.share,
        path: message.path,
    }
}

/// The collision that two samples of one cell along one axis name, which show different shares.
pub(crate) fn beside(header: &Header, one: Proved, other: Proved) -> Clash
    requires one { IsUnder header.now one }
    requires other { IsUnder header.now other }
    requires axis { (kept_message one).axis ≡ (kept_message other).axis }
    requires cell { (kept_message one).cell ≡ (kept_message other).cell }
    requires apart { (kept_message one).share ≢ (kept_message other).share }
    ensures { clash_at (opened_by header.now.k (kept_message one))
        (opened_by header.now.k (kept_message other)) ≡ Some (result.left, result.right) }
{
    let one = one.into_message();
    let pos = position(one.axis, one.cell);
    let one = opening_of(header.k, one);
    let other = opening_of(header.k, other.into_message());
    clash_paths(2 * header.k, pos, &one, &other)
}
