//! A share against a line that matches the header.

ghost use Rattle.std.specs.Prelude.{◌≡◌, ◌+◌, ◌-◌, ◌*◌, ◌<◌, ◌≤◌, [], ◌∷◌, ◌++◌, Some, IfOk, IfErr, vec_len, vec_capacity};
ghost use Rattle.namespace_id.specs.Answers.{HasCapacity};
ghost use Rattle.namespace_id.specs.Lists.{ascending};
ghost use Rattle.data_header.specs.Headers.{root_of};
ghost use Rattle.axis_roots.specs.Messages.{position};
ghost use Rattle.axis_roots.specs.Lines.{line_strict_root};
ghost use Rattle.axis_roots.specs.Proved.{kept_message};
ghost use Rattle.befp_maker.specs.Conflicts.{IsLineOf, IsAgainst, IsThroughOther, IsProofAgainst, IsClashAgainst};
ghost use Rattle.befp_maker.specs.Gathered.{IsContinued, AreWith};

use crate::AxisRoom;
use crate::halves::{Decided, from_half};
use axis_roots::{FraudProof, Proved, message_laws, position};
use data_header::Header;
use hash_clash::Clash;
use namespace_id::{Axis, Share};

/// Appends a proved sample for which there is capacity.
fn put_cell(cells: &mut Vec<Proved>, cell: Proved)
    requires capacity { HasCapacity cells.old 1 }
    ensures appended { cells.new.items ≡ cells.old.items ++ cell ∷ [] }
    ensures len { vec_len cells.new ≡ vec_len cells.old + 1 }
    ensures capacity { vec_capacity cells.old ≤ vec_capacity cells.new }
{
    cells.push(cell).unwrap();
}

/// Appends the proved samples of the room's shares, which match the header as that axis, at the positions from one on
/// and below another.
fn put_line(
    room: &mut AxisRoom,
    header: &Header,
    axis: Axis,
    index: u16,
    from: u16,
    to: u16,
    cells: &mut Vec<Proved>,
)
    requires width { room.old.k ≡ header.now.k }
    requires index { index < 2 * header.now.k }
    requires root { line_strict_root header.now.k axis index room.old.shares
        ≡ Some (root_of header.now axis index) }
    requires first { from ≤ to }
    requires last { to ≤ header.now.k }
    requires capacity { HasCapacity cells.old (to - from) }
    ensures appended { IsContinued header.now axis index room.old.shares
        (ascending from (to - from)) cells.old.items cells.new.items }
    ensures len { vec_len cells.new ≡ vec_len cells.old + (to - from) }
    ensures capacity { vec_capacity cells.old ≤ vec_capacity cells.new }
    ensures kept { room.new ≡ room.old }
{
    for pos in from..to {
        put_cell(cells, room.proved(header, axis, index, pos));
    }
}

/// The cells of a fraud proof: another sample of an axis, and the first k - 1 others of the room's shares, which match
/// the header as that axis.
fn cells_with(
    room: &mut AxisRoom,
    header: &Header,
    axis: Axis,
    index: u16,
    other: Proved,
    cells: Vec<Proved>,
) -> Vec<Proved>
    requires width { room.old.k ≡ header.now.k }
    requires index { index < 2 * header.now.k }
    requires line { IsLineOf header.now axis index room.old.shares }
    requires other { IsAgainst header.now axis index room.old.shares other }
    requires empty { cells.items ≡ [] }
    requires capacity { HasCapacity cells header.now.k }
    ensures cells { AreWith header.now axis index room.old.shares other result.items }
    ensures kept { room.new ≡ room.old }
{
    message_laws();
    let k = header.k;
    let first = position(axis, other.message().cell).min(k - 1);
    let mut cells = cells;
    put_line(room, header, axis, index, 0, first, &mut cells);
    put_cell(&mut cells, other);
    put_line(room, header, axis, index, first + 1, k, &mut cells);
    cells
}

/// Names what is wrong where a proved sample shows another share than a line of its row or its column: `all`, a
/// codeword whose strict root is the header's root of the axis. The codeword through the sample's share and the
/// line's first k - 1 others is another one. Where its strict root isn't the header's, that is a fraud proof; where
/// it is, two lists of leaves have one root, and name a collision.
///
/// The room is for the header's width, and holds that codeword afterwards; `cells` is empty and has capacity for k. It
/// takes no memory.
///
/// docs/RULES.md, "Fraud claims", "Collisions".
pub fn from_conflict(
    room: &mut AxisRoom,
    header: &Header,
    axis: Axis,
    index: u16,
    all: &[Share],
    other: Proved,
    cells: Vec<Proved>,
) -> Result<FraudProof, Clash>
    requires room { room.old.k ≡ header.now.k }
    requires index { index < 2 * header.now.k }
    requires all { IsLineOf header.now axis index all.now }
    requires other { IsAgainst header.now axis index all.now other }
    requires empty { cells.items ≡ [] }
    requires capacity { HasCapacity cells header.now.k }
    ensures proof { IfOk result (IsProofAgainst header.now axis index all.now other) }
    ensures clash { IfErr result (λ clash.
        IsClashAgainst header.now axis index all.now other clash.left clash.right) }
    ensures through { IsThroughOther header.now.k all.now
        (position axis (kept_message other).cell) (kept_message other).share room.new.shares }
    ensures width { room.new.k ≡ room.old.k }
{
    room.hold(all);
    let cells = cells_with(room, header, axis, index, other, cells);
    match from_half(room, header, axis, index, cells) {
        Decided::Bad(proof) => Ok(proof),
        Decided::Matches(_cells) => Err(room.clash(axis, index, all)),
    }
}
