//! Of axes that half their cells decide, and of squares of whose extension the left half is kept.

ghost use Rattle.std.specs.Prelude.{◌≡◌, ◌<◌, Result, IsTrue, IfOk};
ghost use Rattle.namespace_id.specs.Cells.{is_in_square};
ghost use Rattle.befp_maker.specs.Halves.{AreHalf};
ghost use Rattle.one_answer.specs.Ones.{AreOneDecision};

use axis_roots::{LeftHalf, Message, Proved, grid_laws, message_laws};
use befp_maker::{AxisRoom, Decided, from_half};
use data_header::Header;
use namespace_id::{Axis, Cell, NoMemory};
use square_layout::Square;
use std::alloc::Global;

/// A square's left half is kept in one way, or the square has no header.
pub fn half_of_twice(
    alloc: Global,
    square: Square,
    copy: Square,
) -> (
    Result<Option<LeftHalf>, NoMemory>,
    Result<Option<LeftHalf>, NoMemory>,
)
    requires copy { copy ≡ square }
    ensures { IfOk result.0 (λ one. IfOk result.1 (λ other. one ≡ other)) }
{
    grid_laws();
    let first = LeftHalf::of(alloc, square);
    let second = LeftHalf::of(alloc, copy);
    (first, second)
}

/// A cell of its extension has one sample along an axis.
pub fn half_sample_twice(
    one: &mut LeftHalf,
    other: &mut LeftHalf,
    cell: Cell,
    axis: Axis,
) -> (Message, Message)
    requires cell { IsTrue (is_in_square one.old.square.k cell) }
    requires same { one.old ≡ other.old }
    ensures answer { result.0 ≡ result.1 }
    ensures state { one.new ≡ other.new }
{
    one.law();
    let first = one.sample(cell, axis);
    let second = other.sample(cell, axis);
    (first, second)
}

/// Half the cells of an axis decide it in one way.
pub fn from_half_twice(
    one: &mut AxisRoom,
    other: &mut AxisRoom,
    header: &Header,
    axis: Axis,
    index: u16,
    cells: Vec<Proved>,
    copy: Vec<Proved>,
) -> (Decided, Decided)
    requires one { one.old.k ≡ header.now.k }
    requires other { other.old.k ≡ header.now.k }
    requires half { AreHalf header.now axis index cells.items }
    requires copy { copy.items ≡ cells.items }
    ensures answer { AreOneDecision result.0 result.1 }
    ensures state { one.new ≡ other.new }
{
    let _k = header.k;
    message_laws();
    let first = from_half(one, header, axis, index, cells);
    let second = from_half(other, header, axis, index, copy);
    (first, second)
}
