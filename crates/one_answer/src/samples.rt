//! Of samples.

ghost use Rattle.std.specs.Prelude.{◌≡◌, ◌<◌, ◌*◌, Result, IsTrue, IsOk, IfOk, IfErr, IfSome};
ghost use Rattle.namespace_id.specs.Cells.{is_in_square};
ghost use Rattle.axis_roots.specs.Proved.{kept_message};
ghost use Rattle.axis_roots.specs.Messages.{shown_leaf};

use axis_roots::{
    CheckRefusal, Grid, Message, PartialTrees, Proved, RefusedMessage, check, message_of, opens,
    opens_by, opens_hashed_by,
};
use data_header::Header;
use namespace_id::{Axis, Cell, Digest};
use nmt_tree::Tree;
use square_serve::{Held, OutOfSquare};

/// A sample has one judgement.
pub fn opens_twice(
    header: &Header,
    message: &Message,
) -> (Result<(), CheckRefusal>, Result<(), CheckRefusal>)
    ensures { result.0 ≡ result.1 }
{
    let first = opens(header, message);
    let second = opens(header, message);
    (first, second)
}

/// So has one by partial trees, whatever these keep.
pub fn partial_opens_twice(
    one: &mut PartialTrees,
    other: &mut PartialTrees,
    message: &Message,
) -> (Result<(), CheckRefusal>, Result<(), CheckRefusal>)
    requires same { one.old ≡ other.old }
    ensures answer { result.0 ≡ result.1 }
    ensures state { one.new ≡ other.new }
{
    let first = one.opens(message);
    let second = other.opens(message);
    (first, second)
}

/// So has one by trees that may be there, whether they are.
pub fn opens_by_twice(
    header: &Header,
    one: &mut Option<PartialTrees>,
    other: &mut Option<PartialTrees>,
    message: &Message,
) -> (Result<(), CheckRefusal>, Result<(), CheckRefusal>)
    requires one { IfSome one.old (λ kept. kept ≡ header.now) }
    requires other { IfSome other.old (λ kept. kept ≡ header.now) }
    ensures { result.0 ≡ result.1 }
{
    let first = opens_by(header, one, message);
    let second = opens_by(header, other, message);
    (first, second)
}

/// So has one whose leaf is hashed already.
pub fn opens_hashed_twice(
    one: &mut PartialTrees,
    other: &mut PartialTrees,
    message: &Message,
    leaf: &Digest,
) -> (Result<(), CheckRefusal>, Result<(), CheckRefusal>)
    requires leaf { leaf.now ≡ shown_leaf one.old.k message.now.cell message.now.share }
    requires same { one.old ≡ other.old }
    ensures answer { result.0 ≡ result.1 }
    ensures state { one.new ≡ other.new }
{
    let first = one.opens_hashed(message, leaf);
    let second = other.opens_hashed(message, leaf);
    (first, second)
}

/// So has one by trees that may be there, whether its leaf is hashed already.
pub fn opens_hashed_by_twice(
    header: &Header,
    one: &mut Option<PartialTrees>,
    other: &mut Option<PartialTrees>,
    message: &Message,
    leaf: Option<Digest>,
) -> (Result<(), CheckRefusal>, Result<(), CheckRefusal>)
    requires one { IfSome one.old (λ kept. kept ≡ header.now) }
    requires other { IfSome other.old (λ kept. kept ≡ header.now) }
    requires leaf { IfSome leaf (λ hashed. hashed ≡
        shown_leaf header.now.k message.now.cell message.now.share) }
    ensures { result.0 ≡ result.1 }
{
    let first = opens_hashed_by(header, one, message, leaf);
    let second = opens_hashed_by(header, other, message, None);
    (first, second)
}

/// A sample has one judgement and one certificate.
pub fn check_twice(
    header: &Header,
    message: Message,
    copy: Message,
) -> (
    Result<Proved, RefusedMessage>,
    Result<Proved, RefusedMessage>,
)
    requires copy { copy ≡ message }
    ensures accepts { IsOk result.0 → IsOk result.1 }
    ensures kept { IfOk result.0 (λ one. IfOk result.1 (λ other. kept_message one ≡ kept_message other)) }
    ensures refused { IfErr result.0 (λ one. IfErr result.1 (λ other. one ≡ other)) }
{
    let first = check(header, message);
    let second = check(header, copy);
    (first, second)
}

/// The same by partial trees.
pub fn partial_check_twice(
    one: &mut PartialTrees,
    other: &mut PartialTrees,
    message: Message,
    copy: Message,
) -> (
    Result<Proved, RefusedMessage>,
    Result<Proved, RefusedMessage>,
)
    requires same { one.old ≡ other.old }
    requires copy { copy ≡ message }
    ensures accepts { IsOk result.0 → IsOk result.1 }
    ensures kept { IfOk result.0 (λ one. IfOk result.1 (λ other. kept_message one ≡ kept_message other)) }
    ensures refused { IfErr result.0 (λ one. IfErr result.1 (λ other. one ≡ other)) }
    ensures state { one.new ≡ other.new }
{
    let first = one.check(message);
    let second = other.check(copy);
    (first, second)
}

/// A cell of a grid has one sample along an axis, or none.
pub fn message_of_twice(
    grid: &Grid,
    cell: Cell,
    axis: Axis,
    one: &mut Tree,
    other: &mut Tree,
) -> (Option<Message>, Option<Message>)
    requires cell { IsTrue (is_in_square grid.now.k cell) }
    requires one { one.old.count ≡ 2 * grid.now.k }
    requires same { other.old ≡ one.old }
    ensures answer { result.0 ≡ result.1 }
    ensures state { one.new ≡ other.new }
{
    let first = message_of(grid, cell, axis, one);
    let second = message_of(grid, cell, axis, other);
    (first, second)
}

/// A cell of a square that is held has one sample along an axis.
pub fn sample_twice(
    one: &mut Held,
    other: &mut Held,
    cell: Cell,
    axis: Axis,
) -> (Result<Message, OutOfSquare>, Result<Message, OutOfSquare>)
    requires same { one.old ≡ other.old }
    ensures answer { result.0 ≡ result.1 }
    ensures state { one.new ≡ other.new }
{
    let first = one.sample(cell, axis);
    let second = other.sample(cell, axis);
    (first, second)
}
