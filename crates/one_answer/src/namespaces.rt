//! Of namespaces and their shares.

ghost use Rattle.std.specs.Prelude.{◌≡◌, ◌<◌, Result, false};
ghost use Rattle.namespace_id.specs.Names.{is_parity};
ghost use Rattle.square_serve.specs.declared.held.ServeError.TheVariants.{NoMemory as Full};
ghost use Rattle.one_answer.specs.Ones.{AreOne};

use axis_roots::NsAnswer;
use data_header::Header;
use namespace_id::{Namespace, NsError};
use square_serve::{Held, HeldRows, NsRefusal, RowFound, ServeError, check_namespace};
use std::alloc::Global;

/// Bytes are one namespace of a blob, or refused for one reason.
pub fn blob_twice(bytes: &[u8]) -> (Result<Namespace, NsError>, Result<Namespace, NsError>)
    ensures { result.0 ≡ result.1 }
{
    let first = Namespace::blob(bytes);
    let second = Namespace::blob(bytes);
    (first, second)
}

/// A square that is held has one answer for a namespace.
pub fn namespace_twice(
    alloc: Global,
    one: &mut Held,
    other: &mut Held,
    namespace: &Namespace,
) -> (Result<NsAnswer, ServeError>, Result<NsAnswer, ServeError>)
    requires same { one.old ≡ other.old }
    ensures answer { AreOne (λ x. x) Full result.0 result.1 }
    ensures state { one.new ≡ other.new }
{
    let first = one.namespace(alloc, namespace);
    let second = other.namespace(alloc, namespace);
    (first, second)
}

/// In each of its rows it has one place of a namespace.
pub fn find_twice(
    one: &mut Held,
    other: &mut Held,
    row: u16,
    namespace: &Namespace,
) -> (RowFound, RowFound)
    requires row { row < one.old.k }
    requires other { is_parity namespace.now ≡ false }
    requires same { one.old ≡ other.old }
    ensures answer { result.0 ≡ result.1 }
    ensures state { one.new ≡ other.new }
{
    one.held_law();
    let first = one.find(row, namespace);
    let second = other.find(row, namespace);
    (first, second)
}

/// So has one that is held without its extension.
pub fn rows_namespace_twice(
    alloc: Global,
    one: &mut HeldRows,
    other: &mut HeldRows,
    namespace: &Namespace,
) -> (Result<NsAnswer, ServeError>, Result<NsAnswer, ServeError>)
    requires same { one.old ≡ other.old }
    ensures answer { AreOne (λ x. x) Full result.0 result.1 }
    ensures state { one.new ≡ other.new }
{
    one.held_law();
    let first = one.namespace(alloc, namespace);
    let second = other.namespace(alloc, namespace);
    (first, second)
}

/// An answer has one judgement.
pub fn check_namespace_twice(
    header: &Header,
    namespace: &Namespace,
    answer: &NsAnswer,
) -> (Result<(), NsRefusal>, Result<(), NsRefusal>)
    ensures { result.0 ≡ result.1 }
{
    let first = check_namespace(header, namespace, answer);
    let second = check_namespace(header, namespace, answer);
    (first, second)
}
