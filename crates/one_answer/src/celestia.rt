//! Of Celestia's messages.

ghost use Rattle.std.specs.Prelude.{◌≡◌, ◌<◌, Result, List, ℕ, length, IfSome, IsSome};
ghost use Rattle.celestia_pb.specs.declared.errors.PbError.TheVariants.{NoMemory as Full};
ghost use Rattle.one_answer.specs.Ones.{AreOne};

use axis_roots::{FraudClaim, NsAnswer, NsEntry};
use blob_commit::RootedMessage;
use celestia_pb::{
    Extended, HalfRow, PbError, Sample, befp_size, namespace_data_size, read_befp, read_dah,
    read_extended, read_half_row, read_namespace_data, read_namespace_id, read_ods, read_row_data,
    read_sample, read_sample_id, read_share_proof, row_data_size, share_proof_size,
};
use data_header::Header;
use namespace_id::{Cell, Namespace};
use square_layout::Square;
use std::alloc::Global;

/// Bytes are one header, or refused at one offset.
pub fn read_dah_twice(
    alloc: Global,
    bytes: &[u8],
) -> (Result<Header, PbError>, Result<Header, PbError>)
    ensures { AreOne (λ x. x) Full result.0 result.1 }
{
    let first = read_dah(alloc, bytes);
    let second = read_dah(alloc, bytes);
    (first, second)
}

/// So are those of an extended header.
pub fn read_extended_twice(
    alloc: Global,
    bytes: &[u8],
) -> (Result<Extended, PbError>, Result<Extended, PbError>)
    ensures { AreOne (λ x. x) Full result.0 result.1 }
{
    let first = read_extended(alloc, bytes);
    let second = read_extended(alloc, bytes);
    (first, second)
}

/// So are those of an original square.
pub fn read_ods_twice(
    alloc: Global,
    bytes: &[u8],
) -> (Result<Square, PbError>, Result<Square, PbError>)
    ensures { AreOne (λ x. x) Full result.0 result.1 }
{
    let first = read_ods(alloc, bytes);
    let second = read_ods(alloc, bytes);
    (first, second)
}

/// So are those of half a row.
pub fn read_half_row_twice(
    alloc: Global,
    bytes: &[u8],
) -> (Result<HalfRow, PbError>, Result<HalfRow, PbError>)
    ensures { AreOne (λ x. x) Full result.0 result.1 }
{
    let first = read_half_row(alloc, bytes);
    let second = read_half_row(alloc, bytes);
    (first, second)
}

/// So are those of what is found in a row.
pub fn read_row_data_twice(
    alloc: Global,
    row: u16,
    bytes: &[u8],
) -> (Result<NsEntry, PbError>, Result<NsEntry, PbError>)
    ensures { AreOne (λ x. x) Full result.0 result.1 }
{
    let first = read_row_data(alloc, row, bytes);
    let second = read_row_data(alloc, row, bytes);
    (first, second)
}

/// So are those of what is found in rows.
pub fn read_namespace_data_twice(
    alloc: Global,
    rows: &[u16],
    bytes: &[u8],
) -> (Result<NsAnswer, PbError>, Result<NsAnswer, PbError>)
    ensures { AreOne (λ x. x) Full result.0 result.1 }
{
    let first = read_namespace_data(alloc, rows, bytes);
    let second = read_namespace_data(alloc, rows, bytes);
    (first, second)
}

/// So are those of a fraud claim.
pub fn read_befp_twice(
    alloc: Global,
    hash: &[u8; 32],
    height: u64,
    bytes: &[u8],
) -> (Result<FraudClaim, PbError>, Result<FraudClaim, PbError>)
    ensures { AreOne (λ x. x) Full result.0 result.1 }
{
    let first = read_befp(alloc, hash, height, bytes);
    let second = read_befp(alloc, hash, height, bytes);
    (first, second)
}

/// Bytes are one sample of a cell, or refused at one offset.
pub fn read_sample_twice(
    cell: Cell,
    bytes: &[u8],
) -> (Result<Sample, PbError>, Result<Sample, PbError>)
    ensures { result.0 ≡ result.1 }
{
    let first = read_sample(cell, bytes);
    let second = read_sample(cell, bytes);
    (first, second)
}

/// So are those of a proof of a share.
pub fn read_share_proof_twice(
    bytes: &[u8],
) -> (
    Result<RootedMessage, PbError>,
    Result<RootedMessage, PbError>,
)
    ensures { result.0 ≡ result.1 }
{
    let first = read_share_proof(bytes);
    let second = read_share_proof(bytes);
    (first, second)
}

/// So are those of the identifier of a sample.
pub fn read_sample_id_twice(
    height: u64,
    bytes: &[u8],
) -> (Result<Cell, PbError>, Result<Cell, PbError>)
    ensures { result.0 ≡ result.1 }
{
    let first = read_sample_id(height, bytes);
    let second = read_sample_id(height, bytes);
    (first, second)
}

/// So are those of the identifier of a namespace.
pub fn read_namespace_id_twice(
    height: u64,
    bytes: &[u8],
) -> (Result<Namespace, PbError>, Result<Namespace, PbError>)
    ensures { result.0 ≡ result.1 }
{
    let first = read_namespace_id(height, bytes);
    let second = read_namespace_id(height, bytes);
    (first, second)
}

/// What is found in a row has one size, or no message.
pub fn row_data_size_twice(entry: &NsEntry) -> (Option<usize>, Option<usize>)
    ensures { result.0 ≡ result.1 }
{
    let first = row_data_size(entry);
    let second = row_data_size(entry);
    (first, second)
}

/// So has what is found in rows.
pub fn namespace_data_size_twice(answer: &NsAnswer) -> (Option<usize>, Option<usize>)
    ensures { result.0 ≡ result.1 }
{
    let first = namespace_data_size(answer);
    let second = namespace_data_size(answer);
    (first, second)
}

/// So has a proof of a share.
pub fn share_proof_size_twice(proof: &RootedMessage) -> (Option<usize>, Option<usize>)
    ensures { result.0 ≡ result.1 }
{
    let first = share_proof_size(proof);
    let second = share_proof_size(proof);
    (first, second)
}

/// So has a fraud claim.
pub fn befp_size_twice(k: u16, height: u64, claim: &FraudClaim) -> (Option<usize>, Option<usize>)
    ensures { result.0 ≡ result.1 }
{
    let first = befp_size(k, height, claim);
    let second = befp_size(k, height, claim);
    (first, second)
}
