//! Of payloads.

ghost use Rattle.std.specs.Prelude.{◌≡◌, ◌<◌, Result, IfOk};

use axis_roots::{FraudClaim, Message, NsAnswer};
use blob_commit::CommitProof;
use data_header::Header;
use frame_fields::message;
use frame_payloads::{
    ClaimRoom, PlaceList, UnitList, block, block_size, claim, clash_size, commit, commit_size,
    fraud, fraud_size, header, missing, missing_size, names, names_size, places, square,
    transactions, transactions_size,
};
use hash_clash::Clash;
use namespace_id::{Cells, Namespace, NoMemory};
use share_split::Unit;
use square_layout::{Block, Square};
use std::alloc::{AllocError, Global};

/// A payload is one sample, or none.
pub fn message_twice(payload: &[u8]) -> (Option<Message>, Option<Message>)
    ensures { result.0 ≡ result.1 }
{
    let first = message(payload);
    let second = message(payload);
    (first, second)
}

/// It is one header, or none.
pub fn header_twice(
    alloc: Global,
    payload: &[u8],
) -> (
    Result<Option<Header>, AllocError>,
    Result<Option<Header>, AllocError>,
)
    ensures { IfOk result.0 (λ one. IfOk result.1 (λ other. one ≡ other)) }
{
    let first = header(alloc, payload);
    let second = header(alloc, payload);
    (first, second)
}

/// It is one square, or none.
pub fn square_twice(
    alloc: Global,
    payload: &[u8],
) -> (
    Result<Option<Square>, AllocError>,
    Result<Option<Square>, AllocError>,
)
    ensures { IfOk result.0 (λ one. IfOk result.1 (λ other. one ≡ other)) }
{
    let first = square(alloc, payload);
    let second = square(alloc, payload);
    (first, second)
}

/// It is one block, or none.
pub fn block_twice(
    alloc: Global,
    payload: &[u8],
) -> (
    Result<Option<Block>, AllocError>,
    Result<Option<Block>, AllocError>,
)
    ensures { IfOk result.0 (λ one. IfOk result.1 (λ other. one ≡ other)) }
{
    let first = block(alloc, payload);
    let second = block(alloc, payload);
    (first, second)
}

/// It is one namespace with an answer, or none.
pub fn names_twice(
    alloc: Global,
    payload: &[u8],
) -> (
    Result<Option<(Namespace, NsAnswer)>, AllocError>,
    Result<Option<(Namespace, NsAnswer)>, AllocError>,
)
    ensures { IfOk result.0 (λ one. IfOk result.1 (λ other. one ≡ other)) }
{
    let first = names(alloc, payload);
    let second = names(alloc, payload);
    (first, second)
}

/// So are the places where the answer finds something.
pub fn places_twice(
    alloc: Global,
    payload: &[u8],
) -> (
    Result<Option<(Namespace, PlaceList)>, AllocError>,
    Result<Option<(Namespace, PlaceList)>, AllocError>,
)
    ensures { IfOk result.0 (λ one. IfOk result.1 (λ other. one ≡ other)) }
{
    let first = places(alloc, payload);
    let second = places(alloc, payload);
    (first, second)
}

/// It is one fraud claim, or none.
pub fn fraud_twice(
    alloc: Global,
    payload: &[u8],
) -> (
    Result<Option<FraudClaim>, AllocError>,
    Result<Option<FraudClaim>, AllocError>,
)
    ensures { IfOk result.0 (λ one. IfOk result.1 (λ other. one ≡ other)) }
{
    let first = fraud(alloc, payload);
    let second = fraud(alloc, payload);
    (first, second)
}

/// Rooms that read it hold one claim then, or what they held.
pub fn read_twice(one: &mut ClaimRoom, other: &mut ClaimRoom, payload: &[u8]) -> (bool, bool)
    requires same { other.old ≡ one.old }
    ensures answer { result.0 ≡ result.1 }
    ensures state { one.new ≡ other.new }
{
    let first = one.read(payload);
    let second = other.read(payload);
    (first, second)
}

/// It is one commitment proof, or none.
pub fn commit_twice(
    alloc: Global,
    payload: &[u8],
) -> (
    Result<Option<CommitProof>, AllocError>,
    Result<Option<CommitProof>, AllocError>,
)
    ensures { IfOk result.0 (λ one. IfOk result.1 (λ other. one ≡ other)) }
{
    let first = commit(alloc, payload);
    let second = commit(alloc, payload);
    (first, second)
}

/// It is one list of missing cells, or none.
pub fn missing_twice(
    alloc: Global,
    payload: &[u8],
) -> (
    Result<Option<Cells>, AllocError>,
    Result<Option<Cells>, AllocError>,
)
    ensures { IfOk result.0 (λ one. IfOk result.1 (λ other. one ≡ other)) }
{
    let first = missing(alloc, payload);
    let second = missing(alloc, payload);
    (first, second)
}

/// It is one list of transactions, or none.
pub fn transactions_twice(
    alloc: Global,
    payload: &[u8],
) -> (
    Result<Option<UnitList>, AllocError>,
    Result<Option<UnitList>, AllocError>,
)
    ensures { IfOk result.0 (λ one. IfOk result.1 (λ other. one ≡ other)) }
{
    let first = transactions(alloc, payload);
    let second = transactions(alloc, payload);
    (first, second)
}

/// Where the one who asks knows no allocator's refusal, it is one fraud claim too.
pub fn claim_twice(
    alloc: Global,
    payload: &[u8],
) -> (
    Result<Option<FraudClaim>, NoMemory>,
    Result<Option<FraudClaim>, NoMemory>,
)
    ensures { IfOk result.0 (λ one. IfOk result.1 (λ other. one ≡ other)) }
{
    let first = claim(alloc, payload);
    let second = claim(alloc, payload);
    (first, second)
}

/// A block has one length of its payload, or none.
pub fn block_size_twice(block: &Block) -> (Option<u32>, Option<u32>)
    ensures { result.0 ≡ result.1 }
{
    let first = block_size(block);
    let second = block_size(block);
    (first, second)
}

/// So has a namespace answer.
pub fn names_size_twice(name: &Namespace, answer: &NsAnswer) -> (Option<u32>, Option<u32>)
    ensures { result.0 ≡ result.1 }
{
    let first = names_size(name, answer);
    let second = names_size(name, answer);
    (first, second)
}

/// So has a fraud claim.
pub fn fraud_size_twice(claim: &FraudClaim) -> (Option<u32>, Option<u32>)
    ensures { result.0 ≡ result.1 }
{
    let first = fraud_size(claim);
    let second = fraud_size(claim);
    (first, second)
}

/// So has a commitment proof.
pub fn commit_size_twice(proof: &CommitProof) -> (Option<u32>, Option<u32>)
    ensures { result.0 ≡ result.1 }
{
    let first = commit_size(proof);
    let second = commit_size(proof);
    (first, second)
}

/// So have missing cells.
pub fn missing_size_twice(cells: &Cells) -> (Option<u32>, Option<u32>)
    ensures { result.0 ≡ result.1 }
{
    let first = missing_size(cells);
    let second = missing_size(cells);
    (first, second)
}

/// So has a collision.
pub fn clash_size_twice(clash: &Clash) -> (Option<u32>, Option<u32>)
    ensures { result.0 ≡ result.1 }
{
    let first = clash_size(clash);
    let second = clash_size(clash);
    (first, second)
}

/// So have transactions.
pub fn transactions_size_twice(units: &[Unit]) -> (Option<u32>, Option<u32>)
    ensures { result.0 ≡ result.1 }
{
    let first = transactions_size(units);
    let second = transactions_size(units);
    (first, second)
}
