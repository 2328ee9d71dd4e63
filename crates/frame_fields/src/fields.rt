//! Fields of a payload, read from the front of its bytes.

ghost use Rattle.std.specs.Prelude.{◌≡◌, ◌<◌, ◌≤◌, ◌+◌, ◌*◌, ◌++◌, ◌∷◌, [], length, vec_len, vec_capacity, IfOk, IfSome};
ghost use Rattle.std.specs.Int.{w16, w32};
ghost use Rattle.namespace_id.specs.Answers.{Gives};
ghost use Rattle.namespace_id.specs.Sizes.{most_depth, most_nodes};
ghost use Rattle.data_header.specs.Paths.{most_hashes};
ghost use Rattle.frame_fields.specs.Fields.{hashes_at, split_into, digests_of, shares_of, shares_at, text_at, count_at, big_endian_at, byte_at, string_at, axis_at, path_at, cell_at, digest_list_at};

use data_header::{MOST_HASHES, RootPath};
use namespace_id::{
    Axis, Cell, DIGEST_SIZE, Digest, MOST_DEPTH, NAMESPACE_SIZE, Namespace, SHARE_SIZE, Share,
};
use nmt_proofs::{Nodes, Path};
use std::alloc::{AllocError, Global};

/// The most nodes of a path, one for each level of a tree.
const PATH_LIMIT: u8 = MOST_DEPTH as u8;

/// The most nodes of a range proof or an absence proof, two for each level of a tree.
const NODES_LIMIT: u8 = 2 * PATH_LIMIT;

/// The most hashes that lead from an axis root to a data root.
const HASHES_LIMIT: u8 = MOST_HASHES as u8;

/// The bytes of a hash.
const HASH_SIZE: usize = 32;

/// A number of two bytes, the higher first, and the bytes after it.
pub fn u16_at(bytes: &[u8]) -> Option<(u16, &[u8])>
    ensures { Gives (λ x. (x.0, x.1.now)) result (big_endian_at w16 bytes.now) }
{
    let (front, rest) = bytes.split_at_checked(2)?;
    Some((u16::from_be_bytes([front[0], front[1]]), rest))
}

/// A number of four bytes, the highest first, and the bytes after it.
pub fn u32_at(bytes: &[u8]) -> Option<(u32, &[u8])>
    ensures { Gives (λ x. (x.0, x.1.now)) result (big_endian_at w32 bytes.now) }
{
    let (front, rest) = bytes.split_at_checked(4)?;
    let number = u32::from_be_bytes([front[0], front[1], front[2], front[3]]);
    Some((number, rest))
}

/// A byte, and the bytes after it.
pub fn u8_at(bytes: &[u8]) -> Option<(u8, &[u8])>
    ensures { Gives (λ x. (x.0, x.1.now)) result (byte_at bytes.now) }
{
    match bytes {
        [] => None,
        [byte, rest @ ..] => Some((*byte, rest)),
    }
}

/// The share that 512 bytes are.
fn share_of(bytes: &[u8]) -> Share
    requires { length bytes.now ≡ 512 }
    ensures { result.0 ≡ bytes.now }
{
    let mut share = Share([0; SHARE_SIZE]);
    share.0.copy_from_slice(bytes);
    share
}

/// The namespace that 29 bytes are.
pub fn name_of(bytes: &[u8]) -> Namespace
    requires { length bytes.now ≡ 29 }
    ensures { result.0 ≡ bytes.now }
{
    let mut name = Namespace([0; NAMESPACE_SIZE]);
    name.0.copy_from_slice(bytes);
    name
}

/// The digest that 90 bytes are.
fn digest_of(bytes: &[u8]) -> Digest
    requires { length bytes.now ≡ 90 }
    ensures { result.0 ≡ bytes.now }
{
    let mut digest = Digest([0; DIGEST_SIZE]);
    digest.0.copy_from_slice(bytes);
    digest
}

/// The hash that 32 bytes are.
fn hash_of(bytes: &[u8]) -> [u8; 32]
    requires { length bytes.now ≡ 32 }
    ensures { result ≡ bytes.now }
{
    let mut hash = [0; HASH_SIZE];
    hash.copy_from_slice(bytes);
    hash
}

/// A share, and the bytes after it.
pub fn share_at(bytes: &[u8]) -> Option<(Share, &[u8])>
    ensures { Gives (λ x. (x.0.0, x.1.now)) result (string_at 512 bytes.now) }
{
    let (front, rest) = bytes.split_at_checked(SHARE_SIZE)?;
    Some((share_of(front), rest))
}

/// A namespace, and the bytes after it.
pub fn name_at(bytes: &[u8]) -> Option<(Namespace, &[u8])>
    ensures { Gives (λ x. (x.0.0, x.1.now)) result (string_at 29 bytes.now) }
{
    let (front, rest) = bytes.split_at_checked(NAMESPACE_SIZE)?;
    Some((name_of(front), rest))
}

/// A digest, and the bytes after it.
pub fn digest_at(bytes: &[u8]) -> Option<(Digest, &[u8])>
    ensures { Gives (λ x. (x.0.0, x.1.now)) result (string_at 90 bytes.now) }
{
    let (front, rest) = bytes.split_at_checked(DIGEST_SIZE)?;
    Some((digest_of(front), rest))
}

/// A hash, and the bytes after it.
pub fn hash_at(bytes: &[u8]) -> Option<([u8; 32], &[u8])>
    ensures { Gives (λ x. (x.0, x.1.now)) result (string_at 32 bytes.now) }
{
    let (front, rest) = bytes.split_at_checked(HASH_SIZE)?;
    Some((hash_of(front), rest))
}

/// A count of two bytes, at most the limit, and the bytes after it.
#[tactic(auto, unfolding(crate::specs::Fields::count_at))]
pub fn count16_at(bytes: &[u8], limit: u16) -> Option<(u16, &[u8])>
    ensures value { Gives (λ x. (x.0, x.1.now)) result (count_at w16 limit bytes.now) }
    ensures few { IfSome result (λ x. x.0 ≤ limit) }
{
    let (count, rest) = u16_at(bytes)?;
    if count > limit {
        return None;
    }
    Some((count, rest))
}

/// A count of two bytes, at most the limit, the bytes of so many digests, and the bytes after them.
#[tactic(auto, unfolding(crate::specs::Fields::digest_list_at))]
pub fn digest_list_at(bytes: &[u8], limit: u16) -> Option<(u16, &[u8], &[u8])>
    ensures value { Gives (λ x. (digests_of x.0 x.1.now, x.2.now))
        result (digest_list_at limit bytes.now) }
    ensures few { IfSome result (λ x. x.0 ≤ limit) }
    ensures all { IfSome result (λ x. length x.1.now ≡ 90 * x.0) }
{
    let (count, rest) = count16_at(bytes, limit)?;
    let (digests, rest) = rest.split_at_checked(DIGEST_SIZE * count as usize)?;
    Some((count, digests, rest))
}

/// A count or a length of four bytes, at most the limit, and the bytes after it.
#[tactic(auto, unfolding(crate::specs::Fields::count_at))]
pub fn count_at(bytes: &[u8], limit: u32) -> Option<(u32, &[u8])>
    ensures { Gives (λ x. (x.0, x.1.now)) result (count_at w32 limit bytes.now) }
{
    let (count, rest) = u32_at(bytes)?;
    if count > limit {
        return None;
    }
    Some((count, rest))
}

/// A byte string behind its length of four bytes, at most the limit, and the bytes after it.
#[tactic(auto, unfolding(crate::specs::Fields::text_at))]
pub fn text_at(bytes: &[u8], limit: u32) -> Option<(&[u8], &[u8])>
    ensures { Gives (λ x. (x.0.now, x.1.now)) result (text_at w32 limit bytes.now) }
{
    let (size, rest) = count_at(bytes, limit)?;
    rest.split_at_checked(size as usize)
}

/// A byte string behind its length of two bytes, at most the limit, and the bytes after it.
#[tactic(auto, unfolding(crate::specs::Fields::text_at))]
pub fn text16_at(bytes: &[u8], limit: u16) -> Option<(&[u8], &[u8])>
    ensures value { Gives (λ x. (x.0.now, x.1.now)) result (text_at w16 limit bytes.now) }
    ensures few { IfSome result (λ x. length x.0.now ≤ limit) }
{
    let (size, rest) = count16_at(bytes, limit)?;
    rest.split_at_checked(size as usize)
}

/// The axis that a byte is, 0 for a row and 1 for a column, and the bytes after it.
#[tactic(auto, unfolding(crate::specs::Fields::axis_at))]
pub fn axis_at(bytes: &[u8]) -> Option<(Axis, &[u8])>
    ensures { Gives (λ x. (x.0, x.1.now)) result (axis_at bytes.now) }
{
    let (byte, rest) = u8_at(bytes)?;
    match byte {
        0 => Some((Axis::Row, rest)),
        1 => Some((Axis::Col, rest)),
        _ => None,
    }
}

/// A cell, its row first, and the bytes after it.
#[tactic(auto, unfolding(crate::specs::Fields::cell_at))]
pub fn cell_at(bytes: &[u8]) -> Option<(Cell, &[u8])>
    ensures { Gives (λ x. (x.0, x.1.now)) result (cell_at bytes.now) }
{
    let (row, rest) = u16_at(bytes)?;
    let (col, rest) = u16_at(rest)?;
    Some((Cell { row, col }, rest))
}

/// The bytes of so many shares, and the bytes after them.
pub fn shares_at(count: u16, bytes: &[u8]) -> Option<(&[u8], &[u8])>
    ensures value { Gives (λ x. (shares_of count x.0.now, x.1.now))
        result (shares_at count bytes.now) }
    ensures all { IfSome result (λ x. length x.0.now ≡ 512 * count) }
{
    bytes.split_at_checked(SHARE_SIZE * count as usize)
}

/// So many shares, one after another, which are all of the bytes.
pub fn shares_of(alloc: Global, count: usize, bytes: &[u8]) -> Result<Vec<Share>, AllocError>
    requires { length bytes.now ≡ 512 * count }
    ensures value { IfOk result (λ shares. shares.items ≡ shares_of count bytes.now) }
    ensures len { IfOk result (λ shares. vec_len shares ≡ count) }
{
    let mut shares = Vec::with_capacity(alloc, count)?;
    let mut rest = bytes;
    for _ in 0..count {
        let (front, after) = rest.split_at(SHARE_SIZE);
        shares.push(share_of(front))?;
        rest = after;
    }
    Ok(shares)
}

/// Adds a value, for which there is capacity.
pub fn add<T: Drop>(list: &mut Vec<T>, value: T)
    requires capacity { vec_len list.old < vec_capacity list.old }
    ensures items { list.new.items ≡ list.old.items ++ value ∷ [] }
    ensures len { vec_len list.new ≡ vec_len list.old + 1 }
    ensures capacity { vec_capacity list.old ≤ vec_capacity list.new }
{
    list.push(value).unwrap();
}

/// Adds so many digests, one after another, which are all of the bytes and for which there is capacity.
#[tactic(auto, using(crate::proofs::SplitLoops::values_end))]
pub fn fill_digests(list: &mut Vec<Digest>, count: usize, bytes: &[u8])
    requires all { length bytes.now ≡ 90 * count }
    requires capacity { vec_len list.old + count ≤ vec_capacity list.old }
    ensures items { list.new.items ≡ list.old.items ++ digests_of count bytes.now }
    ensures len { vec_len list.new ≡ vec_len list.old + count }
    ensures capacity { vec_capacity list.old ≤ vec_capacity list.new }
{
    let mut rest = bytes;
    for _ in 0..count {
        let (front, after) = rest.split_at(DIGEST_SIZE);
        add(list, digest_of(front));
        rest = after;
    }
}

/// So many digests, one after another, which are all of the bytes.
pub fn digests_of(alloc: Global, count: usize, bytes: &[u8]) -> Result<Vec<Digest>, AllocError>
    requires { length bytes.now ≡ 90 * count }
    ensures value { IfOk result (λ digests. digests.items ≡ digests_of count bytes.now) }
    ensures len { IfOk result (λ digests. vec_len digests ≡ count) }
{
    let mut digests = Vec::with_capacity(alloc, count)?;
    fill_digests(&mut digests, count, bytes);
    Ok(digests)
}

/// So many digests, one after another, which are all of the bytes, in a path.
#[tactic(auto, using(crate::proofs::SplitLoops::values_end))]
fn path_of(count: u8, bytes: &[u8]) -> Path
    requires few { count ≤ most_depth }
    requires all { length bytes.now ≡ 90 * count }
    ensures { result ≡ digests_of count bytes.now }
{
    let mut path = Path::new();
    let mut rest = bytes;
    for _ in 0..count {
        let (front, after) = rest.split_at(DIGEST_SIZE);
        path.push(digest_of(front));
        rest = after;
    }
    path
}

/// So many digests, one after another, which are all of the bytes, as nodes.
#[tactic(auto, using(crate::proofs::SplitLoops::values_end))]
pub fn nodes_of(count: u8, bytes: &[u8]) -> Nodes
    requires few { count ≤ most_nodes }
    requires all { length bytes.now ≡ 90 * count }
    ensures { result ≡ digests_of count bytes.now }
{
    let mut nodes = Nodes::new();
    let mut rest = bytes;
    for _ in 0..count {
        let (front, after) = rest.split_at(DIGEST_SIZE);
        nodes.push(digest_of(front));
        rest = after;
    }
    nodes
}

/// A count of at most the limit, the bytes of so many digests, and the bytes after them.
#[tactic(auto, unfolding(crate::specs::Fields::path_at))]
fn digests_at(bytes: &[u8], limit: u8) -> Option<(u8, &[u8], &[u8])>
    ensures value { Gives (λ x. (digests_of x.0 x.1.now, x.2.now))
        result (path_at limit bytes.now) }
    ensures few { IfSome result (λ x. x.0 ≤ limit) }
    ensures all { IfSome result (λ x. length x.1.now ≡ 90 * x.0) }
{
    let (count, rest) = u8_at(bytes)?;
    if count > limit {
        return None;
    }
    let (digests, rest) = rest.split_at_checked(DIGEST_SIZE * count as usize)?;
    Some((count, digests, rest))
}

/// A count of nodes that a path can have, so many digests, and the bytes after them.
pub fn path_at(bytes: &[u8]) -> Option<(Path, &[u8])>
    ensures { Gives (λ x. (x.0, x.1.now)) result (path_at most_depth bytes.now) }
{
    let (count, digests, rest) = digests_at(bytes, PATH_LIMIT)?;
    Some((path_of(count, digests), rest))
}

/// A count of nodes that a range proof can have, the bytes of so many digests, and the bytes after them.
pub fn node_list_at(bytes: &[u8]) -> Option<(u8, &[u8], &[u8])>
    ensures value { Gives (λ x. (digests_of x.0 x.1.now, x.2.now))
        result (path_at most_nodes bytes.now) }
    ensures few { IfSome result (λ x. x.0 ≤ most_nodes) }
    ensures all { IfSome result (λ x. length x.1.now ≡ 90 * x.0) }
{
    digests_at(bytes, NODES_LIMIT)
}

/// A count of nodes that a range proof can have, so many digests, and the bytes after them.
pub fn nodes_at(bytes: &[u8]) -> Option<(Nodes, &[u8])>
    ensures { Gives (λ x. (x.0, x.1.now)) result (path_at most_nodes bytes.now) }
{
    let (count, digests, rest) = node_list_at(bytes)?;
    Some((nodes_of(count, digests), rest))
}

/// So many hashes, one after another, which are all of the bytes, in a root path.
#[tactic(auto, using(crate::proofs::SplitLoops::values_end))]
fn hashes_of(count: u8, bytes: &[u8]) -> RootPath
    requires few { count ≤ most_hashes }
    requires all { length bytes.now ≡ 32 * count }
    ensures { result ≡ split_into (λ hash. hash) 32 count bytes.now }
{
    let mut hashes = RootPath::new();
    let mut rest = bytes;
    for _ in 0..count {
        let (front, after) = rest.split_at(HASH_SIZE);
        hashes.push(hash_of(front));
        rest = after;
    }
    hashes
}

/// A count of hashes that a root path can have, the bytes of so many hashes, and the bytes after them.
#[tactic(auto, unfolding(crate::specs::Fields::hashes_at))]
fn hash_list_at(bytes: &[u8]) -> Option<(u8, &[u8], &[u8])>
    ensures value { Gives (λ x. (split_into (λ hash. hash) 32 x.0 x.1.now, x.2.now))
        result (hashes_at bytes.now) }
    ensures few { IfSome result (λ x. x.0 ≤ most_hashes) }
    ensures all { IfSome result (λ x. length x.1.now ≡ 32 * x.0) }
{
    let (count, rest) = u8_at(bytes)?;
    if count > HASHES_LIMIT {
        return None;
    }
    let (hashes, rest) = rest.split_at_checked(HASH_SIZE * count as usize)?;
    Some((count, hashes, rest))
}

/// A count of hashes that a root path can have, so many hashes, and the bytes after them.
pub fn hashes_at(bytes: &[u8]) -> Option<(RootPath, &[u8])>
    ensures { Gives (λ x. (x.0, x.1.now)) result (hashes_at bytes.now) }
{
    let (count, hashes, rest) = hash_list_at(bytes)?;
    Some((hashes_of(count, hashes), rest))
}
