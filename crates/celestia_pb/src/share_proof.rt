//! Root proofs along a row as messages ShareProof of one share.

ghost use Rattle.std.specs.Prelude.{◌≡◌, ◌↔◌, ℕ, ◌+◌, ◌≤◌, ◌++◌, true, false, None, length, vec_len, vec_capacity, Ok, Err, IfSome, IsErrOf};
ghost use Rattle.namespace_id.specs.Answers.{HasCapacity};
ghost use Rattle.blob_commit.specs.Proofs.{RootedParts};
ghost use Rattle.proto_fields.specs.Spelled.{bytes_field};
ghost use Rattle.celestia_pb.specs.Reading.{ReadsMessage};
ghost use Rattle.celestia_pb.specs.Aunts.{optional_at};
ghost use Rattle.celestia_pb.specs.ShareProofs.{has_share_proof, name_of, share_part, row_part, share_proof_text, is_own, names_at, front_of, front_left, facts_by, proof_of, proof_by, proved_version, share_proof_end, share_proof_left, share_proof_value};
ghost use Rattle.celestia_pb.specs.ShareProofLaws.{ShareProofIsRead, ReadIsShareProof, ShareProofIsCommon, SharePathIsCommon, RootedRowIsCommon, RowPathIsCommon};

use crate::befp_entries::{DATA, data_at};
use crate::entries::{number_size, part_size, put_entry, put_front};
use crate::errors::PbError;
use crate::messages::part_at;
use crate::rooted_row::{
    RootedRow, RowPath, ShareFacts, put_rooted_row, rooted_row_at, rooted_row_size, wanted_at,
};
use crate::share_path::{PROOF, SharePath, put_share_path, share_path_at, share_path_size};
use axis_roots::Message;
use blob_commit::{RootedMessage, rooted_law};
use namespace_id::{Axis, Cell, Namespace, PARITY, SHARE_SIZE, Share, is_in_square, is_width};
use proto_fields::{begins_part, put_canonical_number};

/// The fields of the id, of the row's proof, and of the version; the share and its proof are in fields 1 and 2.
const ID: u8 = 3;

const ROW: u8 = 4;

const VERSION: u8 = 5;

/// The bytes of the id of a namespace.
const ID_SIZE: usize = 28;

/// Whose id stands in a message: that of the share's own namespace, that of the namespace of parity shares, or both.
#[derive(Clone, Copy)]
pub(crate) struct Names {
    pub own: bool,
    pub parity: bool,
}

/// What stands in front of the row's proof.
#[derive(Drop)]
pub(crate) struct Front {
    pub share: Share,
    pub path: SharePath,
    pub names: Names,
}

/// Whether an id is that of the share's own namespace; where the share isn't known, whether it is one.
fn is_own(share: Option<Share>, id: &[u8]) -> bool
    ensures { result ≡ is_own share id.now }
{
    let Some(share) = share else {
        return id.len() == ID_SIZE;
    };
    let name = share.namespace();
    id == &name.0[1..]
}

/// Whose id is at the front, and the bytes after it; where it is another one, how many bytes are left.
fn names_at(share: Option<Share>, bytes: &[u8]) -> Result<(Option<Names>, &[u8]), usize>
    ensures { ReadsMessage (λ x. (x.0, x.1.now)) result (optional_at (names_at share) 3 bytes.now) }
{
    if !begins_part(ID, bytes) {
        return Ok((None, bytes));
    }
    let Some((part, rest)) = part_at(ID, bytes) else {
        return Err(bytes.len());
    };
    let own = is_own(share, part);
    let parity = part == &PARITY.0[1..];
    if !own && !parity {
        return Err(bytes.len());
    }
    Ok((Some(Names { own, parity }), rest))
}

/// What stands in front of the row's proof, where all of it is there.
fn front_of(share: Option<Share>, path: Option<SharePath>, names: Option<Names>) -> Option<Front>
    ensures { result ≡ front_of share path names }
{
    let (Some(share), Some(path), Some(names)) = (share, path, names) else {
        return None;
    };
    Some(Front { share, path, names })
}

/// What stands in front of the row's proof, and the bytes from that on; where a field is wrong, how many bytes are left from it
/// on.
fn front_at(bytes: &[u8]) -> Result<(Option<Front>, &[u8]), usize>
    ensures { ReadsMessage (λ x. (x.0, x.1.now)) result (front_left bytes.now) }
{
    let (share, behind) = data_at(bytes)?;
    let (path, after) = share_path_at(behind)?;
    let (names, rest) = names_at(share, after)?;
    Ok((front_of(share, path, names), rest))
}

/// What it tells of the row's proof.
fn facts_by(front: &Option<Front>) -> Option<ShareFacts>
    ensures { result ≡ facts_by front.now }
{
    match front {
        Some(front) => Some(ShareFacts {
            col: front.path.col,
            own: front.names.own,
            parity: front.names.parity,
        }),
        None => None,
    }
}

/// The root proof of these.
fn proof_of(front: Front, row: RootedRow) -> RootedMessage
    ensures { result ≡ proof_of front row }
{
    let Front { share, path, .. } = front;
    let SharePath { col, nodes } = path;
    let RootedRow { root, path } = row;
    let RowPath { k, row, up } = path;
    let message = Message {
        cell: Cell { row, col },
        axis: Axis::Row,
        share,
        path: nodes,
    };
    RootedMessage {
        k,
        message,
        root,
        up,
    }
}

/// Where both are there.
fn proof_by(front: Option<Front>, row: Option<RootedRow>) -> Option<RootedMessage>
    ensures { result ≡ proof_by front row }
{
    let (Some(front), Some(row)) = (front, row) else {
        return None;
    };
    Some(proof_of(front, row))
}

/// The namespace of the leaf that is proved: that of its share in the original square, and PARITY outside.
fn name_of(proof: &RootedMessage) -> Namespace
    ensures { result ≡ name_of proof.now }
{
    let cell = proof.message.cell;
    if cell.row < proof.k && cell.col < proof.k {
        proof.message.share.namespace()
    } else {
        PARITY
    }
}

/// The version of its leaf's namespace.
fn version_of(proof: &Option<RootedMessage>) -> Option<u64>
    ensures { result ≡ proved_version proof.now }
{
    match proof {
        Some(proof) => Some(u64::from(name_of(proof).0[0])),
        None => None,
    }
}

/// The root proof, where it is there with its version and nothing is left; else how many bytes are.
fn ended(
    proof: Option<RootedMessage>,
    wanted: Option<u64>,
    version: u64,
    rest: &[u8],
) -> Result<RootedMessage, usize>
    requires { wanted ≡ proved_version proof }
    ensures { ReadsMessage (λ proof. proof) result (share_proof_end proof version rest.now) }
{
    let (Some(proof), Some(wanted)) = (proof, wanted) else {
        return Err(rest.len());
    };
    if !rest.is_empty() || version != wanted {
        return Err(rest.len());
    }
    Ok(proof)
}

/// The root proof that a message is; where a field is wrong, how many bytes are left from it on.
fn share_proof_in(bytes: &[u8]) -> Result<RootedMessage, usize>
    ensures { ReadsMessage (λ proof. proof) result (share_proof_left bytes.now) }
{
    let (front, behind) = front_at(bytes)?;
    let (row, after) = rooted_row_at(ROW, facts_by(&front), behind)?;
    let proof = proof_by(front, row);
    let wanted = version_of(&proof);
    let (version, rest) = wanted_at(VERSION, wanted, after)?;
    ended(proof, wanted, version, rest)
}

/// The root proof along a row that a message ShareProof of one share is.
///
/// Refuses bytes that aren't the one spelling of such a root proof, with the offset of the first field that is wrong: one that
/// isn't in its one spelling; a share of another length than 512; a proof of the share that begins at a column of no square,
/// ends behind another one than the next, has more than `MOST_DEPTH` nodes or one of another length than 90, or has a leaf
/// hash; an id that is neither that of the share's own namespace nor that of `PARITY`; a root of another length than 90; a number
/// of roots that isn't 4k for a width k, or that of a square that hasn't the column, or in which the namespace of the leaves of
/// this column has another id; a row of `2 * k` or above, or one in which the leaf's namespace has another id; a leaf hash that
/// isn't that of the root; more than `MOST_HASHES` hashes, or one of another length than 32; a first or last row other than the
/// row; a root in the row's proof; another version than that of the leaf's namespace; and any other field. Then fields that aren't
/// there, with the offset of the end of their message. What depends on a field that isn't there isn't compared with it.
/// Whether the nodes and the hashes open the share and the root is for `rooted`. It takes no memory, and never answers `NoMemory`.
///
/// Celestia specifications, "Data Structures"; RFC 6962, 2.1; protobuf, "Encoding"; docs/RULES.md, "Celestia's messages".
pub fn read_share_proof(bytes: &[u8]) -> Result<RootedMessage, PbError>
    ensures proof { (proof : RootedParts) → (result ≡ Ok proof) ↔ (share_proof_value bytes.now ≡ Ok proof) }
    ensures at { (at : ℕ) → IsErrOf result (PbError.At at) ↔ (share_proof_value bytes.now ≡ Err at) }
{
    match share_proof_in(bytes) {
        Ok(proof) => Ok(proof),
        Err(left) => Err(PbError::at(bytes, left)),
    }
}

/// Whether a root proof has a message: it is along a row, and its cell is in a square of width `k`.
fn has_share_proof(proof: &RootedMessage) -> bool
    ensures { result ≡ has_share_proof proof.now }
{
    let message = &proof.message;
    let along = match message.axis {
        Axis::Row => true,
        Axis::Col => false,
    };
    along && is_width(proof.k) && is_in_square(proof.k, message.cell)
}

/// How many bytes the message of a root proof along a row takes.
#[tactic(auto, using(crate::proofs::RootedSizes::length_share_proof))]
fn text_size(proof: &RootedMessage) -> usize
    ensures { result ≡ length (share_proof_text proof.now) }
{
    rooted_law(proof);
    let message = &proof.message;
    let version = number_size(VERSION, u64::from(name_of(proof).0[0]));
    let row = part_size(ROW, rooted_row_size(proof));
    let path = part_size(
        PROOF,
        share_path_size(message.cell.col, message.path.nodes()),
    );
    part_size(DATA, SHARE_SIZE) + (path + (part_size(ID, ID_SIZE) + (row + version)))
}

/// How many bytes `put_share_proof` appends. None where the root proof has no message: it is along a column, its `k` is no
/// width, or its cell is outside the square.
///
/// Celestia specifications, "Data Structures"; protobuf, "Encoding".
pub fn share_proof_size(proof: &RootedMessage) -> Option<usize>
    ensures none { (result ≡ None) ↔ (has_share_proof proof.now ≡ false) }
    ensures size { IfSome result (λ size. size ≡ length (share_proof_text proof.now)) }
{
    if !has_share_proof(proof) {
        return None;
    }
    Some(text_size(proof))
}

/// Appends the field of the share's proof, for which there is capacity.
fn put_path(proof: &RootedMessage, out: &mut Vec<u8>)
    requires capacity { HasCapacity out.old (length (bytes_field 2 (share_part proof.now))) }
    ensures appended { out.new.items ≡ out.old.items ++ bytes_field 2 (share_part proof.now) }
    ensures len { vec_len out.new ≡ vec_len out.old + length (bytes_field 2 (share_part proof.now)) }
    ensures capacity { vec_capacity out.old ≤ vec_capacity out.new }
{
    let col = proof.message.cell.col;
    let nodes = proof.message.path.nodes();
    put_front(PROOF, share_path_size(col, nodes), out);
    put_share_path(col, nodes, out);
}

/// Appends the field of the row's proof, for which there is capacity.
fn put_row(proof: &RootedMessage, out: &mut Vec<u8>)
    requires capacity { HasCapacity out.old (length (bytes_field 4 (row_part proof.now))) }
    ensures appended { out.new.items ≡ out.old.items ++ bytes_field 4 (row_part proof.now) }
    ensures len { vec_len out.new ≡ vec_len out.old + length (bytes_field 4 (row_part proof.now)) }
    ensures capacity { vec_capacity out.old ≤ vec_capacity out.new }
{
    put_front(ROW, rooted_row_size(proof), out);
    put_rooted_row(proof, out);
}

/// Appends the message of a root proof that has one, for which there is capacity (`share_proof_size`).
///
/// Celestia specifications, "Data Structures"; protobuf, "Encoding".
pub fn put_share_proof(proof: &RootedMessage, out: &mut Vec<u8>)
    requires has { has_share_proof proof.now ≡ true }
    requires capacity { HasCapacity out.old (length (share_proof_text proof.now)) }
    ensures appended { out.new.items ≡ out.old.items ++ share_proof_text proof.now }
    ensures len { vec_len out.new ≡ vec_len out.old + length (share_proof_text proof.now) }
    ensures capacity { vec_capacity out.old ≤ vec_capacity out.new }
{
    let name = name_of(proof);
    put_entry(DATA, &proof.message.share.0, out);
    put_path(proof, out);
    put_entry(ID, &name.0[1..], out);
    put_row(proof, out);
    put_canonical_number(VERSION, u64::from(name.0[0]), out);
}

/// The laws of the messages of root proofs along a row. It changes nothing.
pub fn share_proof_laws()
    ensures read { ShareProofIsRead }
    ensures spelled { ReadIsShareProof }
    ensures common { ShareProofIsCommon }
    ensures path_common { SharePathIsCommon }
    ensures row_common { RootedRowIsCommon }
    ensures root_common { RowPathIsCommon }
{}
