//! The lengths and bounds of values at hand.

ghost use Rattle.std.specs.Prelude.{◌<◌, ◌^◌, IfSome};
ghost use Rattle.std.specs.List.{AllByRecursion};
ghost use Rattle.namespace_id.specs.Bytes.{AreBytes};
ghost use Rattle.namespace_id.specs.Cells.{IsCell};
ghost use Rattle.square_layout.specs.Blocks.{IsBlock};
ghost use Rattle.frame_payloads.specs.kinds.Commit.{IsRowSent, IsCommitSent};
ghost use Rattle.frame_payloads.specs.kinds.Refusal.{IsRefusal};
ghost use Rattle.frame_payloads.specs.kinds.Rooted.{IsRootedSent};
ghost use Rattle.da_wire.specs.Spelling.{IsFrame};

use crate::Frame;
use axis_roots::{answer_law, claim_law, message_law};
use blob_commit::{CommitProof, CommitRow, RootedMessage, rooted_law, row_law};
use frame_payloads::{Refusal, hash_law};
use namespace_id::{Cell, bytes_law, digests_law, namespace_law, shares_law};
use share_split::{Unit, blobs_law};
use square_layout::Block;

/// Says that a cell has numbers of two bytes. It changes nothing.
fn cell_law(cell: &Cell)
    ensures { IsCell cell.now }
{
    let _row = cell.row;
    let _col = cell.col;
}

/// Says that each unit of a slice is of bytes. It changes nothing.
fn units_law(units: &[Unit])
    ensures { AllByRecursion AreBytes units.now }
{
    for unit in units {
        bytes_law(&unit.bytes);
    }
}

/// Says that a width has two bytes. It changes nothing.
fn width_law(width: Option<u16>)
    ensures { IfSome width (λ k. k < 2 ^ 16) }
{
    match width {
        Some(_) | None => {}
    }
}

/// Says that a block is of bytes, and that its width has two of them. It changes nothing.
fn block_law(block: &Block)
    ensures { IsBlock block.now }
{
    units_law(&block.units);
    units_law(&block.pay_units);
    blobs_law(&block.blobs);
    width_law(block.width);
}

/// Says that a row of a commitment proof has digests and hashes, up to `MOST_HASHES` of these and up to
/// `2 * MOST_DEPTH` nodes. It changes nothing.
fn sent_row_law(row: &CommitRow)
    ensures { IsRowSent row.now }
{
    row_law(row);
    let _up = row.up.hashes();
    let _nodes = row.nodes.nodes();
}

/// Says so of each row of a slice. It changes nothing.
fn sent_rows_law(rows: &[CommitRow])
    ensures { AllByRecursion IsRowSent rows.now }
{
    for row in rows {
        sent_row_law(row);
    }
}

/// Says that a commitment proof has a width of two bytes, a range of numbers of four, a hash, and such
/// rows. It changes nothing.
fn sent_commit_law(proof: &CommitProof)
    ensures { IsCommitSent proof.now }
{
    let _k = proof.k;
    let _start = proof.start;
    let _count = proof.count;
    hash_law(&proof.commitment);
    sent_rows_law(&proof.rows);
}

/// Says that a root proof has a width of two bytes, a sample, a digest, and up to `MOST_HASHES` hashes. It
/// changes nothing.
fn sent_rooted_law(proof: &RootedMessage)
    ensures { IsRootedSent proof.now }
{
    let _k = proof.k;
    let _up = proof.up.hashes();
    rooted_law(proof);
}

/// Says that a refusal has a number of eight bytes. It changes nothing.
fn refusal_law(refusal: &Refusal)
    ensures { IsRefusal refusal.now }
{
    let _number = refusal.number;
}

/// Says that a value has the lengths and bounds of its type, so that what is written of it is read
/// back. It changes nothing.
pub fn frame_law(frame: &Frame)
    ensures { IsFrame frame.now }
{
    match frame {
        Frame::Header(header) => {
            digests_law(&header.rows);
            digests_law(&header.cols);
        }
        Frame::Square(square) => shares_law(&square.shares),
        Frame::Message(message) => message_law(message),
        Frame::Names(name, answer) => {
            namespace_law(name);
            answer_law(answer);
        }
        Frame::Fraud(claim) => claim_law(claim),
        Frame::Missing(cells) => {
            let _k = cells.k;
        }
        Frame::Clash(clash) => {
            let _left = clash.left().bytes();
            let _right = clash.right().bytes();
        }
        Frame::Sample(cell, _) => cell_law(cell),
        Frame::Request(name) => namespace_law(name),
        Frame::Block(block) => block_law(block),
        Frame::Commit(proof) => sent_commit_law(proof),
        Frame::Rooted(proof) => sent_rooted_law(proof),
        Frame::Transactions(units) => units_law(&units.list),
        Frame::Refusal(refusal) => refusal_law(refusal),
        Frame::State => {}
    }
}
