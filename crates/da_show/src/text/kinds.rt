//! The text of each kind of frame that has several lines.

ghost use Rattle.std.specs.Prelude.{◌≡◌, ◌++◌, OnOk};
ghost use Rattle.std.specs.String.{string_bytes};
ghost use Rattle.da_show.specs.Text.{joined, following, header_lines, square_lines, names_lines, places_lines, claim_lines, missing_lines, clash_lines, unit_lines, block_lines, rooted_lines, transactions_lines};

use super::lines::{
    put_block, put_claim, put_header, put_message, put_missing, put_names, put_rooted, put_square,
    put_string, put_transactions,
};
use super::lists::{
    put_blobs, put_cells, put_entries, put_messages, put_places, put_roots, put_shares, put_units,
};
use axis_roots::{FraudClaim, NsAnswer};
use blob_commit::RootedMessage;
use da_wire::{PlaceList, UnitList};
use data_header::Header;
use hash_clash::Clash;
use namespace_id::{Axis, Cells, Namespace};
use square_layout::{Block, Square};
use std::alloc::{AllocError, Global};

/// A header and its roots.
pub(crate) fn header(alloc: Global, out: &mut String, header: &Header) -> Result<(), AllocError>
    ensures { OnOk result (string_bytes out.new
        ≡ string_bytes out.old ++ joined (header_lines header.now)) }
{
    put_header(alloc, out, header)?;
    put_roots(alloc, out, Axis::Row, &header.rows)?;
    put_roots(alloc, out, Axis::Col, &header.cols)
}

/// A square and its shares.
pub(crate) fn square(alloc: Global, out: &mut String, square: &Square) -> Result<(), AllocError>
    ensures { OnOk result (string_bytes out.new
        ≡ string_bytes out.old ++ joined (square_lines square.now)) }
{
    put_square(out, square)?;
    put_shares(alloc, out, &square.shares)
}

/// A namespace answer and its entries.
pub(crate) fn names(
    alloc: Global,
    out: &mut String,
    name: &Namespace,
    answer: &NsAnswer,
) -> Result<(), AllocError>
    ensures { OnOk result (string_bytes out.new
        ≡ string_bytes out.old ++ joined (names_lines name.now answer.now)) }
{
    put_names(alloc, out, name, answer.entries.len())?;
    put_entries(out, &answer.entries)
}

/// A namespace answer and where its entries found something.
pub(crate) fn places(
    alloc: Global,
    out: &mut String,
    name: &Namespace,
    found: &PlaceList,
) -> Result<(), AllocError>
    ensures { OnOk result (string_bytes out.new
        ≡ string_bytes out.old ++ joined (places_lines name.now found.now)) }
{
    put_names(alloc, out, name, found.list.len())?;
    put_places(out, &found.list)
}

/// A fraud claim and its samples.
pub(crate) fn claim(alloc: Global, out: &mut String, claim: &FraudClaim) -> Result<(), AllocError>
    ensures { OnOk result (string_bytes out.new
        ≡ string_bytes out.old ++ joined (claim_lines claim.now)) }
{
    put_claim(out, claim)?;
    put_messages(alloc, out, &claim.cells)
}

/// Missing cells.
pub(crate) fn missing(out: &mut String, cells: &Cells) -> Result<(), AllocError>
    ensures { OnOk result (string_bytes out.new
        ≡ string_bytes out.old ++ joined (missing_lines cells.now)) }
{
    put_missing(out, cells)?;
    put_cells(out, &cells.list)
}

/// A collision and its two strings.
pub(crate) fn clash(alloc: Global, out: &mut String, clash: &Clash) -> Result<(), AllocError>
    ensures { OnOk result (string_bytes out.new
        ≡ string_bytes out.old ++ joined (clash_lines clash.now)) }
{
    out.push_str("clash\n")?;
    put_string(alloc, out, "left", clash.left().bytes())?;
    out.push('\n')?;
    put_string(alloc, out, "right", clash.right().bytes())
}

/// The units of a block, and then those of payments, each behind a line feed.
fn units(out: &mut String, block: &Block) -> Result<(), AllocError>
    ensures { OnOk result (string_bytes out.new
        ≡ string_bytes out.old ++ following (unit_lines block.now)) }
{
    put_units(out, "unit", &block.units)?;
    put_units(out, "pay", &block.pay_units)
}

/// A block, its units and its blobs.
pub(crate) fn block(alloc: Global, out: &mut String, block: &Block) -> Result<(), AllocError>
    ensures { OnOk result (string_bytes out.new
        ≡ string_bytes out.old ++ joined (block_lines block.now)) }
{
    put_block(out, block)?;
    units(out, block)?;
    put_blobs(alloc, out, &block.blobs)
}

/// A root proof and its sample.
pub(crate) fn rooted(
    alloc: Global,
    out: &mut String,
    proof: &RootedMessage,
) -> Result<(), AllocError>
    ensures { OnOk result (string_bytes out.new
        ≡ string_bytes out.old ++ joined (rooted_lines proof.now)) }
{
    put_rooted(alloc, out, proof)?;
    out.push('\n')?;
    put_message(alloc, out, &proof.message)
}

/// Transactions and their lengths.
pub(crate) fn transactions(out: &mut String, units: &UnitList) -> Result<(), AllocError>
    ensures { OnOk result (string_bytes out.new
        ≡ string_bytes out.old ++ joined (transactions_lines units.now)) }
{
    put_transactions(out, units)?;
    put_units(out, "transaction", &units.list)
}
