//! The lengths and bounds of values at hand.

ghost use Rattle.std.specs.Prelude.{◌≡◌, map, false, None};
ghost use Rattle.std.specs.List.{AllByRecursion};
ghost use Rattle.namespace_id.specs.Bytes.{IsString};
ghost use Rattle.namespace_id.specs.Shares.{AreShares};
ghost use Rattle.data_header.specs.Headers.{IsHeader};
ghost use Rattle.square_layout.specs.Blocks.{IsSquare};
ghost use Rattle.axis_roots.specs.Claims.{IsClaim};
ghost use Rattle.axis_roots.specs.Messages.{IsMessage};
ghost use Rattle.axis_roots.specs.Proved.{kept_message};
ghost use Rattle.frame_payloads.specs.kinds.Fraud.{is_unwritten};

use axis_roots::{FraudProof, Proved, message_law};
use data_header::Header;
use namespace_id::{bytes_law, digests_law, shares_law};
use square_layout::Square;

/// Says that a hash has 32 bytes. It changes nothing.
pub fn hash_law(hash: &[u8; 32])
    ensures { IsString 32 hash.now }
{
    bytes_law(hash);
}

/// Says that a header has its width, 2k roots each, and digests of 90 bytes. It changes nothing.
pub(crate) fn header_law(header: &Header)
    ensures { IsHeader header.now }
{
    digests_law(&header.rows);
    digests_law(&header.cols);
}

/// Says that a square has its width, and shares of 512 bytes. It changes nothing.
pub(crate) fn square_law(square: &Square)
    ensures is { IsSquare square.now }
    ensures shares { AreShares square.now.shares }
{
    shares_law(&square.shares);
}

/// Says that each certificate of a slice keeps a sample. It changes nothing.
fn proved_law(cells: &[Proved])
    ensures { AllByRecursion IsMessage (map kept_message cells.now) }
{
    for cell in cells {
        message_law(cell.message());
    }
}

/// Says that the claim of a fraud proof has an index of two bytes, up to `GREATEST_WIDTH` samples and no
/// set. It changes nothing.
pub fn proof_law(proof: &FraudProof)
    ensures claim { IsClaim proof.now.claim }
    ensures plain { proof.now.claim.set ≡ None }
    ensures short { is_unwritten proof.now.claim ≡ false }
{
    let _k = proof.width();
    proved_law(&proof.cells);
}
