//! Deciding a row or a column by k of its cells.

ghost use Rattle.std.specs.Prelude.{◌≡◌, ◌↔◌, true};
ghost use Rattle.axis_roots.specs.Claims.{claim_with, Accepts, IsThrough};
ghost use Rattle.befp_maker.specs.Halves.{AreHalf, is_bad, IsDecision};

use crate::AxisRoom;
use axis_roots::{FraudProof, Proved, claim_laws, is_root, message_laws};
use data_header::Header;
use namespace_id::Axis;

/// What k cells say of their axis.
#[derive(Drop)]
pub enum Decided {
    /// The codeword through them has the header's root as its strict root; the cells come back.
    Matches(Vec<Proved>),
    /// It has another, or none.
    Bad(FraudProof),
}

/// Decides an axis by k proved samples of it, ascending, which are of cells of that axis and proved along it or along
/// the crossing ones: whether the strict root of the codeword through them is the header's root of the axis. The room
/// is for the header's width, and holds this codeword afterwards. It takes no memory.
///
/// Al-Bassam, Sonnino, Buterin and Khoffi, fraud proofs of incorrectly generated extended data;
/// docs/RULES.md, "Fraud claims".
pub fn from_half(
    room: &mut AxisRoom,
    header: &Header,
    axis: Axis,
    index: u16,
    cells: Vec<Proved>,
) -> Decided
    requires room { room.old.k ≡ header.now.k }
    requires half { AreHalf header.now axis index cells.items }
    ensures bad { (is_bad result ≡ true) ↔ Accepts header.now (claim_with axis index cells.items) }
    ensures value { IsDecision header.now axis index cells.items room.new result }

    // The room holds the codeword through the cells, whatever the answer is.
    ensures through { IsThrough header.now.k (claim_with axis index cells.items) room.new.shares }
    ensures width { room.new.k ≡ room.old.k }
{
    message_laws();
    claim_laws();
    let root = header.root_of(axis, index);
    if is_root(room.rebuild(axis, index, &cells), &root) {
        Decided::Matches(cells)
    } else {
        Decided::Bad(FraudProof {
            k: header.k,
            axis,
            index,
            root,
            cells,
        })
    }
}
