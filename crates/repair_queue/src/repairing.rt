//! Repair of a whole square.

ghost use Rattle.std.specs.Prelude.{◌⊎◌, List, IfOk, map};
ghost use Rattle.std.specs.List.{AllByRecursion};
ghost use Rattle.square_layout.specs.Blocks.{SquareShares};
ghost use Rattle.axis_roots.specs.declared.message.messages.Message.{Message as Sent};
ghost use Rattle.axis_roots.specs.Proved.{IsUnder, kept_message};
ghost use Rattle.axis_roots.specs.Grids.{IsHeaderOf};
ghost use Rattle.repair_queue.specs.Closures.{Covers};
ghost use Rattle.repair_queue.specs.Verdicts.{VerdictParts, IsVerdict, IsOwnVerdict, AreAlike};
ghost use Rattle.repair_queue.specs.Answers.{verdict_parts, SomeNames};

use crate::Verdict;
use crate::sessions::Session;
use axis_roots::Proved;
use data_header::Header;
use namespace_id::NoMemory;
use std::alloc::Global;

/// Repairs the square of a data availability header from proved samples: answers a square with that
/// header; or a fraud proof; or exactly the cells that the samples leave unknown, where each row
/// and column with k known cells fits the header; or a SHA-256 collision. The header may be
/// anybody's. All samples are under it; their order and repeats play no part. Under the header of a
/// square the answer is this square or the missing cells, or a sample and the square name a
/// collision.
///
/// It takes the memory of a session, all at first; the one refusal is that there is none.
///
/// Al-Bassam, Sonnino, Buterin and Khoffi, 2-dimensional Reed-Solomon encoded Merkle tree;
/// docs/RULES.md, "Closures and verdicts".
pub fn repair_list(
    alloc: Global,
    header: &Header,
    messages: Vec<Proved>,
) -> Result<Verdict, NoMemory>
    requires under { AllByRecursion (IsUnder header.now) messages.items }
    ensures verdict { IfOk result (λ verdict.
        IsVerdict header.now (map kept_message messages.items) (verdict_parts verdict)) }

    // Under the header of a square the answer is this square or the missing cells, or a sample and
    // the square name a collision.
    ensures own { IfOk result (λ verdict. (square : SquareShares) → IsHeaderOf header.now square →
        IsOwnVerdict square (verdict_parts verdict)
        ⊎ SomeNames header.now (map kept_message messages.items) square) }

    // What another list with the same proved samples is answered, whatever their order and repeats,
    // is alike.
    ensures order { IfOk result (λ verdict. (others : List Sent) (other : VerdictParts) →
        Covers header.now (map kept_message messages.items) others →
        Covers header.now others (map kept_message messages.items) →
        IsVerdict header.now others other → AreAlike (verdict_parts verdict) other) }
{
    let mut session = Session::new(alloc, header)?;
    for message in messages {
        session.feed(message);
    }
    Ok(session.finish())
}
