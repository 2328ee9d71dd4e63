//! What C calls. A `Global` takes no argument of C, a slice two: a pointer and a length.
//!
//! Of each frame its bytes are all of the argument (docs/FORMATS.md, "Frames"). No call keeps a pointer. What a
//! caller has to keep to is in `include/da.h`.

ghost use Rattle.std.specs.Prelude.{◌≡◌, ◌≢◌, ◌≤◌, length};
ghost use Rattle.da_c.specs.Replies.{IsExact, AnswersReply, WritesReply};
ghost use Rattle.da_c.specs.Calls.{Checks, IsProvedUnder, IsOwnUnder, HoldsCall, VerifyCall, root_size, most_header, RootCall, HeaderCall};

use crate::judging::{check, holds, verify};
use crate::replies::{Detail, tell};
use crate::writing::{header, root};
use std::alloc::Global;

/// Answers whether a sample (kind M) is proved under a header (kind H): 0 where it is, and otherwise 13
/// with the number of the first check that fails. 6 comes where an argument isn't in its form, and names
/// the first that isn't. 5, out of memory, comes only where the header is in its form.
#[unsafe(no_mangle)]
pub extern "C" fn da_check(alloc: Global, header: &[u8], message: &[u8], detail: &mut Detail) -> u32
    ensures answers { AnswersReply (Checks header.now message.now) result detail.new }

    // Unless memory runs out 0 comes exactly for a sample that is proved, and then, under the header of a
    // square, it shows the square's own share, or they name a collision.
    ensures proved { IsExact (IsProvedUnder header.now message.now) result }
    ensures own { result ≡ 0 → IsOwnUnder header.now message.now }
{
    tell(check(alloc, header, message), detail)
}

/// Answers whether an answer (kind M, N, B, C or R) holds under a header, whatever was asked, as
/// `da verify HEADER ANSWER` does.
#[unsafe(no_mangle)]
pub extern "C" fn da_holds(alloc: Global, header: &[u8], answer: &[u8], detail: &mut Detail) -> u32
    ensures { AnswersReply (HoldsCall header.now answer.now) result detail.new }
{
    tell(holds(alloc, header, answer), detail)
}

/// Answers whether an answer is to a request (kind Q or P), and holds under a header, as
/// `da verify HEADER ANSWER REQUEST` does: 13 with the number 0 where it isn't to the request.
#[unsafe(no_mangle)]
pub extern "C" fn da_verify(
    alloc: Global,
    header: &[u8],
    answer: &[u8],
    request: &[u8],
    detail: &mut Detail,
) -> u32
    ensures { AnswersReply (VerifyCall header.now answer.now request.now) result detail.new }
{
    tell(verify(alloc, header, answer, request), detail)
}

/// Writes the 32 bytes of a header's data root to the front of a buffer. With a status that isn't 0 the
/// buffer stays as it was; 15 says that it has fewer bytes.
#[unsafe(no_mangle)]
pub extern "C" fn da_data_root(
    alloc: Global,
    header: &[u8],
    buffer: &mut [u8],
    detail: &mut Detail,
) -> u32
    ensures writes { WritesReply (RootCall header.now (length buffer.old)) buffer.old buffer.new result
        detail.new }
    ensures room { root_size ≤ length buffer.old → result ≢ 15 }
{
    tell(root(alloc, header, buffer), detail)
}

/// Writes the frame of the header of a square (kind S) to the front of a buffer, or answers that the
/// square has none, 9. With a status that isn't 0 the buffer stays as it was; 15 says that it has fewer
/// bytes than the frame.
#[unsafe(no_mangle)]
pub extern "C" fn da_header(
    alloc: Global,
    square: &[u8],
    buffer: &mut [u8],
    detail: &mut Detail,
) -> u32
    ensures writes { WritesReply (HeaderCall square.now (length buffer.old)) buffer.old buffer.new result
        detail.new }

    // In a buffer for the frame of the header of the greatest width each fits.
    ensures room { most_header ≤ length buffer.old → result ≢ 15 }
{
    tell(header(alloc, square, buffer), detail)
}
