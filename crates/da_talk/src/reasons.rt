//! Why a sample is refused.

ghost use Rattle.std.specs.Prelude.{◌≡◌};
ghost use Rattle.da_talk.specs.Reasons.{sample_reason};

use axis_roots::CheckRefusal;
use frame_payloads::Reason;

/// The reason of a refusal of a sample: the number of the first check that fails.
pub fn sample_reason(why: CheckRefusal) -> Reason
    ensures { result ≡ sample_reason why }
{
    match why {
        CheckRefusal::OutOfSquare => Reason::FirstCheck,
        CheckRefusal::NodeCount => Reason::SecondCheck,
        CheckRefusal::Unordered => Reason::ThirdCheck,
        CheckRefusal::OtherRoot => Reason::FourthCheck,
    }
}
