//! Refusals of frames: why one was refused, and which.

ghost use Rattle.std.specs.Prelude.{◌≡◌};
ghost use Rattle.frame_payloads.specs.kinds.Refusal.{reason_byte};

/// Why a frame was refused.
#[derive(Clone, Copy, Debug, PartialEq, Eq)]
pub enum Reason {
    /// It is of no kind that is asked for, or isn't in the grammar of its kind.
    NoSuchFrame,
    /// It fails the check that `check` numbers 1 for a sample, `verify` for a fraud claim.
    FirstCheck,
    /// It fails the check 2.
    SecondCheck,
    /// It fails the check 3.
    ThirdCheck,
    /// It fails the check 4.
    FourthCheck,
    /// It asks for what has no answer.
    NoAnswer,
}

/// A refusal of the frame with this number, counted from 0.
#[derive(Clone, Copy, Debug, PartialEq, Eq)]
pub struct Refusal {
    pub reason: Reason,
    pub number: u64,
}

impl Reason {
    /// The byte that a reason is.
    pub fn byte(self) -> u8
        ensures { result ≡ reason_byte self }
    {
        match self {
            Reason::NoSuchFrame => 0,
            Reason::FirstCheck => 1,
            Reason::SecondCheck => 2,
            Reason::ThirdCheck => 3,
            Reason::FourthCheck => 4,
            Reason::NoAnswer => 5,
        }
    }
}
