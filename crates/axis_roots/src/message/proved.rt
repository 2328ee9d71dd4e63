//! The certificate of a proved sample.

ghost use Rattle.axis_roots.specs.Openings.{OpensAt, OpensAt-prop};

use super::messages::Message;
use namespace_id::Digest;

/// A certificate of a verified sample: its cell is in the square of width k, and its nodes open its
/// share at the cell under a root, which it keeps. So it is proved under every header of that width
/// with that root of the sample's axis.
///
/// Only `check` makes one, the function or that of `PartialTrees`.
///
/// docs/RULES.md, "Proved samples".
#[derive(Drop)]
pub struct Proved {
    k: u16,
    message: Message,
    root: Digest,
    pub ghost opened: { OpensAt k message root } by { OpensAt-prop k message root },
}

impl Proved {
    ghost use Rattle.std.specs.Prelude.{◌≡◌};
    ghost use Rattle.axis_roots.specs.Proved.{kept_width, kept_message, kept_root};

    /// A certificate of a sample that opens.
    pub(crate) fn of(k: u16, message: Message, root: Digest) -> Proved
        requires { OpensAt k message root }
        ensures width { kept_width result ≡ k }
        ensures message { kept_message result ≡ message }
        ensures root { kept_root result ≡ root }
    {
        Proved { k, message, root }
    }

    /// The sample.
    pub fn message(&self) -> &Message
        ensures { result.now ≡ kept_message self.now }
    {
        &self.message
    }

    /// The sample, and no certificate any more.
    pub fn into_message(self) -> Message
        ensures { result ≡ kept_message self }
    {
        self.message
    }
}
