//! The kinds of frames.

ghost use Rattle.std.specs.Prelude.{◌≡◌};
ghost use Rattle.da_wire.specs.Reading.{kind_at};

/// The kinds of which there are values.
#[derive(Clone, Copy)]
pub(crate) enum Kind {
    Header,
    Square,
    Message,
    Names,
    Fraud,
    Missing,
    Clash,
    Sample,
    Request,
    Block,
    Commit,
    Rooted,
    Transactions,
    Refusal,
    State,
}

impl Kind {
    /// The kind that a byte is.
    pub(crate) fn of(byte: u8) -> Option<Kind>
        ensures { result ≡ kind_at byte }
    {
        match byte {
            b'H' => Some(Kind::Header),
            b'S' => Some(Kind::Square),
            b'M' => Some(Kind::Message),
            b'N' => Some(Kind::Names),
            b'B' => Some(Kind::Fraud),
            b'K' => Some(Kind::Missing),
            b'X' => Some(Kind::Clash),
            b'Q' => Some(Kind::Sample),
            b'P' => Some(Kind::Request),
            b'V' => Some(Kind::Block),
            b'C' => Some(Kind::Commit),
            b'R' => Some(Kind::Rooted),
            b'T' => Some(Kind::Transactions),
            b'E' => Some(Kind::Refusal),
            b'A' => Some(Kind::State),
            _ => None,
        }
    }
}
