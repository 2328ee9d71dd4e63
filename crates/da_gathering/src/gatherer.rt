//! A repair that is fed frame by frame.

ghost use Rattle.std.specs.Prelude.{◌≡◌, IfOk};
ghost use Rattle.da_gathering.specs.Gathered.{IsFreshGathering};

use da_status::Status;
use data_header::Header;
use namespace_id::{CellRoom, NoMemory};
use repair_queue::{Session, session_laws, verdict_laws};
use std::alloc::Global;
use std::marker::Model;

/// A repair under a header that is fed frame by frame. All its memory is taken when it is made: what is due is written into a
/// text of the caller's.
///
/// docs/FORMATS.md, "Talks".
#[derive(Drop)]
pub struct Gatherer<'a> {
    pub(crate) header: &'a Header,
    // until the last words are written
    pub(crate) session: Option<Session>,
    // for the missing cells that it tells
    pub(crate) room: CellRoom,
    pub(crate) lies: u64,
    pub(crate) over: bool,
    pub(crate) status: Option<Status>,
}

impl<'a> Model for Gatherer<'a> {
    ghost use Rattle.std.specs.Prelude.{◌≡◌, IfSome};
    ghost use Rattle.da_gathering.specs.Gatherings.{Gathering, IsGatheringSession};

    ghost Value = { Gathering };

    ghost view = { λ g. record { header = g.header.now; session = g.session; lies = g.lies; is_over = g.over; status = g.status } };

    ghost invariant = { λ g. (g.room.k ≡ g.header.now.k) × IfSome g.session (IsGatheringSession g.header.now g.over) };
}

impl<'a> Gatherer<'a> {
    /// A repair under a header that was fed nothing. It takes all memory that it will need, and refuses only where there is
    /// none.
    pub fn new(alloc: Global, header: &'a Header) -> Result<Gatherer<'a>, NoMemory>
        ensures header { IfOk result (λ g. g.header ≡ header.now) }
        ensures fresh { IfOk result IsFreshGathering }
    {
        session_laws();
        verdict_laws();
        let room = CellRoom::new(alloc, header.k)?;
        let session = Session::new(alloc, header)?;
        Ok(Gatherer {
            header,
            session: Some(session),
            room,
            lies: 0,
            over: false,
            status: None,
        })
    }

    /// The status that goes with the last words, once they are written.
    pub fn status(&self) -> Option<Status>
        ensures { result ≡ self.now.status }
    {
        self.status
    }
}
