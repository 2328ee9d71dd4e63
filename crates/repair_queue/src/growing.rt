//! A repair that takes memory as samples come.
//!
//! `Session` takes all memory at first, and so of its samples that of one of each cell, though of
//! most squares few are kept at once: a row or a column that is decided gives the places of its
//! samples back. A `GrowingSession` takes places where none is free. So it may end for want of
//! memory at any sample, and touches all that it takes of them.

ghost use Rattle.std.specs.Prelude.{◌≡◌, ◌≢◌, ◌++◌, ◌∷◌, [], List, IfOk, OnOk, OnErr};
ghost use Rattle.axis_roots.specs.declared.message.messages.Message.{Message};
ghost use Rattle.axis_roots.specs.Proved.{IsUnder, kept_message};
ghost use Rattle.repair_queue.specs.Verdicts.{IsVerdict};
ghost use Rattle.repair_queue.specs.Answers.{verdict_parts};
ghost use Rattle.repair_queue.specs.SessionParts.{SessionStands};
ghost use Rattle.repair_queue.specs.Sessions.{session_state, IsOfState};
ghost use Rattle.repair_queue.specs.declared.sessions.SessionState.TheVariants as state;

use crate::Verdict;
use crate::boards::Board;
use crate::ending::Ending;
use crate::entering::step;
use crate::sessions::{answer_ended, answer_open, width};
use crate::tools::Tools;
use axis_roots::Proved;
use data_header::Header;
use namespace_id::{CellRoom, NoMemory};
use std::alloc::Global;
use std::marker::Model;

/// A repair that is fed one proved sample at a time, as a `Session`, and takes memory for the
/// samples that it keeps as they come. Contracts see what it keeps, and for which lists of samples
/// that stands.
///
/// It may be dropped at any time.
///
/// Al-Bassam, Sonnino, Buterin and Khoffi, 2-dimensional Reed-Solomon encoded Merkle tree;
/// docs/RULES.md, "Closures and verdicts".
pub struct GrowingSession {
    header: Header,
    board: Board,
    tools: Tools,
    ended: Option<Ending>,
    // for the missing cells that `finish` hands out
    room: CellRoom,
}

impl Model for GrowingSession {
    ghost use Rattle.repair_queue.specs.SessionParts.{SessionParts};
    ghost use Rattle.repair_queue.specs.Views.{parts_by};
    ghost use Rattle.repair_queue.specs.OpenBoards.{IsGrowing};

    ghost Value = { SessionParts };

    ghost view = { λ s. parts_by s.header s.board s.ended };

    ghost invariant = { λ s. IsGrowing s.header s.board s.tools s.ended s.room };
}

impl Drop for GrowingSession {
    fn drop(self) {
        let GrowingSession {
            header: _,
            board: _,
            tools: _,
            ended: _,
            room: _,
        } = self;
    }
}

impl GrowingSession {
    /// A session over the square of a header that was fed nothing. It keeps a copy of the header,
    /// and takes all memory that it will need but that of the samples that it keeps. It refuses only
    /// where there is none.
    pub fn new(alloc: Global, header: &Header) -> Result<GrowingSession, NoMemory>
        ensures header { IfOk result (λ s. s.header ≡ header.now) }
        ensures stands { IfOk result (λ s. SessionStands s []) }
        ensures open { IfOk result (λ s. session_state s ≡ state.Open) }
    {
        let k = width(header);
        let room = CellRoom::new(alloc, k)?;
        let header = header.copy(alloc)?;
        let board = Board::new(alloc, k, 1)?;
        let tools = Tools::new(alloc, k)?;
        Ok(GrowingSession {
            header,
            board,
            tools,
            ended: None,
            room,
        })
    }

    /// Takes a proved sample under the header. A fraud proof or a collision that was found stays.
    ///
    /// It refuses only where there is no memory for the sample. Then the sample is dropped, and
    /// nothing has changed.
    pub fn feed(&mut self, message: Proved) -> Result<(), NoMemory>
        requires under { IsUnder self.old.header message }
        ensures header { self.new.header ≡ self.old.header }
        ensures stays { session_state self.old ≢ state.Open → self.new ≡ self.old }
        ensures stands { OnOk result ((ms : List Message) → SessionStands self.old ms →
            SessionStands self.new (ms ++ kept_message message ∷ [])) }
        ensures unchanged { OnErr result (self.new ≡ self.old) }
    {
        if self.ended.is_some() {
            return Ok(());
        }
        self.board.pool.make_place()?;
        self.ended = step(&mut self.board, &mut self.tools, &self.header, message);
        Ok(())
    }

    /// Ends the session with the answer over everything that was fed. It takes no memory: a square has that of its
    /// extension, of which the rest is given back.
    pub fn finish(self) -> Verdict
        ensures verdict { (ms : List Message) → SessionStands self ms →
            IsVerdict self.header ms (verdict_parts result) }
        ensures state { IsOfState (session_state self) result }
    {
        let GrowingSession {
            header,
            board,
            tools,
            ended,
            room,
        } = self;
        drop(tools);
        match ended {
            Some(ended) => answer_ended(ended),
            None => answer_open(board, &header, room),
        }
    }
}
