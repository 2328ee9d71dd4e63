//! A repair that is fed one sample at a time.
//!
//! The known cells of each row and column are counted. One that comes to have k enters a queue,
//! once, and after each sample the queue is emptied: so each row and column is decided once, and
//! nothing is looked through again. To decide one, the codeword through k of its known shares is
//! made and hashed. Where the header has another root, these k cells are a fraud proof. Where
//! another share is known of a cell, that one and the line are a fraud proof or a collision. Else
//! its shares are kept, and its cells that were unknown are counted for what crosses it.
//!
//! What is kept: of each cell on no decided row or column one sample, and a second only where
//! another share was proved along the other axis. Those two may differ for a while: nothing follows
//! from that until one of the axes is decided. Then its samples are dropped, and others come to
//! their places. Of each other cell its share is kept, with the digest of its leaf, so that each
//! leaf is hashed once for its row and its column. No sample is made on the way: those of a decided
//! axis that a fraud proof or a collision needs are made from its tree, once.
//!
//! `Session::new` takes all memory, also that of the answer.

ghost use Rattle.std.specs.Prelude.{◌≡◌, ◌≢◌, ◌↔◌, ◌++◌, ◌∷◌, [], List, Some, IsOk, IfOk, IfErr, IsTrue, ◌*◌, true};
ghost use Rattle.namespace_id.specs.Cells.{is_width};
ghost use Rattle.axis_roots.specs.declared.message.messages.Message.{Message};
ghost use Rattle.axis_roots.specs.Messages.{message_refusal};
ghost use Rattle.axis_roots.specs.Openings.{IsProved};
ghost use Rattle.axis_roots.specs.Own.{IsOwn};
ghost use Rattle.axis_roots.specs.Proved.{IsUnder, kept_message};
ghost use Rattle.repair_queue.specs.Boards.{given_of, decided_of, IsGood, AreParts, AreAtRest, HoldsFor};
ghost use Rattle.repair_queue.specs.Verdicts.{IsVerdict};
ghost use Rattle.repair_queue.specs.Answers.{verdict_parts, EndsAs};
ghost use Rattle.repair_queue.specs.SessionParts.{SessionStands};
ghost use Rattle.repair_queue.specs.Views.{end_of};
ghost use Rattle.repair_queue.specs.Sessions.{state_by, session_state, IsOfState, AreLeft, AreNotFound, AreOriginals};
ghost use Rattle.repair_queue.specs.declared.sessions.SessionState.TheVariants as state;

use crate::Verdict;
use crate::boards::{Board, is_known};
use crate::ending::Ending;
use crate::entering::step;
use crate::placing::number;
use crate::tools::Tools;
use axis_roots::{Message as Sent, PartialTrees, Proved, RefusedMessage};
use data_header::Header;
use namespace_id::{CellRoom, NoMemory, Share, cell_numbered};
use square_layout::Square;
use std::alloc::Global;
use std::marker::Model;

/// Where a session stands.
#[derive(Clone, Copy, Debug, PartialEq, Eq)]
pub enum SessionState {
    /// Each row and column with k known cells fits the header.
    Open,
    /// A fraud proof was found.
    Fraud,
    /// A SHA-256 collision was found.
    Clash,
}

/// A repair that is fed one proved sample at a time. All its memory is taken when it is made.
/// Contracts see what it keeps, and for which lists of samples that stands.
///
/// It may be dropped at any time.
///
/// Al-Bassam, Sonnino, Buterin and Khoffi, 2-dimensional Reed-Solomon encoded Merkle tree;
/// docs/RULES.md, "Closures and verdicts".
pub struct Session {
    pub(crate) header: Header,
    // what accepted samples have shown of the trees under it
    pub(crate) trees: PartialTrees,
    pub(crate) board: Board,
    pub(crate) tools: Tools,
    pub(crate) ended: Option<Ending>,
    // for the missing cells that `finish` hands out
    pub(crate) room: CellRoom,
}

impl Model for Session {
    ghost use Rattle.repair_queue.specs.SessionParts.{SessionParts};
    ghost use Rattle.repair_queue.specs.Views.{parts_by};
    ghost use Rattle.repair_queue.specs.OpenBoards.{IsSession};

    ghost Value = { SessionParts };

    ghost view = { λ s. parts_by s.header s.board s.ended };

    ghost invariant = { λ s. IsSession s.header s.trees s.board s.tools s.ended s.room };
}

impl Drop for Session {
    fn drop(self) {
        let Session {
            header: _,
            trees: _,
            board: _,
            tools: _,
            ended: _,
            room: _,
        } = self;
    }
}

/// The width of a header's square.
pub(crate) fn width(header: &Header) -> u16
    ensures value { result ≡ header.now.k }
    ensures width { is_width result ≡ true }
{
    header.k
}

/// Fills a room with the cells that aren't known, row-major.
fn fill_unknown(board: &Board, room: &mut CellRoom)
    requires parts { AreParts board.now }
    requires room { room.old.k ≡ board.now.grid.k }
    ensures { AreNotFound board.now room.new }
{
    room.clear();
    let k = board.grid.width();
    let side = 2 * k as usize;
    for number in 0..side * side {
        let cell = cell_numbered(2 * k, number);
        if !is_known(board, cell) {
            room.add(cell);
        }
    }
    // A room tells that its cells are row-major.
    let _cells = room.cells();
}

/// The shares of the original cells, row-major, in the memory that the board had for those of all cells. Each is
/// moved towards the front, over one that was moved before or isn't wanted.
fn original_shares(board: Board) -> Vec<Share>
    requires parts { AreParts board }
    ensures { AreOriginals board result.items }
{
    let Board {
        pool,
        marks,
        counts,
        grid,
        leaves,
    } = board;
    let k = grid.width();
    let mut shares = grid.shares;
    let count = k as usize * k as usize;
    for i in 0..count {
        shares[i] = shares[number(k, cell_numbered(k, i))];
    }
    shares.truncate(count);
    shares.shrink_to_fit();
    shares
}

/// The square where all cells are known, else the cells that aren't.
pub(crate) fn answer_open(board: Board, header: &Header, room: CellRoom) -> Verdict
    requires good { IsGood header.now board }
    requires rest { AreAtRest header.now.k (given_of board) (decided_of board) }
    requires cells { room.k ≡ header.now.k }
    ensures verdict { (ms : List Message) → HoldsFor header.now ms board →
        IsVerdict header.now ms (verdict_parts result) }
    ensures state { IsOfState state.Open result }
{
    let mut room = room;
    fill_unknown(&board, &mut room);
    if !room.cells().is_empty() {
        return Verdict::Missing(room.into_cells());
    }
    let shares = original_shares(board);
    Verdict::Whole(Square {
        k: header.k,
        shares,
    })
}

/// The answer with which a session ended.
pub(crate) fn answer_ended(ended: Ending) -> Verdict
    ensures value { EndsAs ended result }
    ensures state { IsOfState (state_by (end_of (Some ended))) result }
{
    match ended {
        Ending::Fraud(proof) => Verdict::Fraud(proof),
        Ending::Clash(clash) => Verdict::Clash(clash),
    }
}

impl Session {
    /// A session over the square of a header that was fed nothing. It keeps a copy of the header,
    /// and takes all memory that it will need, also for what it hands out. It refuses only where
    /// there is none.
    pub fn new(alloc: Global, header: &Header) -> Result<Session, NoMemory>
        ensures header { IfOk result (λ s. s.header ≡ header.now) }
        ensures stands { IfOk result (λ s. SessionStands s []) }
        ensures open { IfOk result (λ s. session_state s ≡ state.Open) }
    {
        let k = width(header);
        let room = CellRoom::new(alloc, k)?;
        let header = header.copy(alloc)?;
        let trees = PartialTrees::new(alloc, &header)?;
        let side = 2 * k as usize;
        let board = Board::new(alloc, k, side * side)?;
        let tools = Tools::new(alloc, k)?;
        Ok(Session {
            header,
            trees,
            board,
            tools,
            ended: None,
            room,
        })
    }

    /// Verifies a sample under the header, and makes the certificate of one that is accepted, as `check`
    /// of `axis_roots` does. What accepted ones have shown of the trees isn't hashed again. The session
    /// stands for what it was fed, as before. It takes no memory.
    pub fn check(&mut self, message: Sent) -> Result<Proved, RefusedMessage>
        ensures accepts { IsOk result ↔ IsProved self.old.header message }
        ensures under { IfOk result (IsUnder self.old.header) }
        ensures message { IfOk result (λ proved. kept_message proved ≡ message) }
        ensures own { IsOk result → IsOwn self.old.header message }
        ensures why { IfErr result (λ refused.
            Some refused.why ≡ message_refusal self.old.header message) }
        ensures returned { IfErr result (λ refused. refused.message ≡ message) }
        ensures kept { self.new ≡ self.old }
    {
        self.trees.check(message)
    }

    /// Takes a proved sample under the header, and answers the state after it. A fraud proof or a
    /// collision that was found stays. It takes no memory.
    pub fn feed(&mut self, message: Proved) -> SessionState
        requires under { IsUnder self.old.header message }
        ensures header { self.new.header ≡ self.old.header }
        ensures state { result ≡ session_state self.new }
        ensures stays { session_state self.old ≢ state.Open → self.new ≡ self.old }
        ensures stands { (ms : List Message) → SessionStands self.old ms →
            SessionStands self.new (ms ++ kept_message message ∷ []) }
    {
        if self.ended.is_some() {
            return self.state();
        }
        self.board.pool.place_law();
        self.ended = step(&mut self.board, &mut self.tools, &self.header, message);
        self.state()
    }

    /// The state over everything that was fed. It takes no memory.
    pub fn state(&self) -> SessionState
        ensures { result ≡ session_state self.now }
    {
        match &self.ended {
            None => SessionState::Open,
            Some(Ending::Fraud(_proof)) => SessionState::Fraud,
            Some(Ending::Clash(_clash)) => SessionState::Clash,
        }
    }

    /// Fills the room with the cells that don't follow from what was fed, row-major, in place of
    /// what it held. Nothing has ended the session, and the room is for the header's width. It
    /// takes no memory.
    pub fn missing(&self, room: &mut CellRoom)
        requires open { session_state self.now ≡ state.Open }
        requires room { room.old.k ≡ self.now.header.k }
        ensures width { room.new.k ≡ room.old.k }
        ensures left { (ms : List Message) → SessionStands self.now ms →
            AreLeft self.now.header ms room.new }
    {
        fill_unknown(&self.board, room);
    }

    /// Ends the session with the answer over everything that was fed. It takes no memory: a square has that of its
    /// extension, of which the rest is given back.
    pub fn finish(self) -> Verdict
        ensures verdict { (ms : List Message) → SessionStands self ms →
            IsVerdict self.header ms (verdict_parts result) }
        ensures state { IsOfState (session_state self) result }
    {
        let Session {
            header,
            trees,
            board,
            tools,
            ended,
            room,
        } = self;
        drop(trees);
        drop(tools);
        match ended {
            Some(ended) => answer_ended(ended),
            None => answer_open(board, &header, room),
        }
    }
}
