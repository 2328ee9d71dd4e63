//! Whether a session has come to the whole square.

ghost use Rattle.std.specs.Prelude.{◌≡◌, ◌↔◌, List, true};
ghost use Rattle.std.specs.List.{list_all};
ghost use Rattle.namespace_id.specs.declared.cells.Cell.{Cell};
ghost use Rattle.namespace_id.specs.Cells.{is_in_square};
ghost use Rattle.axis_roots.specs.declared.message.messages.Message.{Message};
ghost use Rattle.repair_queue.specs.Closures.{Half};
ghost use Rattle.repair_queue.specs.SessionParts.{SessionStands};
ghost use Rattle.repair_queue.specs.Sessions.{session_state};
ghost use Rattle.repair_queue.specs.declared.sessions.SessionState.TheVariants as state;

use crate::marks::Marks;
use crate::sessions::Session;

/// Whether all rows are decided.
fn are_rows_marked(marks: &Marks) -> bool
    ensures { result ≡ list_all (λ is_set. is_set) marks.now.rows.items }
{
    marks.rows.iter().all(|is_set| *is_set)
}

impl Session {
    /// Whether all cells of the square follow from what was fed, so that `finish` answers the square. Nothing has
    /// ended the session. It looks at a flag for each row, and takes no memory.
    pub fn has_all(&self) -> bool
        requires open { session_state self.now ≡ state.Open }
        ensures { (ms : List Message) → SessionStands self.now ms → (result ≡ true) ↔ ((cell : Cell) →
            is_in_square self.now.header.k cell ≡ true → Half self.now.header ms cell) }
    {
        are_rows_marked(&self.board.marks)
    }
}
