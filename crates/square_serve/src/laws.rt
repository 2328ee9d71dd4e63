//! What is proved of answers to namespace requests.

ghost use Rattle.std.specs.Prelude.{◌≡◌, ◌*◌, ◌<◌, ◌≤◌, ◌⊎◌, ◌↔◌, ℕ, List, None, true, false};
ghost use Rattle.std.specs.List.{Contains};
ghost use Rattle.namespace_id.specs.declared.cells.Cell.{Cell};
ghost use Rattle.namespace_id.specs.declared.cells.Axis.{Axis};
ghost use Rattle.namespace_id.specs.declared.namespaces.Namespace.{Namespace};
ghost use Rattle.namespace_id.specs.Names.{IsNamespace, is_parity};
ghost use Rattle.namespace_id.specs.Cells.{is_in_square};
ghost use Rattle.data_header.specs.Headers.{Roots, AreRoots};
ghost use Rattle.square_layout.specs.Blocks.{SquareShares, IsSquare};
ghost use Rattle.axis_roots.specs.declared.answers.NsEntry.{NsEntry};
ghost use Rattle.axis_roots.specs.Answers.{AreEntries};
ghost use Rattle.axis_roots.specs.Grids.{IsHeaderOf};
ghost use Rattle.axis_roots.specs.Openings.{IsProved};
ghost use Rattle.axis_roots.specs.Trees.{message_at};
ghost use Rattle.square_serve.specs.Shares.{namespace_shares};
ghost use Rattle.square_serve.specs.Answers.{shown, first_column, end_column, IsComplete, answer_refusal};
ghost use Rattle.square_serve.specs.Own.{ShowsAll, AnswerNames, IsOwnAnswer};
ghost use Rattle.square_serve.specs.Serving.{HeldParts, IsHeld, Holds, answer_for};

/// What a complete answer says.
pub fn answer_laws()
    // An answer is complete exactly where no check fails.
    ensures refusal { (header : Roots) (name : Namespace) (answer : List NsEntry) →
        (answer_refusal header name answer ≡ None) ↔ IsComplete header name answer }

    // Each entry of a complete answer takes a column or more, all of them of the original square,
    // whatever the header.
    ensures columns { (header : Roots) (name : Namespace) (answer : List NsEntry) (entry : NsEntry) →
        IsComplete header name answer → Contains answer entry →
        (first_column entry.found < end_column entry.found)
        × (end_column entry.found ≤ header.k) }

    // Under the header of a square a complete answer shows exactly the square's shares of the namespace, or
    // an entry and the square name a collision.
    ensures own { (header : Roots) (name : Namespace) (answer : List NsEntry) → IsNamespace name →
        AreEntries answer → IsComplete header name answer → IsOwnAnswer header name answer }

    // Never both.
    ensures apart { (name : Namespace) (square : SquareShares) (answer : List NsEntry) →
        IsSquare square → ShowsAll name square answer → AnswerNames name square answer → ⊥ }
{}

/// What a held square answers, whichever request comes.
pub fn serve_laws()
    // The header is that of the square that is held.
    ensures header { (held : HeldParts) (square : SquareShares) → Holds held square →
        IsHeaderOf held.header square }

    // The sample of each cell and axis is proved under the header.
    ensures sample { (held : HeldParts) (cell : Cell) (axis : Axis) → IsHeld held →
        is_in_square held.k cell ≡ true →
        IsProved held.header (message_at held.k held.grid cell axis) }

    // The answer for each namespace but PARITY is complete under the header, and shows exactly the shares
    // of the square that is held.
    ensures complete { (held : HeldParts) (name : Namespace) → IsHeld held → IsNamespace name →
        is_parity name ≡ false → IsComplete held.header name (answer_for held name) }
    ensures entries { (held : HeldParts) (name : Namespace) → IsHeld held → IsNamespace name →
        AreEntries (answer_for held name) }
    ensures shares { (held : HeldParts) (square : SquareShares) (name : Namespace) → IsHeld held →
        Holds held square → IsNamespace name → is_parity name ≡ false →
        shown (answer_for held name) ≡ namespace_shares square name }

    // So each namespace but PARITY has an answer under the header of a square.
    ensures answer { (header : Roots) (square : SquareShares) (name : Namespace) →
        IsHeaderOf header square → IsNamespace name → is_parity name ≡ false →
        (answer : List NsEntry) × IsComplete header name answer × AreEntries answer
        × (shown answer ≡ namespace_shares square name) }

    // No other answer is complete under the header of the square that is held, unless an entry and the
    // square name a collision.
    ensures only { (held : HeldParts) (square : SquareShares) (name : Namespace)
        (answer : List NsEntry) → Holds held square → IsNamespace name → AreEntries answer →
        IsComplete held.header name answer →
        (answer ≡ answer_for held name) ⊎ AnswerNames name square answer }
{}
