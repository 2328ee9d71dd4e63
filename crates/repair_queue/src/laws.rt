//! What is proved of the cells and shares that follow from proved samples, of what settles them,
//! and of what repair may answer.

ghost use Rattle.std.specs.Prelude.{◌≡◌, ◌↔◌, ◌⊎◌, ℕ, List, true};
ghost use Rattle.std.specs.List.{AllByRecursion, Contains};
ghost use Rattle.namespace_id.specs.declared.cells.Cell.{Cell};
ghost use Rattle.namespace_id.specs.declared.cells.Axis.{Axis};
ghost use Rattle.namespace_id.specs.declared.shares.Share.{Share};
ghost use Rattle.namespace_id.specs.Cells.{is_width, is_in_square, all_cells, CellList};
ghost use Rattle.data_header.specs.Headers.{Roots, AreRoots};
ghost use Rattle.square_layout.specs.Blocks.{SquareShares};
ghost use Rattle.axis_roots.specs.declared.message.messages.Message.{Message};
ghost use Rattle.axis_roots.specs.Messages.{IsMessage};
ghost use Rattle.axis_roots.specs.Openings.{IsProved};
ghost use Rattle.axis_roots.specs.Grids.{IsHeaderOf};
ghost use Rattle.axis_roots.specs.Own.{NamesClash};
ghost use Rattle.axis_roots.specs.Claims.{ClaimParts};
ghost use Rattle.repair_queue.specs.Closures.{Half, Fact, IsDecided, Covers};
ghost use Rattle.repair_queue.specs.Derivations.{IsListed, IsSeen, IsFilled, IsShownPair, IsRebuiltPair};
ghost use Rattle.repair_queue.specs.Settled.{IsSettled, Lines, Fits, along, CellsFit};
ghost use Rattle.repair_queue.specs.Verdicts.{VerdictParts, whole, missing, fraud, clash, IsVerdict, IsOwnVerdict, AreAlike};
ghost use Rattle.repair_queue.specs.SessionParts.{SessionParts, accused, collided, is_known, SessionStands};
ghost use Rattle.repair_queue.specs.Sessions.{session_state};
ghost use Rattle.repair_queue.specs.declared.sessions.SessionState.TheVariants as state;
ghost use Rattle.repair_queue.specs.Laws.{HalfIsLeast, FactIsLeast, LinesAreFacts, FactsAreWhole, OwnUnlessNamed};

/// What is proved of the cells that are recoverable and of the facts, for any header and any list
/// of samples.
///
/// docs/RULES.md, "Closures and verdicts".
pub fn closure_laws()
    // The cells of facts are exactly the recoverable ones.
    ensures cells { (header : Roots) (ms : List Message) (cell : Cell) →
        Half header ms cell ↔ ((share : Share) × Fact header ms cell share) }

    // Every set that a test tells and that holds the cells of proved samples and, with k cells of a
    // row or a column, all of it, holds the recoverable cells.
    ensures half_least { HalfIsLeast }

    // Every set that a test tells and that holds the cells and shares of proved samples and, with k
    // shares of a codeword along a row or a column, all of it, holds the facts.
    ensures fact_least { FactIsLeast }

    // Both grow with the proved samples; so their order and repeats play no part.
    ensures grows { (header : Roots) (ms others : List Message) → Covers header ms others →
        (cell : Cell) (share : Share) → (Half header ms cell → Half header others cell)
        × (Fact header ms cell share → Fact header others cell share) }
    ensures same_proved { (header : Roots) (ms others : List Message) →
        Covers header ms others → Covers header others ms → (cell : Cell) (share : Share) →
        (Half header ms cell ↔ Half header others cell)
        × (Fact header ms cell share ↔ Fact header others cell share) }

    // They are what lists of derivations derive.
    ensures half_listed { (header : Roots) (ms : List Message) (cell : Cell) →
        Half header ms cell ↔ IsListed (IsSeen header ms) (IsFilled header) cell }
    ensures fact_listed { (header : Roots) (ms : List Message) (cell : Cell) (share : Share) →
        Fact header ms cell share
        ↔ IsListed (IsShownPair header ms) (IsRebuiltPair header) (cell, share) }
{}

/// What is proved of lists of samples under which every decided row and column has its root.
///
/// docs/RULES.md, "Closures and verdicts".
pub fn settled_laws()
    // A list is settled exactly where shares of its decided rows and columns fit.
    ensures fits { (header : Roots) (ms : List Message) →
        IsSettled header ms ↔ ((lines : Lines header ms) × Fits header ms lines) }

    // Only these fit, and they are what the facts hold there.
    ensures one { (header : Roots) (ms : List Message) (lines others : Lines header ms) →
        Fits header ms lines → Fits header ms others → (axis : Axis) (index : ℕ)
        (d e : IsDecided header ms axis index) → lines axis index d ≡ others axis index e }
    ensures facts { LinesAreFacts }

    // Where a share for each cell fits, those along the decided rows and columns do.
    ensures cells { (header : Roots) (ms : List Message) (shares : Cell → Share) →
        CellsFit header ms shares →
        Fits header ms (λ axis index d. along header.k shares axis index) }

    // Only the proved samples count, not their order or repeats.
    ensures same_proved { (header : Roots) (ms others : List Message) →
        Covers header ms others → Covers header others ms →
        IsSettled header ms ↔ IsSettled header others }
{}

/// What is proved of the answers that repair may give.
///
/// docs/RULES.md, "Closures and verdicts".
pub fn verdict_laws()
    // Each cell of the square that isn't recoverable is listed among the missing ones.
    ensures listed { (header : Roots) (ms : List Message) (cells : CellList) (cell : Cell) →
        IsVerdict header ms (missing cells) → is_in_square header.k cell ≡ true →
        (Half header ms cell → ⊥) → Contains cells.list cell }

    // Where no sample is proved, all cells are missing, whatever the header.
    ensures nothing { (header : Roots) (ms : List Message) → is_width header.k ≡ true →
        ((m : Message) → Contains ms m → IsProved header m → ⊥) →
        IsVerdict header ms (missing (record { k = header.k; list = all_cells header.k })) }

    // Where all cells are recoverable and the list is settled, there is a whole square; and the
    // square that the facts hold is one: the header is its own.
    ensures some_square { (header : Roots) (ms : List Message) → AreRoots header →
        ((cell : Cell) → is_in_square header.k cell ≡ true → Half header ms cell) →
        IsSettled header ms → (square : SquareShares) × IsVerdict header ms (whole square) }
    ensures header { FactsAreWhole }

    // A fraud or a collision stays one when samples are added.
    ensures fraud_stays { (header : Roots) (ms others : List Message) (claim : ClaimParts) →
        Covers header ms others → IsVerdict header ms (fraud claim) →
        IsVerdict header others (fraud claim) }
    ensures clash_stays { (header : Roots) (ms others : List Message) (left right : List ℕ) →
        Covers header ms others → IsVerdict header ms (clash left right) →
        IsVerdict header others (clash left right) }

    // Only the proved samples count, not their order or repeats: another list with the same ones
    // has the same answers, and what two such lists are answered is alike. So of one list, whole
    // square, missing cells and fraud exclude one another, and square and missing cells are one.
    ensures same_proved { (header : Roots) (ms others : List Message) →
        Covers header ms others → Covers header others ms → (verdict : VerdictParts) →
        IsVerdict header ms verdict → IsVerdict header others verdict }
    ensures order { (header : Roots) (ms others : List Message) → Covers header ms others →
        Covers header others ms → (verdict other : VerdictParts) → IsVerdict header ms verdict →
        IsVerdict header others other → AreAlike verdict other }

    // Under the header of a square the answer is this square or the missing cells, or a proved
    // sample and the square name a collision.
    ensures own { (header : Roots) (square : SquareShares) (ms : List Message) →
        IsHeaderOf header square → AllByRecursion IsMessage ms → (verdict : VerdictParts) →
        IsVerdict header ms verdict → IsOwnVerdict square verdict
        ⊎ ((m : Message) × Contains ms m × IsProved header m × NamesClash m square) }

    // Where no proved sample and the square name one, the list is settled; with all cells
    // recoverable the square is an answer; and each answer is the square or missing cells. Nothing
    // is asked of samples that aren't proved.
    ensures own_unnamed { OwnUnlessNamed }
{}

/// What is proved of the lists of samples for which a session stands.
///
/// docs/RULES.md, "Closures and verdicts".
pub fn session_laws()
    // A session that stands for a list stands for each one with the same proved samples, whatever
    // their order and repeats.
    ensures same_proved { (s : SessionParts) (ms others : List Message) →
        Covers s.header ms others → Covers s.header others ms → SessionStands s ms →
        SessionStands s others }

    // An open one knows exactly the recoverable cells of the square, and the list is settled.
    ensures known { (s : SessionParts) (ms : List Message) → session_state s ≡ state.Open →
        SessionStands s ms → (cell : Cell) → is_in_square s.header.k cell ≡ true →
        (is_known s cell ≡ true) ↔ Half s.header ms cell }
    ensures settled { (s : SessionParts) (ms : List Message) → session_state s ≡ state.Open →
        SessionStands s ms → IsSettled s.header ms }

    // What ended another one is an answer.
    ensures accused { (s : SessionParts) (ms : List Message) (claim : ClaimParts) →
        s.ended ≡ accused claim → SessionStands s ms → IsVerdict s.header ms (fraud claim) }
    ensures collided { (s : SessionParts) (ms : List Message) (left right : List ℕ) →
        s.ended ≡ collided left right → SessionStands s ms →
        IsVerdict s.header ms (clash left right) }
{}
