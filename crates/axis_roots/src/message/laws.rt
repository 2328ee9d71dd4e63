//! What certificates and refusals say, and what a square's own header opens.

ghost use Rattle.std.specs.Prelude.{◌≡◌, ◌↔◌, ℕ, None};
ghost use Rattle.namespace_id.specs.declared.cells.Axis.{Axis};
ghost use Rattle.nmt_proofs.specs.Parts.{Part};
ghost use Rattle.data_header.specs.Headers.{Roots, AreRoots};
ghost use Rattle.square_layout.specs.Blocks.{SquareShares, IsSquare};
ghost use Rattle.axis_roots.specs.declared.message.messages.Message.{Message as Sent};
ghost use Rattle.axis_roots.specs.declared.message.proved.Proved.{Proved as Certificate};
ghost use Rattle.axis_roots.specs.Messages.{message_refusal, IsMessage};
ghost use Rattle.axis_roots.specs.Openings.{IsProved};
ghost use Rattle.axis_roots.specs.Own.{AgreesAt, NamesAt, ShowsOwn, NamesClash, IsOwn};
ghost use Rattle.axis_roots.specs.Proved.{IsUnder, kept_message};
ghost use Rattle.axis_roots.specs.Laws.{OwnOrNamed};

/// What is proved of a sample under a header.
pub fn message_laws()
    // The sample of a certificate is proved under each header that the certificate is under.
    ensures certificate { (header : Roots) (proved : Certificate) → IsUnder header proved →
        IsProved header (kept_message proved) }

    // A sample is proved exactly where no check fails.
    ensures refusal { (header : Roots) (message : Sent) → AreRoots header → IsMessage message →
        (message_refusal header message ≡ None) ↔ IsProved header message }

    // Under the header of a square a proved sample shows the square's own share, or they name a
    // collision.
    ensures own { (header : Roots) (message : Sent) → IsProved header message →
        IsOwn header message }
{}

/// What is proved of a partial tree under a root of a square's header.
pub fn own_laws()
    // It and the square's tree of that axis agree, or they name a collision: the first two strings
    // in which they differ.
    ensures names { OwnOrNamed }

    // Never both; and of a sample that shows the square's own share none is named either.
    ensures parts_apart { (square : SquareShares) (axis : Axis) (index : ℕ) (part : Part) →
        IsSquare square → AgreesAt part square axis index → NamesAt part square axis index → ⊥ }
    ensures messages_apart { (message : Sent) (square : SquareShares) → IsSquare square →
        ShowsOwn message square → NamesClash message square → ⊥ }
{}
