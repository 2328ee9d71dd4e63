//! What belongs to talks with a watcher.

ghost use Rattle.std.specs.Prelude.{◌≡◌, ◌⊎◌, ℕ, List, codes};
ghost use Rattle.namespace_id.specs.declared.cells.Cell.{Cell};
ghost use Rattle.data_header.specs.Headers.{Roots, AreRoots};
ghost use Rattle.axis_roots.specs.declared.message.messages.CheckRefusal.{CheckRefusal};
ghost use Rattle.befp_verify.specs.declared.verifying.FraudRefusal.{FraudRefusal};
ghost use Rattle.frame_payloads.specs.declared.refusals.Reason.{Reason};
ghost use Rattle.frame_payloads.specs.kinds.Refusal.{reason_byte};
ghost use Rattle.da_wire.specs.Reading.{Raw};
ghost use Rattle.da_status.specs.declared.status.Status.{Status};
ghost use Rattle.da_judging.specs.Check.{IsProvedFrame};
ghost use Rattle.da_judging.specs.Light.{Judges};
ghost use Rattle.da_judging.specs.Verify.{check_number, fraud_number};
ghost use Rattle.da_talk.specs.Reasons.{sample_reason};
ghost use Rattle.da_talk.specs.Handed.{fed};
ghost use Rattle.da_watching.specs.Watched.{claim_reason, IsLie, state_frame, BeginsWatching, RepliesWatching, Decides, EndsWatching};

use axis_roots::message_laws;
use light_node::light_laws;

/// What is told in a talk with a watcher is what other commands answer. It does nothing.
pub fn watch_laws()
    // Reasons are the numbers that `check` and `verify` have for refusals.
    ensures samples { (why : CheckRefusal) → reason_byte (sample_reason why) ≡ check_number why }
    ensures claims { (why : FraudRefusal) → reason_byte (claim_reason why) ≡ fraud_number why }

    // A proved sample is no lie.
    ensures apart { (header : Roots) (frame : Raw) (reason : Reason) → AreRoots header →
        IsLie header frame reason → IsProvedFrame header frame → ⊥ }

    // What is due is one text, and one status goes with the last words: how the bytes are cut changes nothing.
    ensures begins { (header : Roots) (plan : List Cell) (one other : List ℕ) →
        BeginsWatching header plan one → BeginsWatching header plan other → one ≡ other }
    ensures replies { (header : Roots) (plan : List Cell) (frames : List Raw) (frame : Raw)
        (one other : List ℕ) → AreRoots header → RepliesWatching header plan frames frame one →
        RepliesWatching header plan frames frame other → one ≡ other }
    ensures decides { (header : Roots) (frames : List Raw) (one other : List ℕ)
        (status kept : Status) → Decides header frames one status → Decides header frames other kept →
        (one ≡ other) × (status ≡ kept) }
    ensures ends { (header : Roots) (plan : List Cell) (frames : List Raw) (one other : List ℕ)
        (status kept : Status) → EndsWatching header plan frames one status →
        EndsWatching header plan frames other kept → (one ≡ other) × (status ≡ kept) }

    // The last words are what `light` writes of the frames that don't ask for the state, with its status: where its line is
    // `available`, a state frame.
    ensures decided { (header : Roots) (plan : List Cell) (frames : List Raw) (text : List ℕ)
        (status : Status) →
        Decides header frames text status → Judges header plan (fed frames) text status }
    ensures ended { (header : Roots) (plan : List Cell) (frames : List Raw) (text : List ℕ)
        (status : Status) → EndsWatching header plan frames text status →
        (w : List ℕ) × Judges header plan (fed frames) w status
        × ((w ≡ text) ⊎ ((w ≡ codes "available\n") × (text ≡ state_frame))) }
{
    message_laws();
    light_laws();
}
