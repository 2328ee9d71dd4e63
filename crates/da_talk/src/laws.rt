//! What belongs to talks, by their events alone.

ghost use Rattle.std.specs.Prelude.{◌≡◌, ℕ, List};
ghost use Rattle.da_talk.specs.Events.{Event, heard_in, said_in};
ghost use Rattle.da_talk.specs.Talks.{IsAnswered};

/// How bytes are cut as they come changes nothing: two talks in which all was said that is due, for the same
/// bytes, said the same bytes.
pub fn talk_laws()
    ensures cutting { (due : List ℕ → List ℕ) (some other : List Event) →
        heard_in some ≡ heard_in other → IsAnswered due some → IsAnswered due other →
        said_in some ≡ said_in other }
{}
