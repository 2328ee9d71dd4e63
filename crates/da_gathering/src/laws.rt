//! What belongs to the talks of a repair, by what was said alone.

ghost use Rattle.da_gathering.specs.Gathered.{RefusesEachLie};

use da_wire::wire_laws;

/// Each frame that is a lie is refused once, and no other is: so the refusals that were said are as many as the lies that the
/// status of missing cells counts.
pub fn gathering_laws()
    ensures lies { RefusesEachLie }
{
    wire_laws();
}
