//! What belongs to talks about wanted namespaces.

ghost use Rattle.da_attending.specs.Laws.{SaysLines, TakesFiles, SaysFollowed, NamesUnfit, NamesBad};

use da_following::follow_laws;

/// What is said in a talk about wanted namespaces is what `follow` writes of the same bytes. It does nothing.
pub fn attend_laws()
    // All that was said are the lines of what the headers and answers feed, at each height in some order.
    ensures lines { SaysLines }

    // The frames of a file that `follow` takes all fit. What is said of them is what it writes, at each height in another order, with
    // its status.
    ensures takes { TakesFiles }
    ensures follow { SaysFollowed }

    // Where a talk ends at a frame that doesn't fit, or at a place at which no frame stands, `follow` refuses the bytes there.
    ensures unfit { NamesUnfit }
    ensures bad { NamesBad }
{
    follow_laws();
}
