//! What refusals of fraud claims say.

ghost use Rattle.std.specs.Prelude.{◌≡◌, ℕ, Some};
ghost use Rattle.data_header.specs.Headers.{Roots, AreRoots};
ghost use Rattle.axis_roots.specs.declared.message.messages.CheckRefusal.{CheckRefusal as Why};
ghost use Rattle.axis_roots.specs.Claims.{ClaimParts, IsClaim};
ghost use Rattle.befp_verify.specs.Refusals.{first_unproved, IsFirstUnproved};

use axis_roots::message_laws;

/// What is proved of the refusals of claims under any header.
pub fn refusal_laws()
    // The cell that a refusal names, counted from 0, is the first that isn't proved, and it isn't for the
    // reason that is named.
    ensures cell { (header : Roots) (claim : ClaimParts) (i : ℕ) (why : Why) → AreRoots header →
        IsClaim claim → first_unproved header claim ≡ Some (i, why) →
        IsFirstUnproved header claim i why }
{
    message_laws();
}
