//! The certificate of a fraud claim that was accepted.

ghost use Rattle.std.specs.Prelude.{◌≡◌};
ghost use Rattle.befp_verify.specs.Accepted.{IsAccepted};

use axis_roots::FraudClaim;
use std::marker::Model;

/// The certificate of a bad-encoding fraud proof (BEFP): a claim that was accepted under some header. It
/// can't be dropped: who holds one has to take the claim out.
///
/// Only `verify` makes one.
///
/// Al-Bassam, Sonnino, Buterin and Khoffi, fraud proofs of incorrectly generated extended data.
pub struct Upheld {
    claim: FraudClaim,
}

impl Model for Upheld {
    ghost use Rattle.axis_roots.specs.Claims.{ClaimParts};
    ghost use Rattle.befp_verify.specs.Accepted.{IsAccepted};

    ghost Value = { ClaimParts };

    ghost view = { λ u. u.claim };

    ghost invariant = { λ u. IsAccepted u.claim };
}

impl Upheld {
    /// The certificate of a claim that is accepted under some header.
    pub(crate) fn of(claim: FraudClaim) -> Upheld
        requires { IsAccepted claim }
        ensures { result ≡ claim }
    {
        Upheld { claim }
    }

    /// The claim, which is accepted under some header.
    pub fn claim(&self) -> &FraudClaim
        ensures value { result.now ≡ self.now }
        ensures accepted { IsAccepted self.now }
    {
        &self.claim
    }

    /// The claim, and no certificate any more.
    pub fn into_claim(self) -> FraudClaim
        ensures value { result ≡ self }
        ensures accepted { IsAccepted self }
    {
        let Upheld { claim } = self;
        claim
    }
}
