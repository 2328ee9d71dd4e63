//! Of fraud claims.

ghost use Rattle.std.specs.Prelude.{◌≡◌, ◌<◌, Result};

use axis_roots::FraudClaim;
use befp_verify::{ClaimView, FraudRefusal, FraudRefused, Upheld, VerifyRoom, judge, verify};
use data_header::Header;

/// A claim has one judgement, whatever the room held before.
pub fn verify_twice(
    one: &mut VerifyRoom,
    other: &mut VerifyRoom,
    header: &Header,
    claim: FraudClaim,
    copy: FraudClaim,
) -> (Result<Upheld, FraudRefused>, Result<Upheld, FraudRefused>)
    requires one { one.old ≡ header.now.k }
    requires other { other.old ≡ header.now.k }
    requires copy { copy ≡ claim }
    ensures answer { result.0 ≡ result.1 }
    ensures state { one.new ≡ other.new }
{
    let first = verify(one, header, claim);
    let second = verify(other, header, copy);
    (first, second)
}

/// So has one that lies elsewhere.
pub fn judge_twice(
    one: &mut VerifyRoom,
    other: &mut VerifyRoom,
    header: &Header,
    claim: &ClaimView<'_>,
) -> (Option<FraudRefusal>, Option<FraudRefusal>)
    requires one { one.old ≡ header.now.k }
    requires other { other.old ≡ header.now.k }
    ensures answer { result.0 ≡ result.1 }
    ensures state { one.new ≡ other.new }
{
    let first = judge(one, header, claim);
    let second = judge(other, header, claim);
    (first, second)
}
