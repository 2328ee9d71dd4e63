//! Polynomials over a field of labels, and the law that exactly one polynomial of n coefficients
//! goes through n points.
//!
//! The crate has no call that computes: it states what the code stands on.
#![tactic(auto)]

ghost use Rattle.std.specs.Prelude.{◌≡◌, ℕ, ◌≤◌, List, length};
ghost use Rattle.gf_cantor.specs.Field.{Field};
ghost use Rattle.gf_cantor.specs.Laws.{AreFieldLaws};
ghost use Rattle.label_polynomial.specs.Polynomial.{value_at, AreCoefficients, ArePoints, PassesThrough};

/// The law of interpolation, of each field: `gf_cantor::field_laws` says that bytes and words are
/// one. It changes nothing.
pub fn interpolation_laws()
    // Through n points goes a polynomial of n coefficients.
    ensures through { (f : Field) → AreFieldLaws f → (xs ys : List ℕ) →
        length xs ≡ length ys → ArePoints f xs → AreCoefficients f ys →
        (cs : List ℕ) × (length cs ≡ length xs) × AreCoefficients f cs × PassesThrough f cs xs ys }

    // Two of at most n coefficients that take the same values there have the same value anywhere.
    ensures one { (f : Field) → AreFieldLaws f → (ps qs xs ys : List ℕ) →
        length ps ≤ length xs → length qs ≤ length xs →
        AreCoefficients f ps → AreCoefficients f qs → ArePoints f xs →
        PassesThrough f ps xs ys → PassesThrough f qs xs ys →
        (x : ℕ) → value_at f ps x ≡ value_at f qs x }
{}
