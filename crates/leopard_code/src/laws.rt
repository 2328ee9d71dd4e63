//! The laws of the code.

ghost use Rattle.std.specs.Prelude.{◌≡◌, ◌<◌, ◌≤◌, ◌*◌, ℕ, List, IsTrue, length, slice_get, slice_index};
ghost use Rattle.namespace_id.specs.declared.shares.Share.{Share};
ghost use Rattle.namespace_id.specs.Shares.{AreShares};
ghost use Rattle.gf_cantor.specs.Field.{size};
ghost use Rattle.lch_fft.specs.Readings.{LabelReading, AreReadingLaws};
ghost use Rattle.lch_fft.specs.Transforms.{is_count};
ghost use Rattle.lch_fft.specs.Derivatives.{IsDerived};
ghost use Rattle.leopard_code.specs.Locators.{IsFormalDerivative};
ghost use Rattle.namespace_id.specs.Cells.{is_width};
ghost use Rattle.leopard_code.specs.Codewords.{reading_of, are_positions, IsCodeword, IsCodewordOver, HasCode, HasEntries, shares_sum, AreMultiples, AreLines};
ghost use Rattle.leopard_code.specs.Laws.{EntriesAreWeightedSums};

/// The laws of codewords. It changes nothing.
pub fn code_laws()
    // Through k shares at k positions goes a codeword.
    ensures through { (k : ℕ) (known : List ℕ) (shares : List Share) →
        IsTrue (is_width k) → length known ≡ k → IsTrue (are_positions k known) →
        length shares ≡ k → AreShares shares →
        (word : List Share) × IsCodeword k word × HasEntries known shares word }

    // Two codewords that have the same shares at k positions are one.
    ensures one { (k : ℕ) (known : List ℕ) (word other : List Share) →
        IsTrue (is_width k) → length known ≡ k → IsTrue (are_positions k known) →
        IsCodeword k word → IsCodeword k other →
        ((i : ℕ) → i < k →
        slice_get word (slice_index known i) ≡ slice_get other (slice_index known i)) →
        word ≡ other }

    // The bytewise xor of two codewords is one, and so is each multiple of a codeword, label by label.
    ensures sum { (k : ℕ) (word other : List Share) →
        IsCodeword k word → IsCodeword k other → IsCodeword k (shares_sum word other) }
    ensures multiple { (k by : ℕ) (word other : List Share) →
        IsCodeword k word → AreMultiples (reading_of k) by word other → IsCodeword k other }

    // Each entry is the same weighted sum of the known ones in every codeword.
    ensures generator { EntriesAreWeightedSums }

    // Where the first k rows of a square of 2k by 2k shares are codewords, and all its columns, all
    // its rows are.
    ensures crossed { (k : ℕ) (rows cols : ℕ → List Share) →
        IsTrue (is_width k) → AreLines k rows cols →
        ((i : ℕ) → i < k → IsCodeword k (rows i)) →
        ((i : ℕ) → i < 2 * k → IsCodeword k (cols i)) →
        (i : ℕ) → i < 2 * k → IsCodeword k (rows i) }

    // What `derive` of the transforms makes of coefficients of the X_j are those of the formal
    // derivative.
    ensures derivative { (r : LabelReading) (old new : List Share) (c : ℕ) → AreReadingLaws r →
        IsTrue (is_count (length old)) → length old ≤ size r.field →
        AreShares old → IsDerived r old new → c < r.columns → IsFormalDerivative r old new c }

    // The first two laws and that of sums, over any reading.
    ensures through_over { (r : LabelReading) (k : ℕ) (known : List ℕ) (shares : List Share) →
        AreReadingLaws r → HasCode r.field k → length known ≡ k → IsTrue (are_positions k known) →
        length shares ≡ k → AreShares shares →
        (word : List Share) × IsCodewordOver r k word × HasEntries known shares word }
    ensures one_over { (r : LabelReading) (k : ℕ) (known : List ℕ) (word other : List Share) →
        AreReadingLaws r → HasCode r.field k → length known ≡ k → IsTrue (are_positions k known) →
        IsCodewordOver r k word → IsCodewordOver r k other →
        ((i : ℕ) → i < k →
        slice_get word (slice_index known i) ≡ slice_get other (slice_index known i)) →
        word ≡ other }
    ensures sum_over { (r : LabelReading) (k : ℕ) (word other : List Share) → AreReadingLaws r →
        IsCodewordOver r k word → IsCodewordOver r k other →
        IsCodewordOver r k (shares_sum word other) }
{}
