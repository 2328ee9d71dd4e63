//! The sizes of shares, the laws of the shares of blobs, and why shares that are read back are refused.

ghost use Rattle.std.specs.Prelude.{◌≡◌, ◌<◌, ◌≤◌, ◌+◌, ◌*◌, ◌^◌, ◌↔◌, ℕ, List, true, false, Some, None, Ok, Err};
ghost use Rattle.namespace_id.specs.declared.shares.Share.{Share as AShare};
ghost use Rattle.namespace_id.specs.Shares.{name_in};
ghost use Rattle.namespace_id.specs.Sizes.{share_size, namespace_size};
ghost use Rattle.share_split.specs.Blobs.{length_place, first_content, signer_size, first_signed_content, later_content, max_sequence_length};
ghost use Rattle.share_split.specs.Units.{first_compact_content, later_compact_content};
ghost use Rattle.share_split.specs.Widths.{subtree_root_threshold};
ghost use Rattle.share_split.specs.declared.joining.JoinError.{JoinError};
ghost use Rattle.share_split.specs.declared.joining.JoinError.TheVariants.{NoStart, Short, BadVersion, NonZeroFill, BadVarint, BadReserved, MixedNamespace};
ghost use Rattle.share_split.specs.declared.walking.Form.{Form};
ghost use Rattle.share_split.specs.declared.walking.Form.TheVariants.{Blobs, Units};
ghost use Rattle.share_split.specs.Walks.{version_in, is_start, size_in, Sequence, missing, is_complete, is_version, is_filled, first_refusal, later_refusal, unit_refusal, blobs_joined, units_of, sequence_from, units_from, share_with};
ghost use Rattle.share_split.specs.JoinRefusals.{IsRefusedFor, IsFirstMisstated};
ghost use Rattle.share_split.specs.BlobLaws.{BlobSharesAreCounted, BlobSharesAreShares, PaddingIsShare, FewSharesHoldASequence};

use crate::{
    FIRST_COMPACT_CONTENT, FIRST_CONTENT, FIRST_SIGNED_CONTENT, LATER_COMPACT_CONTENT,
    LATER_CONTENT, LENGTH_PLACE, MAX_SEQUENCE_LENGTH, SIGNER_SIZE, SUBTREE_ROOT_THRESHOLD,
};

/// The constants are the numbers of the definitions, and the parts of a share fill it.
pub fn size_laws()
    ensures length_place { LENGTH_PLACE ≡ length_place }
    ensures first_content { FIRST_CONTENT ≡ first_content }
    ensures signer_size { SIGNER_SIZE ≡ signer_size }
    ensures first_signed_content { FIRST_SIGNED_CONTENT ≡ first_signed_content }
    ensures later_content { LATER_CONTENT ≡ later_content }
    ensures first_compact_content { FIRST_COMPACT_CONTENT ≡ first_compact_content }
    ensures later_compact_content { LATER_COMPACT_CONTENT ≡ later_compact_content }
    ensures max_sequence_length { MAX_SEQUENCE_LENGTH ≡ max_sequence_length }
    ensures subtree_root_threshold { SUBTREE_ROOT_THRESHOLD ≡ subtree_root_threshold }

    // Namespace, info byte, length of the sequence, signer or reserved bytes, content.
    ensures place { namespace_size + 1 ≡ length_place }
    ensures first { namespace_size + 1 + 4 + first_content ≡ share_size }
    ensures first_signed { namespace_size + 1 + 4 + signer_size + first_signed_content ≡ share_size }
    ensures later { namespace_size + 1 + later_content ≡ share_size }
    ensures first_compact { namespace_size + 1 + 4 + 4 + first_compact_content ≡ share_size }
    ensures later_compact { namespace_size + 1 + 4 + later_compact_content ≡ share_size }
    ensures length { max_sequence_length + 1 ≡ 2 ^ 32 }
{}

/// The laws of the shares of blobs and of padding. It changes nothing.
pub fn blob_laws()
    ensures counted { BlobSharesAreCounted }
    ensures shares { BlobSharesAreShares }
    ensures padding { PaddingIsShare }
    ensures few { FewSharesHoldASequence }
{}

/// Why shares that are read back are refused, and which share a refusal names. It changes nothing.
///
/// docs/RULES.md, "Reading shares".
pub fn refusal_laws()
    // The versions that a form may have.
    ensures blob_version { (version : ℕ) → (is_version Blobs version ≡ true) ↔ (version ≤ 1) }
    ensures unit_version { (version : ℕ) → (is_version Units version ≡ true) ↔ (version ≡ 0) }

    // Where no sequence is open: each cause where those before it aren't there.
    ensures first_version { (form : Form) (i : ℕ) (share : AShare) →
        (first_refusal form i share ≡ Some (BadVersion i))
        ↔ (is_version form (version_in share) ≡ false) }
    ensures first_start { (form : Form) (i : ℕ) (share : AShare) →
        (first_refusal form i share ≡ Some (NoStart i))
        ↔ ((is_version form (version_in share) ≡ true) × (is_start share ≡ false)) }
    ensures first_fill { (form : Form) (i : ℕ) (share : AShare) →
        (first_refusal form i share ≡ Some (NonZeroFill i))
        ↔ ((is_version form (version_in share) ≡ true) × (is_start share ≡ true)
        × (is_filled form (size_in share) share ≡ false)) }
    ensures first_none { (form : Form) (i : ℕ) (share : AShare) →
        (first_refusal form i share ≡ None)
        ↔ ((is_version form (version_in share) ≡ true) × (is_start share ≡ true)
        × (is_filled form (size_in share) share ≡ true)) }

    // Where one is open.
    ensures later_version { (form : Form) (i : ℕ) (s : Sequence) (share : AShare) →
        (later_refusal form i s share ≡ Some (BadVersion i)) ↔ (version_in share ≡ s.version → ⊥) }
    ensures later_name { (form : Form) (i : ℕ) (s : Sequence) (share : AShare) →
        (later_refusal form i s share ≡ Some (MixedNamespace i))
        ↔ ((version_in share ≡ s.version) × (name_in share ≡ s.name → ⊥)) }
    ensures later_start { (form : Form) (i : ℕ) (s : Sequence) (share : AShare) →
        (later_refusal form i s share ≡ Some (Short s.first))
        ↔ ((version_in share ≡ s.version) × (name_in share ≡ s.name)
        × (is_start share ≡ true)) }
    ensures later_fill { (form : Form) (i : ℕ) (s : Sequence) (share : AShare) →
        (later_refusal form i s share ≡ Some (NonZeroFill i))
        ↔ ((version_in share ≡ s.version) × (name_in share ≡ s.name) × (is_start share ≡ false)
        × (is_filled form (missing s) share ≡ false)) }
    ensures later_none { (form : Form) (i : ℕ) (s : Sequence) (share : AShare) →
        (later_refusal form i s share ≡ None)
        ↔ ((version_in share ≡ s.version) × (name_in share ≡ s.name) × (is_start share ≡ false)
        × (is_filled form (missing s) share ≡ true)) }

    // Behind the one sequence of units, where it is complete.
    ensures surplus_version { (i : ℕ) (s : Sequence) (share : AShare) → is_complete s ≡ true →
        (unit_refusal i (Some s) share ≡ Some (BadVersion i)) ↔ (version_in share ≡ 0 → ⊥) }
    ensures surplus_start { (i : ℕ) (s : Sequence) (share : AShare) → is_complete s ≡ true →
        (unit_refusal i (Some s) share ≡ Some (NoStart i)) ↔ (version_in share ≡ 0) }

    // The share that is named: the first one that is refused, numbered from 0; or the first share
    // of a sequence that is open where the list ends.
    ensures blobs { (shares : List AShare) (why : JoinError) →
        (blobs_joined shares ≡ Err why) ↔ IsRefusedFor Blobs shares why }
    ensures sequence { (shares : List AShare) (why : JoinError) →
        (sequence_from 0 None shares ≡ Err why) ↔ IsRefusedFor Units shares why }
    ensures units { (shares : List AShare) (why : JoinError) → IsRefusedFor Units shares why →
        units_of shares ≡ Err why }

    // Then, of the text of a sequence that was read: the share in which the first bad length begins;
    // then the first share whose reserved bytes don't state where its first unit starts.
    ensures varint { (shares : List AShare) (s : Sequence) (at : ℕ) →
        sequence_from 0 None shares ≡ Ok (Some s) → units_from 0 0 s.content ≡ Err at →
        units_of shares ≡ Err (BadVarint (share_with at)) }
    ensures in_first { (at : ℕ) → (share_with at ≡ 0) ↔ (at < first_compact_content) }
    ensures in_later { (at i : ℕ) → (share_with at ≡ i + 1)
        ↔ ((first_compact_content + i * later_compact_content ≤ at)
        × (at < first_compact_content + (i + 1) * later_compact_content)) }
    ensures reserved { (shares : List AShare) (s : Sequence) (units : List (List ℕ)) (i : ℕ) →
        sequence_from 0 None shares ≡ Ok (Some s) → units_from 0 0 s.content ≡ Ok units →
        units_of shares ≡ Err (BadReserved i) → IsFirstMisstated units shares i }
{}
