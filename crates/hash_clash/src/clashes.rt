//! SHA-256 collisions.

ghost use Rattle.std.specs.Prelude.{◌≡◌, ◌↔◌, IsSome, IsSomeAnd, IfSome, Some};
ghost use Rattle.sha2.specs.Sha256.{sha256};
ghost use Rattle.nmt_proofs.specs.Clashes.{IsClash};
ghost use Rattle.hash_clash.specs.Collisions.{strings_in};

use crate::Preimage;
use namespace_id::bytes_law;
use sha2::{Digest as _, Sha256};
use std::marker::Model;

/// A SHA-256 collision: two different strings with one digest. Each value of the type is one.
///
/// FIPS 180-4 for SHA-256; docs/RULES.md, "Collisions".
#[derive(Clone, Debug, Drop)]
pub struct Clash {
    left: Preimage,
    right: Preimage,
}

impl Model for Clash {
    ghost use Rattle.hash_clash.specs.Collisions.{Strings};

    ghost Value = { Strings };

    ghost use Rattle.nmt_proofs.specs.Clashes.{IsClash};

    ghost view = { λ c. record { left = c.left; right = c.right } };

    ghost invariant = { λ c. IsClash c.left c.right };
}

/// The SHA-256 digest of bytes.
fn digest_of(bytes: &[u8]) -> [u8; 32]
    ensures { result ≡ sha256 bytes.now }
{
    let mut hasher = Sha256::new();
    hasher.update(bytes);
    hasher.finalize()
}

impl Clash {
    /// The collision that two strings are; none where they are equal, then none where they have two
    /// digests, and both strings are gone then.
    pub fn of(left: Preimage, right: Preimage) -> Option<Clash>
        ensures some { IsSome result ↔ IsClash left right }
        ensures left { IfSome result (λ clash. clash.left ≡ left) }
        ensures right { IfSome result (λ clash. clash.right ≡ right) }
    {
        bytes_law(left.bytes());
        bytes_law(right.bytes());
        if left.bytes() == right.bytes() {
            return None;
        }
        if digest_of(left.bytes()) != digest_of(right.bytes()) {
            return None;
        }
        Some(Clash { left, right })
    }

    /// The collision that was found.
    pub(crate) fn found(strings: Option<(Preimage, Preimage)>) -> Clash
        requires { IsSomeAnd strings (λ pair. IsClash pair.0 pair.1) }
        ensures { strings ≡ Some (result.left, result.right) }
    {
        let Some((left, right)) = strings else {
            unreachable!()
        };
        Clash { left, right }
    }

    /// The collision that was found, if one was.
    pub(crate) fn found_in(strings: Option<(Preimage, Preimage)>) -> Option<Clash>
        requires { IfSome strings (λ pair. IsClash pair.0 pair.1) }
        ensures { strings_in result ≡ strings }
    {
        match strings {
            Some((left, right)) => Some(Clash { left, right }),
            None => None,
        }
    }

    /// The first string. That both are a collision is said with it.
    pub fn left(&self) -> &Preimage
        ensures value { result.now ≡ self.now.left }
        ensures clash { IsClash self.now.left self.now.right }
    {
        &self.left
    }

    /// The second string.
    pub fn right(&self) -> &Preimage
        ensures { result.now ≡ self.now.right }
    {
        &self.right
    }
}
