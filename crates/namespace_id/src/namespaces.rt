//! Namespaces and their order.

ghost use Rattle.std.specs.Prelude.{◌≡◌, ◌⊎◌, true};
ghost use Rattle.namespace_id.specs.Names.{is_at_most, is_zeros, parity, primary_reserved_padding, transaction, pay_for_blob, tail_padding, IsNamespace, AreNamespaces};
ghost use Rattle.namespace_id.specs.declared.namespaces.Namespace.{Namespace as Name};

use crate::{NAMESPACE_SIZE, bytes_law};
use thiserror::Error;

/// A namespace: a version byte and a 28-byte id. Namespaces compare as byte strings.
///
/// Celestia specifications, "Namespace".
#[derive(Clone, Copy, Debug, PartialEq, Eq, PartialOrd, Ord)]
pub struct Namespace(pub [u8; NAMESPACE_SIZE]);

/// The namespace of the shares that erasure coding adds: 29 bytes 0xFF.
///
/// Celestia specifications, "Namespace".
pub const PARITY: Namespace = Namespace([0xff; NAMESPACE_SIZE]);

/// The greatest of the namespaces of version 0 that are reserved: the id 0xFF.
///
/// Celestia specifications, "Namespace".
pub const PRIMARY_RESERVED_PADDING: Namespace = Namespace([
    0, 0, 0, 0, 0, 0, 0, 0, 0, 0, 0, 0, 0, 0, 0, 0, 0, 0, 0, 0, 0, 0, 0, 0, 0, 0, 0, 0, 0xff,
]);

/// The namespace of transactions: version 0, the id 1.
///
/// Celestia specifications, "Namespace".
pub const TRANSACTION: Namespace = Namespace([
    0, 0, 0, 0, 0, 0, 0, 0, 0, 0, 0, 0, 0, 0, 0, 0, 0, 0, 0, 0, 0, 0, 0, 0, 0, 0, 0, 0, 1,
]);

/// The namespace of payments for blobs: version 0, the id 4.
///
/// Celestia specifications, "Namespace".
pub const PAY_FOR_BLOB: Namespace = Namespace([
    0, 0, 0, 0, 0, 0, 0, 0, 0, 0, 0, 0, 0, 0, 0, 0, 0, 0, 0, 0, 0, 0, 0, 0, 0, 0, 0, 0, 4,
]);

/// The namespace of the padding behind everything else in a square: version 255, an id of 27 bytes
/// 0xFF and then 0xFE.
///
/// Celestia specifications, "Namespace".
pub const TAIL_PADDING: Namespace = Namespace([
    0xff, 0xff, 0xff, 0xff, 0xff, 0xff, 0xff, 0xff, 0xff, 0xff, 0xff, 0xff, 0xff, 0xff, 0xff, 0xff,
    0xff, 0xff, 0xff, 0xff, 0xff, 0xff, 0xff, 0xff, 0xff, 0xff, 0xff, 0xff, 0xfe,
]);

/// Why bytes are no namespace of a blob. The variants stand in the order in which they are tested.
#[derive(Clone, Copy, Debug, PartialEq, Eq, Error)]
pub enum NsError {
    /// There are not 29 bytes.
    #[error("a namespace has 29 bytes")]
    Length,
    /// The first byte isn't 0.
    #[error("the version of the namespace is not 0")]
    Version,
    /// One of the next 18 bytes isn't 0.
    #[error("the id of the namespace does not begin with 18 zero bytes")]
    Prefix,
    /// It isn't above `PRIMARY_RESERVED_PADDING`.
    #[error("the namespace is reserved")]
    Reserved,
}

/// Whether all bytes are 0.
pub fn is_zeros(bytes: &[u8]) -> bool
    ensures { result ≡ is_zeros bytes.now }
{
    bytes.iter().all(|byte| *byte == 0)
}

impl Namespace {
    ghost use Rattle.std.specs.Prelude.{◌≢◌, ◌↔◌, IsErrOf, IsOk, IfOk, IsTrue, length, slice_index, slice_range, false};
    ghost use Rattle.std.specs.Result.{result_err};
    ghost use Rattle.namespace_id.specs.Names.{is_at_most, is_parity, greater_of, is_reserved, is_blob_namespace, is_zeros, namespace_refusal};

    /// The namespace of a blob that these bytes are: one of version 0 that isn't reserved.
    ///
    /// Refuses, in this order: not 29 bytes (`Length`), a first byte that isn't 0 (`Version`), another
    /// byte than 0 among the next 18 (`Prefix`), a namespace not above `PRIMARY_RESERVED_PADDING`
    /// (`Reserved`).
    ///
    /// Celestia specifications, "Namespace".
    pub fn blob(bytes: &[u8]) -> Result<Namespace, NsError>
        ensures accepts { IsOk result ↔ IsTrue (is_blob_namespace bytes.now) }
        ensures length { IsErrOf result NsError.Length ↔ (length bytes.now ≢ 29) }
        ensures version { IsErrOf result NsError.Version ↔
            (length bytes.now ≡ 29) × (slice_index bytes.now 0 ≢ 0) }
        ensures prefix { IsErrOf result NsError.Prefix ↔
            (length bytes.now ≡ 29) × (slice_index bytes.now 0 ≡ 0) ×
            (is_zeros (slice_range bytes.now 1 19) ≡ false) }
        ensures reserved { IsErrOf result NsError.Reserved ↔
            (length bytes.now ≡ 29) × (slice_index bytes.now 0 ≡ 0) ×
            (is_zeros (slice_range bytes.now 1 19) ≡ true) × (is_reserved bytes.now ≡ true) }
        ensures first { result_err result ≡ namespace_refusal bytes.now }

        // What comes in is what is kept.
        ensures value { IfOk result (λ name. name.0 ≡ bytes.now) }
    {
        if bytes.len() != NAMESPACE_SIZE {
            return Err(NsError::Length);
        }
        if bytes[0] != 0 {
            return Err(NsError::Version);
        }
        if !is_zeros(&bytes[1..19]) {
            return Err(NsError::Prefix);
        }
        let mut text = [0; NAMESPACE_SIZE];
        text.copy_from_slice(bytes);
        let name = Namespace(text);
        if name.is_at_most(&PRIMARY_RESERVED_PADDING) {
            return Err(NsError::Reserved);
        }
        Ok(name)
    }

    /// Whether this is not above the other.
    pub fn is_at_most(&self, other: &Namespace) -> bool
        ensures { result ≡ is_at_most self.now other.now }
    {
        self.cmp(other).is_le()
    }

    /// Whether this is the namespace of the shares that erasure coding adds.
    pub fn is_parity(&self) -> bool
        ensures { result ≡ is_parity self.now }
    {
        *self == PARITY
    }

    /// The greater of two namespaces.
    pub fn greater(self, other: Namespace) -> Namespace
        ensures { result ≡ greater_of self other }
    {
        if self.is_at_most(&other) { other } else { self }
    }
}

/// Says that a namespace has 29 bytes, each below 256. It changes nothing.
pub fn namespace_law(name: &Namespace)
    ensures { IsNamespace name.now }
{
    bytes_law(&name.0);
}

/// Says that each namespace of a slice has 29 bytes, each below 256. It changes nothing.
pub fn namespaces_law(names: &[Namespace])
    ensures { AreNamespaces names.now }
{
    for name in names {
        namespace_law(name);
    }
}

/// The namespaces that the standard names are these bytes.
pub fn reserved_namespaces()
    ensures parity { PARITY ≡ parity }
    ensures primary_reserved_padding { PRIMARY_RESERVED_PADDING ≡ primary_reserved_padding }
    ensures transaction { TRANSACTION ≡ transaction }
    ensures pay_for_blob { PAY_FOR_BLOB ≡ pay_for_blob }
    ensures tail_padding { TAIL_PADDING ≡ tail_padding }
{}

/// The order of namespaces is total, and none is above `PARITY`.
pub fn namespace_order()
    ensures reflexive { (a : Name) → is_at_most a a ≡ true }
    ensures transitive { (a b c : Name) → is_at_most a b ≡ true → is_at_most b c ≡ true →
        is_at_most a c ≡ true }
    ensures antisymmetric { (a b : Name) → is_at_most a b ≡ true → is_at_most b a ≡ true →
        a ≡ b }
    ensures total { (a b : Name) → (is_at_most a b ≡ true) ⊎ (is_at_most b a ≡ true) }
    ensures parity { (a : Name) → IsNamespace a → is_at_most a parity ≡ true }
{}
