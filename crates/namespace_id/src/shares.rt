//! Shares.

ghost use Rattle.std.specs.Prelude.{◌≡◌};
ghost use Rattle.namespace_id.specs.Shares.{IsShare, AreShares, name_in};

use crate::{NAMESPACE_SIZE, Namespace, SHARE_SIZE, bytes_law};

/// A share: 512 bytes, of which the first 29 are its namespace.
///
/// Celestia specifications, "Shares".
#[derive(Clone, Copy, Debug, PartialEq, Eq)]
pub struct Share(pub [u8; SHARE_SIZE]);

impl Share {
    /// The namespace that the share begins with, bytes 0 to 28.
    pub fn namespace(&self) -> Namespace
        ensures { result ≡ name_in self.now }
    {
        let mut bytes = [0; NAMESPACE_SIZE];
        bytes.copy_from_slice(&self.0[..NAMESPACE_SIZE]);
        Namespace(bytes)
    }
}

/// Says that a share has 512 bytes, each below 256. It changes nothing.
pub fn share_law(share: &Share)
    ensures { IsShare share.now }
{
    bytes_law(&share.0);
}

/// Says that each share of a slice has 512 bytes, each below 256. It changes nothing.
pub fn shares_law(shares: &[Share])
    ensures { AreShares shares.now }
{
    for share in shares {
        share_law(share);
    }
}
