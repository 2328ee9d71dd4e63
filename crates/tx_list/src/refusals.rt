//! Why a list of transactions has no square, and a square no list.

use namespace_id::NsError;
use share_split::JoinError;
use thiserror::Error;

/// Why a list of transactions has no square. The variants stand in the order in which the checks of one transaction come; the
/// first transaction that fails one is named, and the size is the last check of all.
#[derive(Clone, Copy, Debug, PartialEq, Eq, Error)]
pub enum ListError {
    /// This transaction, counted from 0, is no payment, and stands behind one.
    #[error("transaction {0} is no payment for blobs and stands behind one")]
    Behind(u64),
    /// This transaction is a payment for no blobs.
    #[error("transaction {0} pays for no blobs")]
    NoBlobs(u64),
    /// The namespace of this transaction's blob isn't one of a blob.
    #[error("the namespace of blob {1} of transaction {0} is not one of a blob: {2}")]
    BadBlob(u64, u64, NsError),
    /// The share version of this transaction's blob isn't 0 without a signer, and not 1 with a signer of 20 bytes.
    #[error("the share version of blob {1} of transaction {0} is not 0 without a signer or 1 with one")]
    BadVersion(u64, u64),
    /// This transaction's blob has no bytes.
    #[error("blob {1} of transaction {0} has no bytes")]
    NoBytes(u64, u64),
    /// The square may have to hold so many shares, more than the greatest has; 2^64 - 1 stands for any greater number.
    #[error("the list may take {0} shares, more than 262144")]
    TooLarge(u64),
    /// There was no memory.
    #[error("out of memory")]
    NoMemory,
}

/// Why a square isn't one that a list of transactions is laid out as. The variants but the last stand in the order in which
/// they are tested; of the payments in turn, `Wrapper` comes before `Index`.
///
/// The first front of a square is the longest run of shares of namespace `TRANSACTION` from share 0 on, and the second the
/// longest run of `PAY_FOR_BLOB` shares behind it.
#[derive(Clone, Copy, Debug, PartialEq, Eq, Error)]
pub enum BackError {
    /// The first front isn't read as units. The share is counted from 0.
    #[error("the shares of plain transactions are not read: {0}")]
    Units(JoinError),
    /// The second front isn't read as units. The share is counted from the first one of this front.
    #[error("the shares of payments are not read: {0}")]
    Payments(JoinError),
    /// This unit of the second front, counted from 0, isn't a transaction wrapped with at least one place, each below 2^32, in
    /// its one spelling.
    #[error("payment {0} is no transaction with the places of its blobs")]
    Wrapper(u64),
    /// At this place of this payment, both counted from 0, begins no sequence that is read as one blob.
    #[error("no blob begins at place {1} of payment {0}")]
    Index(u64, u64),
    /// The list that is read of the square isn't laid out as this square: this is the first share in which both differ. Where
    /// their widths do, it is the first behind the lesser square, and 0 where the list has no square.
    #[error("the list is laid out otherwise from share {0} on")]
    Unlike(u64),
    /// There was no memory.
    #[error("out of memory")]
    NoMemory,
}
