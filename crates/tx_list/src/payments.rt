//! Payments for blobs, and lists of transactions that were read.

use share_split::{Blob, Unit};
use std::marker::Model;

/// A payment for blobs (PFB), as a block of the network carries it: the signed transaction, whose bytes aren't looked at, and
/// the blobs that it pays for. Its type keeps that it has a blob, and each of them a namespace of a blob and bytes.
///
/// docs/RULES.md, "A block of the network".
#[derive(Debug, Drop)]
pub struct Payment {
    pub tx: Vec<u8>,
    pub blobs: Vec<Blob>,
}

impl Model for Payment {
    ghost use Rattle.tx_list.specs.Payments.{PaymentParts, IsPayment};

    ghost Value = { PaymentParts };

    ghost view = { λ p. record { tx = p.tx.items; blobs = p.blobs.items } };

    ghost invariant = { λ p. IsPayment (record { tx = p.tx.items; blobs = p.blobs.items }) };
}

/// A list of transactions: those that pay for no blobs, and then the payments, both in the order of the block. Its type keeps
/// what those of the payments keep.
///
/// docs/RULES.md, "A block of the network".
#[derive(Debug, Drop)]
pub struct TxList {
    pub units: Vec<Unit>,
    pub payments: Vec<Payment>,
}

impl Model for TxList {
    ghost use Rattle.std.specs.List.{AllByRecursion};
    ghost use Rattle.tx_list.specs.Payments.{ListParts, IsPayment};

    ghost Value = { ListParts };

    ghost view = { λ l. record { units = l.units.items; payments = l.payments.items } };

    ghost invariant = { λ l. AllByRecursion IsPayment l.payments.items };
}
