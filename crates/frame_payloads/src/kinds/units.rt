//! Units, as transactions, one after another behind their count.

ghost use Rattle.frame_payloads.specs.kinds.Units.{unit_at, unit_bytes};

use crate::codec::appending::put_text;
use crate::codec::items::Item;
use crate::codec::outs::{Full, Out};
use crate::codec::writing::Text;
use frame_fields::text_at;
use share_split::Unit;
use std::alloc::{AllocError, Global};
use std::marker::Model;

/// The greatest count or length: any number of four bytes.
pub(crate) const MOST: u32 = u32::MAX;

/// A list of units, as of transactions.
///
/// It is a type of its own so that clauses compare lists.
#[derive(Debug, Drop)]
pub struct UnitList {
    pub list: Vec<Unit>,
}

impl Model for UnitList {
    ghost use Rattle.std.specs.Prelude.{ℕ, List};

    ghost Value = { List (List ℕ) };

    ghost view = { λ u. u.list.items };
}

impl Item for Unit {
    ghost at = { unit_at };

    fn after(bytes: &[u8]) -> Option<&[u8]> {
        let (_text, rest) = text_at(bytes, MOST)?;
        Some(rest)
    }

    fn read(alloc: Global, bytes: &[u8]) -> Result<(Unit, &[u8]), AllocError> {
        let (text, rest) = text_at(bytes, MOST).unwrap();
        let bytes = Vec::from_slice(alloc, text)?;
        Ok((Unit { bytes }, rest))
    }
}

impl Text for Unit {
    ghost text = { unit_bytes };

    fn put<O: Out>(&self, out: &mut O) -> Result<(), Full> {
        put_text(out, &self.bytes)
    }
}
