//! What is shown of a namespace answer: where its entries found something.

use std::marker::Model;

/// Where something is found in a row: a range by the column of its first share and the number of its shares,
/// an absence by the column of its leaf.
#[derive(Clone, Copy)]
pub enum FoundPlace {
    Range { start: u16, count: u16 },
    Absence { pos: u16 },
}

/// The row of an entry of a namespace answer, and where something is found in it.
#[derive(Clone, Copy)]
pub struct EntryPlace {
    pub row: u16,
    pub found: FoundPlace,
}

/// Where the entries of a namespace answer found something.
///
/// It is a type of its own so that clauses compare lists.
#[derive(Drop)]
pub struct PlaceList {
    pub list: Vec<EntryPlace>,
}

impl Model for PlaceList {
    ghost use Rattle.std.specs.Prelude.{List};
    ghost use Rattle.frame_payloads.specs.declared.shown.EntryPlace.{EntryPlace};

    ghost Value = { List EntryPlace };

    ghost view = { λ p. p.list.items };
}
