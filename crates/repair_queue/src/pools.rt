//! The samples that were given and are kept: at most one for each cell along each axis.
//!
//! Those of a row or a column that is decided are taken out, and none is put in for its cells. While
//! a row isn't decided fewer than k of its cells are known when a sample comes, each with at most two
//! samples. So a row has at most 2k - 1 samples, and all have fewer than (2k)^2.

ghost use Rattle.std.specs.Prelude.{◌≡◌, ◌+◌, ◌*◌, ◌<◌, ◌≤◌, ℕ, IsTrue, IfOk, OnOk, MatchOption, None, Some, true, false, length, get_or, vec_len, vec_capacity};
ghost use Rattle.namespace_id.specs.declared.cells.Cell.{Cell as Place};
ghost use Rattle.namespace_id.specs.declared.cells.Axis.{Axis as Along};
ghost use Rattle.namespace_id.specs.Cells.{is_width, is_in_square};
ghost use Rattle.axis_roots.specs.Proved.{kept_message};
ghost use Rattle.repair_queue.specs.Slots.{IsPut, IsEmptied, IsApart, IsAlike};
ghost use Rattle.repair_queue.specs.Pools.{slot_in, samples_of_row, IsStored, HasPlace, HasFullCapacity, KeepsCapacity};

use crate::placing::Places;
use axis_roots::Proved;
use namespace_id::{Axis, Cell, NoMemory, Share};
use std::alloc::Global;
use std::marker::Model;

/// Samples of the cells of a square, at most one for each cell along each axis. Places are used again,
/// so no more memory is written than was needed at once. With capacity for a place for each cell it
/// takes no memory later.
#[derive(Drop)]
pub(crate) struct Pool {
    /// The place of each cell's sample along its row and along its column; 0 where none is kept.
    places: Places,
    /// An empty place, and behind it the samples and the free places.
    given: Vec<Option<Proved>>,
    /// The places of samples that were taken out, until others are put there.
    free: Vec<usize>,
}

impl Model for Pool {
    ghost use Rattle.std.specs.Prelude.{vec_capacity};
    ghost use Rattle.std.specs.Coded.{codes};
    ghost use Rattle.axis_roots.specs.contracts.message.proved.Proved as proved;
    ghost use Rattle.repair_queue.specs.Places.{cell_place};
    ghost use Rattle.repair_queue.specs.Pools.{PoolParts, IsPool};

    ghost Value = { PoolParts };

    ghost coded = { Prim.hlevel (codes, proved.the_row.coded) };

    ghost view = { λ p. record { places = p.places; given = p.given.items; free = p.free.items; capacity = vec_capacity p.given } };

    ghost invariant = { λ p. IsPool p.places.k (cell_place p.places) p.given.items p.free.items (vec_capacity p.free) };
}

/// Stores a sample at a free place, else behind all others, and answers where.
fn store(given: &mut Vec<Option<Proved>>, free: &mut Vec<usize>, kept: Proved) -> usize
    requires within { (i : ℕ) → i < length free.old.items →
        get_or free.old.items i 0 < length given.old.items }
    requires capacity { length free.old.items ≡ 0 → vec_len given.old < vec_capacity given.old }
    ensures stored { IsStored given.old.items given.new.items free.old.items free.new.items kept
        result }
    ensures given { vec_capacity given.old ≤ vec_capacity given.new }
    ensures free { vec_capacity free.new ≡ vec_capacity free.old }
{
    match free.pop() {
        Some(place) => {
            given[place] = Some(kept);
            place
        }
        None => {
            let place = given.len();
            given.push(Some(kept)).unwrap();
            place
        }
    }
}

impl Pool {
    /// A pool for a square of width `k`, in which no sample is kept, with capacity for so many places,
    /// the first of which stays empty.
    pub(crate) fn new(alloc: Global, k: u16, places: usize) -> Result<Pool, NoMemory>
        requires width { IsTrue (is_width k) }
        ensures width { IfOk result (λ p. p.places.k ≡ k) }
        ensures capacity { IfOk result (λ p. places ≤ p.capacity) }
        ensures empty { IfOk result
            (λ p. (axis : Along) (cell : Place) → slot_in p axis cell ≡ None) }
    {
        let table = Places::new(alloc, k)?;
        let mut given = Vec::with_capacity(alloc, places)?;
        let Ok(()) = given.push(None) else {
            return Err(NoMemory);
        };
        let side = 2 * k as usize;
        let free = Vec::with_capacity(alloc, side * side)?;
        Ok(Pool {
            places: table,
            given,
            free,
        })
    }

    /// With capacity for as many places as there are cells there is a place for one sample more. It changes nothing.
    pub(crate) fn place_law(&self)
        ensures { HasFullCapacity self.now → HasPlace self.now }
    {
        let _given = &self.given;
    }

    /// Takes memory for one place more, where none is free and there is no capacity for one. It changes
    /// no sample, and fails only where there is no memory.
    pub(crate) fn make_place(&mut self) -> Result<(), NoMemory>
        ensures kept { self.new ≡ record self.old { capacity = self.new.capacity } }
        ensures place { OnOk result (HasPlace self.new) }
    {
        if !self.free.is_empty() {
            return Ok(());
        }
        let Ok(()) = self.given.reserve(1) else {
            return Err(NoMemory);
        };
        Ok(())
    }
}

/// The sample that is kept of a cell along an axis.
pub(crate) fn held_in(pool: &Pool, axis: Axis, cell: Cell) -> Option<&Proved>
    requires cell { is_in_square pool.now.places.k cell ≡ true }
    ensures { MatchOption result (slot_in pool.now axis cell ≡ None)
        (λ kept. slot_in pool.now axis cell ≡ Some kept.now) }
{
    pool.given[pool.places.at(axis, cell)].as_ref()
}

/// Keeps a sample, of whose cell none is kept along its axis. Its row has room for one more, and
/// there is a place for it.
pub(crate) fn put_in(pool: &mut Pool, kept: Proved)
    requires place { HasPlace pool.old }
    requires cell { is_in_square pool.old.places.k (kept_message kept).cell ≡ true }
    requires empty { slot_in pool.old (kept_message kept).axis (kept_message kept).cell ≡ None }
    requires few { samples_of_row pool.old.places.k (slot_in pool.old) (kept_message kept).cell.row
        + 1 < 2 * pool.old.places.k }
    ensures width { pool.new.places.k ≡ pool.old.places.k }
    ensures put { IsPut (slot_in pool.old) (slot_in pool.new) (kept_message kept).axis
        (kept_message kept).cell kept }
    ensures capacity { KeepsCapacity pool.old pool.new }
{
    let message = kept.message();
    let (axis, cell) = (message.axis, message.cell);
    let place = store(&mut pool.given, &mut pool.free, kept);
    pool.places.set(axis, cell, place);
}

/// Takes the sample of a cell along an axis out, where one is kept. Its place is free then.
pub(crate) fn take_out(pool: &mut Pool, axis: Axis, cell: Cell) -> Option<Proved>
    requires cell { is_in_square pool.old.places.k cell ≡ true }
    ensures value { result ≡ slot_in pool.old axis cell }
    ensures width { pool.new.places.k ≡ pool.old.places.k }
    ensures emptied { IsEmptied (slot_in pool.old) (slot_in pool.new) axis cell }
    ensures capacity { KeepsCapacity pool.old pool.new }
{
    let place = pool.places.at(axis, cell);
    if pool.given[place].is_none() {
        return None;
    }
    pool.free.push(place).unwrap();
    pool.places.set(axis, cell, 0);
    pool.given[place].take()
}

/// Whether a sample is kept of a cell along an axis and shows another share than this one.
pub(crate) fn is_other(pool: &Pool, axis: Axis, cell: Cell, share: &Share) -> bool
    requires cell { is_in_square pool.now.places.k cell ≡ true }
    ensures other { result ≡ true → IsApart (slot_in pool.now axis cell) share.now }
    ensures same { result ≡ false → IsAlike (slot_in pool.now axis cell) share.now }
{
    match held_in(pool, axis, cell) {
        Some(kept) => kept.message().share != *share,
        None => false,
    }
}
