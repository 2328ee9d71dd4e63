//! How many cells of each row and column are known, and the queue of those that came to have k.

ghost use Rattle.std.specs.Prelude.{◌≡◌, ◌+◌, ◌*◌, ◌≤◌, length, true, vec_len, vec_capacity};
ghost use Rattle.namespace_id.specs.Cells.{is_width};
ghost use Rattle.repair_queue.specs.Counting.{low};

use namespace_id::{Axis, NoMemory};
use std::alloc::Global;

/// How many cells of each row and column of a square are known, and a queue of those that came to
/// have k. Each enters it once, so there is capacity for each of those that have fewer than k.
#[derive(Drop)]
pub(crate) struct Counts {
    pub(crate) k: u16,
    pub(crate) rows: Vec<u16>,
    pub(crate) cols: Vec<u16>,
    pub(crate) queue: Vec<(Axis, u16)>,
    /// How many of the queue were taken.
    pub(crate) next: usize,
    ghost wide: { is_width k ≡ true },
    ghost row_count: { length rows.items ≡ 2 * k },
    ghost col_count: { length cols.items ≡ 2 * k },
    ghost used: { vec_len queue + low k rows.items + low k cols.items ≡ 4 * k },
    ghost room: { 4 * k ≤ vec_capacity queue },
    ghost taken: { next ≤ vec_len queue },
}

impl Counts {
    ghost use Rattle.std.specs.Prelude.{ℕ, ◌<◌, [], ◌∷◌, IsTrue, IsNone, IsSome, IfOk, IfSome, drop};
    ghost use Rattle.namespace_id.specs.declared.cells.Axis.{Axis as Along};
    ghost use Rattle.repair_queue.specs.Counts.{numbers_of, count_of, pending, IsRaised, AreQueued, IsOneMore};

    /// Counts of a square of width `k`, of which no cell is known.
    pub(crate) fn new(alloc: Global, k: u16) -> Result<Counts, NoMemory>
        requires width { IsTrue (is_width k) }
        ensures width { IfOk result (λ c. c.k ≡ k) }
        ensures none { IfOk result (λ c. (axis : Along) (i : ℕ) → count_of c axis i ≡ 0) }
    {
        let side = 2 * k as usize;
        let rows = vec![in alloc; 0; side]?;
        let cols = vec![in alloc; 0; side]?;
        let queue = Vec::with_capacity(alloc, 2 * side)?;
        Ok(Counts {
            k,
            rows,
            cols,
            queue,
            next: 0,
        })
    }

    /// How many cells of a row or a column are known.
    pub(crate) fn count(&self, axis: Axis, index: u16) -> u16
        requires index { index < 2 * self.now.k }
        ensures { result ≡ count_of self.now axis index }
    {
        match axis {
            Axis::Row => self.rows[index as usize],
            Axis::Col => self.cols[index as usize],
        }
    }

    /// Sets the number of a row or a column, which is greater by one than it was.
    fn put_more(rows: &mut Vec<u16>, cols: &mut Vec<u16>, axis: Axis, index: u16, more: u16)
        requires rows { index < length rows.old.items }
        requires cols { index < length cols.old.items }
        requires more { more ≡ numbers_of rows.old.items cols.old.items axis index + 1 }
        ensures { IsOneMore rows.old.items cols.old.items rows.new.items cols.new.items axis index
            more }
    {
        match axis {
            Axis::Row => rows[index as usize] = more,
            Axis::Col => cols[index as usize] = more,
        }
    }

    /// Counts one cell more of a row or a column. The one with which it has k puts it into the queue.
    pub(crate) fn raise(&mut self, axis: Axis, index: u16)
        requires index { index < 2 * self.old.k }
        requires below { count_of self.old axis index < 2 * self.old.k }
        ensures width { self.new.k ≡ self.old.k }
        ensures next { self.new.next ≡ self.old.next }
        ensures raised { IsRaised (count_of self.old) (count_of self.new) axis index }
        ensures queued { AreQueued self.old.k (count_of self.old) (count_of self.new)
            (pending self.old) (pending self.new) }
    {
        let more = self.count(axis, index) + 1;
        Counts::put_more(&mut self.rows, &mut self.cols, axis, index, more);
        if more == self.k {
            self.queue.push((axis, index)).unwrap();
        }
    }

    /// The first row or column of the queue.
    pub(crate) fn first_queued(&self) -> Option<(Axis, u16)>
        ensures some { IfSome result (λ x.
            pending self.now ≡ x ∷ drop (self.now.next + 1) self.now.queue.items) }
        ensures none { IsNone result → pending self.now ≡ [] }
        ensures left { IsSome result → self.now.next < vec_len self.now.queue }
    {
        if self.next == self.queue.len() {
            return None;
        }
        Some(self.queue[self.next])
    }

    /// Takes the first row or column out of the queue.
    pub(crate) fn pass_queued(&mut self)
        requires some { self.old.next < vec_len self.old.queue }
        ensures width { self.new.k ≡ self.old.k }
        ensures same { count_of self.new ≡ count_of self.old }
        ensures next { self.new.next ≡ self.old.next + 1 }
        ensures rest { pending self.new ≡ drop (self.old.next + 1) self.old.queue.items }
    {
        self.next += 1;
    }
}
