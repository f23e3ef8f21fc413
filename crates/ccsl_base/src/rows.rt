//! Rows of a trace, and bounded lists of them.

ghost use Rattle.std.specs.Prelude.{◌≡◌, ◌<◌, ◌≤◌, ◌↔◌, [], ◌∷◌, ◌++◌, IsTrue, IfOk, length, vec_len, slice_get, Some};
ghost use Rattle.ccsl_base.specs.Changes.{difference};

use crate::{ClockSet, Memory};
use std::alloc::Global;
use std::marker::Model;

/// A time at which some bound clock ticks, in the trace's unit, with the clocks that tick.
#[derive(Drop)]
pub struct Row {
    pub time: u64,
    pub ticks: ClockSet,
}

/// So many rows without ticks, to be written over.
pub fn blank_rows(alloc: Global, n: usize) -> Result<Vec<Row>, Memory>
    ensures { IfOk result (λ rows. vec_len rows ≡ n) }
{
    let mut rows = Vec::with_capacity(alloc, n)?;
    while rows.len() < n {
        rows.push_reserved(Row {
            time: 0,
            ticks: ClockSet::empty(),
        });
    }
    Ok(rows)
}

/// A list of rows that has room for a fixed number of them. Contracts see its `rows` and its `room`.
#[derive(Drop)]
pub struct Block {
    // as many as there is room for, which are filled again and again
    rows: Vec<Row>,
    // how many are filled
    len: usize,
}

impl Model for Block {
    ghost use Rattle.std.specs.Prelude.{◌≤◌, take, vec_len};
    ghost use Rattle.ccsl_base.specs.Rows.{RowList};

    ghost Value = { RowList };

    ghost view = { λ b. record { rows = take b.len b.rows.items; room = vec_len b.rows } };

    ghost invariant = { λ b. b.len ≤ vec_len b.rows };
}

impl Block {
    /// An empty block. It alone takes memory: that of all its rows.
    pub fn with_room(alloc: Global, n: usize) -> Result<Block, Memory>
        ensures { IfOk result (λ b. b ≡ record { rows = []; room = n }) }
    {
        let rows = blank_rows(alloc, n)?;
        Ok(Block { rows, len: 0 })
    }

    /// Adds a row behind the others. It takes no memory.
    #[inline(always)]
    pub fn push(&mut self, row: Row)
        requires { length self.old.rows < self.old.room }
        ensures { self.new ≡ record self.old { rows = self.old.rows ++ row ∷ [] } }
    {
        self.rows[self.len] = row;
        self.len += 1;
    }

    /// Appends a row whose clocks are the members of one set that are not another's. It is made in its place.
    #[inline(always)]
    pub fn push_difference(&mut self, time: u64, now: &ClockSet, earlier: &ClockSet)
        requires { length self.old.rows < self.old.room }
        ensures { self.new ≡ record self.old {
          rows = self.old.rows ++ (record {
            time = time;
            ticks = difference now.now earlier.now;
          }) ∷ [];
        } }
    {
        let row = &mut self.rows[self.len];
        row.time = time;
        row.ticks.copy_difference(now, earlier);
        self.len += 1;
    }

    /// Whether there is no room for another row.
    #[inline(always)]
    pub fn is_full(&self) -> bool
        ensures full { IsTrue result ↔ (length self.now.rows ≡ self.now.room) }
        ensures room { length self.now.rows ≤ self.now.room }
    {
        self.len == self.rows.len()
    }

    /// The number of rows.
    #[inline(always)]
    pub fn len(&self) -> usize
        ensures { result ≡ length self.now.rows }
    {
        self.len
    }

    /// Whether it has no rows.
    #[inline(always)]
    pub fn is_empty(&self) -> bool
        ensures { IsTrue result ↔ (self.now.rows ≡ []) }
    {
        self.len == 0
    }

    /// Row number `i`, from 0.
    #[inline(always)]
    pub fn row(&self, i: usize) -> &Row
        requires { i < length self.now.rows }
        ensures { slice_get self.now.rows i ≡ Some result.now }
    {
        &self.rows[i]
    }

    /// The rows so far, in order.
    #[inline(always)]
    pub fn rows(&self) -> &[Row]
        ensures { result.now ≡ self.now.rows }
    {
        &self.rows[..self.len]
    }

    /// Takes the rows out, and keeps the room.
    #[inline(always)]
    pub fn clear(&mut self)
        ensures { self.new ≡ record self.old { rows = [] } }
    {
        self.len = 0;
    }
}
