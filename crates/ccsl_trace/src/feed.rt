//! A trace that is taken from a world, and whose rows are handed out block by block.

ghost use Rattle.std.specs.Prelude.{◌≡◌, ◌≢◌, ◌<◌, ℕ, List, [], length, true, false, None, Ok, Err, IfOk, IfErr, OnOk, OnErr, IfSome, IfNone, IsTrue};
ghost use Rattle.std.specs.Option.{option_copied};
ghost use Rattle.ccsl_base.specs.declared.rows.Row.{Row};
ghost use Rattle.ccsl_edge.specs.declared.slot.Slot.TheVariants.{Trace};
ghost use Rattle.ccsl_edge.specs.World.{State, Told};
ghost use Rattle.ccsl_bind.specs.Collected.{wanted_of};
ghost use Rattle.ccsl_vcd.specs.Binding.{Wanted};
ghost use Rattle.ccsl_trace.specs.Feeding.{bound_of, left_of, calls_left, Runs, Feeds, Gives, Nears};
ghost use Rattle.ccsl_trace.specs.Stepping.{IsNear, Turns, RefusesAll, RefusesIt, Finishes, GoesOn};
ghost use Rattle.ccsl_trace.specs.Traces.{Fails, IsUnread};

use crate::fault::{TraceFault, unread};
use crate::next::Next;
use ccsl_base::{BLOCK_ROWS, Block, ClockSet, HashKeys, Memory};
use ccsl_edge::{Pending, Slot, World};
use ccsl_kernel::System;
use ccsl_vcd::Limits;
use ccsl_vcd_read::{Counts, Reader};
use std::alloc::Global;
use std::marker::Model;

/// Takes a trace from a world, in pieces of at most `PIECE` bytes, and hands out its rows block by block.
pub struct Feed {
    pending: Pending,
    reader: Reader,
    block: Block,
    handed: bool,
    ended: Option<Counts>,
}

// By hand and not derived: to the prover, an early return then drops one by a single call.
impl Drop for Feed {
    fn drop(self) {
        let Feed {
            pending: _pending,
            reader: _reader,
            block: _block,
            handed: _,
            ended: _,
        } = self;
    }
}

impl Model for Feed {
    ghost use Rattle.ccsl_trace.specs.Feeding.{Feeding};

    ghost Value = { Feeding };

    ghost view = { λ f. record {
      reading = f.reader;
      pending = f.pending;
      block = f.block;
      handed = f.handed;
      ended = f.ended;
    } };
}

impl Feed {
    // With the limits by value, whose numbers are known to fit.
    fn begin(alloc: Global, keys: HashKeys, system: &System, limits: Limits) -> Result<Feed, Memory>
        ensures unbound { IfOk result (λ feed. bound_of feed ≡ None) }
        ensures feeds { IfOk result (λ feed. (told : Told) (now : State) →
            Feeds told (wanted_of system.now) limits now now feed []) }
    {
        let pending = Pending::open(alloc)?;
        let block = Block::with_room(alloc, BLOCK_ROWS)?;
        let reader = Reader::open(alloc, keys, system, &limits)?;
        Ok(Feed {
            pending,
            reader,
            block,
            handed: false,
            ended: None,
        })
    }

    /// A feed before the first byte of a trace. It takes all memory that is taken before the first read.
    pub fn open(
        alloc: Global,
        keys: HashKeys,
        system: &System,
        limits: &Limits,
    ) -> Result<Feed, Memory>
        ensures unbound { IfOk result (λ feed. bound_of feed ≡ None) }
        ensures feeds { IfOk result (λ feed. (told : Told) (now : State) →
            Feeds told (wanted_of system.now) limits.now now now feed []) }
    {
        Feed::begin(alloc, keys, system, *limits)
    }

    // The rows that were handed out make room.
    fn make_room(&mut self)
        ensures fresh { self.new.handed ≡ false }
        ensures kept { self.new ≡ record self.old {
          block = self.new.block;
          handed = false;
        } }
        ensures runs { (wanted : Wanted) (limits : Limits) (bytes : List ℕ) (rows : List Row) →
            Runs wanted limits bytes self.old rows → Runs wanted limits bytes self.new rows }
        ensures same { calls_left self.new ≡ calls_left self.old }
    {
        if self.handed {
            self.block.clear();
            self.handed = false;
        }
    }

    // Reads the next piece, where the last one was taken, and tells whether there is any.
    fn refill<W: World>(&mut self, world: &mut W) -> Result<bool, TraceFault>
        requires ended { self.old.ended ≡ None }
        ensures kept { self.new ≡ record self.old { pending = self.new.pending } }
        ensures some { IfOk result (λ more. more ≡ true → 0 < length self.new.pending) }
        ensures none { IfOk result (λ more. more ≡ false → self.new.pending ≡ []) }
        ensures left { IfOk result (λ more. more ≡ false → IsTrue W.told.left →
            ((W.state world.new).slot_of Trace).left ≡ []) }
        ensures feeds { OnOk result
            ((wanted : Wanted) (limits : Limits) (start : State) (rows : List Row) →
            Feeds W.told wanted limits start (W.state world.old) self.old rows →
            Feeds W.told wanted limits start (W.state world.new) self.new rows) }
        ensures fault { IfErr result (λ fault. fault ≡ TraceFault.Fault) }
        ensures fails { OnErr result
            ((wanted : Wanted) (limits : Limits) (start : State) (rows : List Row) →
            Feeds W.told wanted limits start (W.state world.old) self.old rows →
            Fails W.told wanted limits start (W.state world.new)) }
    {
        if !self.pending.is_empty() {
            return Ok(true);
        }
        match self.pending.refill(world, Slot::Trace, u64::MAX) {
            Ok(_count) => {}
            Err(_failed) => return Err(TraceFault::Fault),
        }
        Ok(!self.pending.is_empty())
    }

    // The reader takes of the piece what it can, and tells whether that ended the header.
    fn pass(&mut self) -> Result<bool, TraceFault>
        requires runs { (wanted : Wanted) × (limits : Limits) × (bytes : List ℕ) × (rows : List Row)
            × Runs wanted limits bytes self.old rows }
        requires fresh { self.old.handed ≡ false }
        requires some { 0 < length self.old.pending }
        requires room { length self.old.block.rows < self.old.block.room }
        ensures runs { OnOk result
            ((wanted : Wanted) (limits : Limits) (bytes : List ℕ) (rows : List Row) →
            Runs wanted limits bytes self.old rows → Runs wanted limits bytes self.new rows) }
        ensures fresh { self.new.handed ≡ false }
        ensures ended { self.new.ended ≡ self.old.ended }
        ensures closer { OnOk result (left_of self.new < left_of self.old) }
        ensures turns { IfOk result (λ ended. Turns ended (bound_of self.old) (bound_of self.new)) }
        ensures near { result ≡ Ok true →
            (wanted : Wanted) (limits : Limits) (bytes : List ℕ) (rows : List Row) →
            Runs wanted limits bytes self.old rows → IsNear wanted limits bytes }
        ensures refuses { IfErr result (λ fault.
            (wanted : Wanted) (limits : Limits) (bytes : List ℕ) (rows : List Row) →
            Runs wanted limits bytes self.old rows → RefusesAll fault wanted limits bytes) }
        ensures calm { IfSome (bound_of self.old) (λ _. result ≢ Err TraceFault.Memory) }
    {
        let taken = match self.reader.feed(self.pending.bytes(), &mut self.block) {
            Ok(taken) => taken,
            Err(fault) => return Err(unread(fault)),
        };
        self.pending.take(taken.bytes);
        Ok(taken.header_ended)
    }

    // The trace has ended. Where that has ended the header, the bound clocks are handed out first.
    fn finish(&mut self) -> Result<Next, TraceFault>
        requires runs { (wanted : Wanted) × (limits : Limits) × (bytes : List ℕ) × (rows : List Row)
            × Runs wanted limits bytes self.old rows }
        requires fresh { self.old.handed ≡ false }
        requires none { self.old.pending ≡ [] }
        requires room { length self.old.block.rows < self.old.block.room }
        ensures finishes { IfOk result (λ next.
            (wanted : Wanted) (limits : Limits) (bytes : List ℕ) (rows : List Row) →
            Runs wanted limits bytes self.old rows →
            Finishes next wanted limits bytes (bound_of self.old) self.new rows) }
        ensures refuses { IfErr result (λ fault.
            (wanted : Wanted) (limits : Limits) (bytes : List ℕ) (rows : List Row) →
            Runs wanted limits bytes self.old rows → RefusesIt fault wanted limits bytes) }
        ensures calm { IfSome (bound_of self.old) (λ _. result ≢ Err TraceFault.Memory) }
    {
        let late = self.reader.bound().is_none();
        let counts = match self.reader.finish(&mut self.block) {
            Ok(counts) => counts,
            Err(fault) => return Err(unread(fault)),
        };
        if late {
            self.ended = Some(counts);
            return Ok(Next::Bound);
        }
        Ok(Next::Ended(counts))
    }

    // One step: a full block, the end, or a part of a piece.
    fn step<W: World>(&mut self, world: &mut W) -> Result<Option<Next>, TraceFault>
        requires feeds { (wanted : Wanted) × (limits : Limits) × (start : State) × (rows : List Row)
            × Feeds W.told wanted limits start (W.state world.old) self.old rows }
        requires fresh { self.old.handed ≡ false }
        requires ended { self.old.ended ≡ None }
        ensures gives { IfOk result (λ found.
            IfSome found (λ next. (wanted : Wanted) (limits : Limits)
            (start : State) (rows : List Row) →
            Feeds W.told wanted limits start (W.state world.old) self.old rows →
            Gives W.told wanted limits start (W.state world.new) next
            (bound_of self.old) self.new rows)) }
        ensures nears { IfOk result (λ found. IfSome found (λ next. Nears next self.old self.new)) }
        ensures goes_on { IfOk result (λ found.
            IfNone found (GoesOn W.told (W.state world.old)
            (W.state world.new) self.old self.new)) }
        ensures unread { IfErr result (λ fault.
            (wanted : Wanted) (limits : Limits) (start : State) (rows : List Row) →
            Feeds W.told wanted limits start (W.state world.old) self.old rows →
            IsUnread W.told wanted limits start (W.state world.new) fault) }
        ensures calm { IfSome (bound_of self.old) (λ _. result ≢ Err TraceFault.Memory) }
    {
        if self.block.is_full() {
            self.handed = true;
            return Ok(Some(Next::Rows));
        }
        if !self.refill(world)? {
            return Ok(Some(self.finish()?));
        }
        if self.pass()? {
            return Ok(Some(Next::Bound));
        }
        Ok(None)
    }

    /// Reads on until something is to be handed out: the bound clocks where the header has ended, then each full block,
    /// and at last the end with the rest of the rows. After the end or a fault no other call is made. Memory is taken
    /// while the header is read, and where it ends.
    pub fn next<W: World>(&mut self, world: &mut W) -> Result<Next, TraceFault>
        requires feeds { (wanted : Wanted) × (limits : Limits) × (start : State) × (rows : List Row)
            × Feeds W.told wanted limits start (W.state world.old) self.old rows }
        // What is handed out follows what was handed out before, since any state that the feed has started from.
        ensures gives { IfOk result (λ next.
            (wanted : Wanted) (limits : Limits) (start : State) (rows : List Row) →
            Feeds W.told wanted limits start (W.state world.old) self.old rows →
            Gives W.told wanted limits start (W.state world.new) next
            (bound_of self.old) self.new rows) }
        ensures unread { IfErr result (λ fault.
            (wanted : Wanted) (limits : Limits) (start : State) (rows : List Row) →
            Feeds W.told wanted limits start (W.state world.old) self.old rows →
            IsUnread W.told wanted limits start (W.state world.new) fault) }
        // Once the bound clocks were handed out no memory is wanted.
        ensures calm { IfSome (bound_of self.old) (λ _. result ≢ Err TraceFault.Memory) }
        // A loop of calls ends.
        ensures nears { IfOk result (λ next. Nears next self.old self.new) }
    {
        if let Some(counts) = self.ended {
            return Ok(Next::Ended(counts));
        }
        self.make_room();
        loop {
            match self.step(world) {
                Ok(None) => {}
                Ok(Some(next)) => return Ok(next),
                Err(fault) => return Err(fault),
            }
        }
    }

    /// The bound clocks, once they were handed out.
    pub fn bound(&self) -> Option<&ClockSet>
        ensures { option_copied result ≡ bound_of self.now }
    {
        self.reader.bound()
    }

    /// The rows that were handed out last, with `Rows` or `Ended`.
    pub fn block(&self) -> &Block
        ensures { result.now ≡ self.now.block }
    {
        &self.block
    }
}
