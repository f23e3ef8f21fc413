//! The pass over a dump.

ghost use Rattle.std.specs.Prelude.{◌≡◌, ◌<◌, ◌≤◌, ◌++◌, ℕ, List, [], length, true, false, Err, IfOk, IfErr, OnOk};
ghost use Rattle.ccsl_edge.specs.World.{State, Told};
ghost use Rattle.ccsl_scopes.specs.Headings.{Heading};
ghost use Rattle.ccsl_scopes.specs.Standing.{IsHeaderOf};
ghost use Rattle.ccsl_events.specs.Dump.{Plan, begin};
ghost use Rattle.ccsl_events.specs.Standing.{Stands};
ghost use Rattle.ccsl_events_top.specs.Passing.{Passes, HasAll, Refills, InHeader, HasHeader, IsUnopened, HeadsOn, StepsHeader};
ghost use Rattle.ccsl_events_top.specs.Passing.{Begins, InBody, BodyOn, StepsBody, IsStopped, EndsBody};
ghost use Rattle.ccsl_events_top.specs.Writing.{MayWrite};

use crate::sink::{Sink, write_block};
use crate::stop::Stop;
use ccsl_base::{HashKeys, MAX_FILE_BYTES, Memory};
use ccsl_edge::{Pending, Slot, World};
use ccsl_events::{Body, FULL, Reader};
use ccsl_scopes::Header;
use ccsl_vcd::{LIMITS, VcdFault};
use std::alloc::Global;

/// The room of a block: behind a full one there is some for a row.
const ROOM: usize = FULL + 8_192;

/// What is kept of a pass. All memory of the body is taken before it begins.
pub(crate) struct Pass {
    pub(crate) pending: Pending,
    // how many bytes were read, of which one may be past the limit
    pub(crate) read: u64,
    // whether there are no more, and a line feed was given behind them, which ends the last token
    pub(crate) has_ended: bool,
    pub(crate) reader: Reader,
    pub(crate) block: Vec<u8>,
}

// By hand and not derived: to the prover, an early return then drops one by a single call.
impl Drop for Pass {
    fn drop(self) {
        let Pass {
            pending: _pending,
            read: _,
            has_ended: _,
            reader: _reader,
            block: _block,
        } = self;
    }
}

impl Pass {
    /// A pass before the first byte of a dump.
    pub(crate) fn new(alloc: Global, keys: HashKeys) -> Result<Pass, Memory>
        ensures { IfOk result (λ pass. (told : Told) (sink : Sink) (now : State) →
            InHeader told sink now now pass) }
    {
        Ok(Pass {
            pending: Pending::open(alloc)?,
            read: 0,
            has_ended: false,
            reader: Reader::open(alloc, keys, LIMITS)?,
            block: Vec::with_capacity(alloc, ROOM)?,
        })
    }

    // Reads the next piece, and tells whether there is one. A byte past the limit is not kept.
    fn refill<W: World>(&mut self, world: &mut W) -> Result<bool, Stop>
        requires taken { self.old.pending ≡ [] }
        requires goes_on { self.old.has_ended ≡ false }
        ensures reads { (sink : Sink) (start : State) (given written : List ℕ) →
            Passes W.told sink start (W.state world.old) self.old given written →
            Refills W.told sink start (W.state world.new) result self.new given written }
        ensures kept { self.new ≡ record self.old {
          pending = self.new.pending;
          read = self.new.read;
        } }
        ensures some { IfOk result (λ more. more ≡ true → 0 < length self.new.pending) }
        ensures open { (sink : Sink) → MayWrite sink (W.state world.old) →
            MayWrite sink (W.state world.new) }
    {
        if self.read > MAX_FILE_BYTES {
            return Err(Stop::Trace(VcdFault::TooLong { at: MAX_FILE_BYTES }));
        }
        let left = MAX_FILE_BYTES - self.read;
        let count = self.pending.refill(world, Slot::Trace, left)?;
        self.read = self.read.saturating_add(count);
        if count == 0 {
            return Ok(false);
        }
        if self.pending.is_empty() {
            return Err(Stop::Trace(VcdFault::TooLong { at: MAX_FILE_BYTES }));
        }
        Ok(true)
    }

    // Gives the reader bytes that wait, up to the header's end or to where the block is full.
    fn feed(&mut self) -> Result<(), VcdFault>
        requires { 0 < length self.old.pending }
        ensures header { (told : Told) (sink : Sink) (start now : State) →
            InHeader told sink start now self.old →
            HeadsOn told sink start now result self.old.reader.taken self.new }
        ensures body { (told : Told) (sink : Sink) (start now : State)
            (plan : Plan) (head text : List ℕ) →
            InBody told sink start now plan head text self.old →
            BodyOn told sink start now result plan head text self.old.reader.taken self.new }
    {
        let taken = self.reader.feed(self.pending.bytes(), &mut self.block)?;
        self.pending.take(taken);
        Ok(())
    }

    // Behind the last byte of the dump a line feed ends its last token.
    fn end_token(&mut self) -> Result<(), VcdFault>
        requires goes_on { self.old.has_ended ≡ false }
        ensures header { (told : Told) (sink : Sink) (start now : State)
            (i : InHeader told sink start now self.old) →
            HasAll told sink start now self.old i.given [] →
            HeadsOn told sink start now result self.old.reader.taken self.new }
        ensures body { (told : Told) (sink : Sink) (start now : State)
            (plan : Plan) (head text : List ℕ)
            (i : InBody told sink start now plan head text self.old) →
            HasAll told sink start now self.old (head ++ i.given) i.written →
            BodyOn told sink start now result plan head text self.old.reader.taken self.new }
    {
        self.has_ended = true;
        self.reader.feed(b"\n", &mut self.block)?;
        Ok(())
    }

    // Gives the reader what comes next. There is nothing more where it answers false.
    fn step<W: World>(&mut self, world: &mut W) -> Result<bool, Stop>
        ensures header { (sink : Sink) (start : State) →
            InHeader W.told sink start (W.state world.old) self.old →
            StepsHeader W.told sink start (W.state world.new) result
            self.old.reader.taken self.new }
        ensures body { (sink : Sink) (start : State) (plan : Plan) (head text : List ℕ) →
            InBody W.told sink start (W.state world.old) plan head text self.old →
            StepsBody W.told sink start (W.state world.new) result plan head text
            self.old.reader.taken self.new }
        ensures open { (sink : Sink) → MayWrite sink (W.state world.old) →
            MayWrite sink (W.state world.new) }
    {
        if !self.pending.is_empty() {
            self.feed()?;
            return Ok(true);
        }
        if self.has_ended {
            return Ok(false);
        }
        if self.refill(world)? {
            self.feed()?;
            return Ok(true);
        }
        self.end_token()?;
        Ok(true)
    }

    /// Reads the header.
    pub(crate) fn header<W: World>(&mut self, world: &mut W) -> Result<Header, Stop>
        requires begins { (sink : Sink) × (start : State)
            × InHeader W.told sink start (W.state world.old) self.old }
        ensures ok { IfOk result (λ header. (sink : Sink) (start : State) →
            InHeader W.told sink start (W.state world.old) self.old →
            (h : Heading) × IsHeaderOf h header × HasHeader W.told sink start
            (W.state world.new) h self.new) }
        ensures err { IfErr result (λ stop. (sink : Sink) (start : State) →
            InHeader W.told sink start (W.state world.old) self.old →
            IsUnopened W.told sink start (W.state world.new) stop) }
    {
        loop {
            if !self.step(world)? {
                return Err(Stop::Trace(VcdFault::Truncated { at: self.read }));
            }
            match self.reader.take_header() {
                Some(header) => return Ok(header),
                None => {}
            }
        }
    }

    /// The body begins, behind a header that is to be written.
    pub(crate) fn begin(&mut self, body: Body, header: Vec<u8>) -> Result<(), Memory>
        ensures { OnOk result
            ((told : Told) (sink : Sink) (start now : State) (h : Heading) (plan : Plan)
            (x : HasHeader told sink start now h self.old) → Stands plan begin body →
            Begins told sink start now plan x.given header.items self.new) }
    {
        self.reader.begin(body);
        self.block.extend_from_slice(header.as_slice())?;
        self.block.reserve(ROOM)?;
        Ok(())
    }

    // Writes what waits, and stops. Of what waits behind want of memory nothing is known.
    fn stop<W: World>(&mut self, world: &mut W, sink: Sink, stop: Stop) -> Stop
        requires open { MayWrite sink (W.state world.old) }
        ensures { (start : State) (plan : Plan) (head text : List ℕ) (before : ℕ) →
            StepsBody W.told sink start (W.state world.old) (Err stop) plan head text before
            self.old →
            IsStopped W.told sink start (W.state world.new) plan head text result }
    {
        if let Stop::Memory = stop {
            return Stop::Memory;
        }
        match write_block(world, sink, &mut self.block) {
            Ok(()) => stop,
            Err(_failed) => Stop::Fault,
        }
    }

    // Ends the dump.
    fn end<W: World>(&mut self, world: &mut W, sink: Sink) -> Result<u64, Stop>
        requires open { MayWrite sink (W.state world.old) }
        requires over { self.old.has_ended ≡ true }
        ensures { (start : State) (plan : Plan) (head text : List ℕ) →
            InBody W.told sink start (W.state world.old) plan head text self.old →
            EndsBody W.told sink start (W.state world.new) result plan head text }
    {
        match self.reader.finish(self.read, &mut self.block) {
            Ok(()) => {}
            Err(fault) => return Err(self.stop(world, sink, Stop::from(fault))),
        }
        write_block(world, sink, &mut self.block)?;
        Ok(self.reader.times())
    }

    /// Reads the body and writes its rows, of which behind a fault of the dump there are those before it. It answers
    /// how many times have one.
    pub(crate) fn body<W: World>(&mut self, world: &mut W, sink: Sink) -> Result<u64, Stop>
        requires open { MayWrite sink (W.state world.old) }
        requires begins { (start : State) × (plan : Plan) × (head : List ℕ) × (text : List ℕ)
            × InBody W.told sink start (W.state world.old) plan head text self.old }
        ensures { (start : State) (plan : Plan) (head text : List ℕ) →
            InBody W.told sink start (W.state world.old) plan head text self.old →
            EndsBody W.told sink start (W.state world.new) result plan head text }
    {
        loop {
            match self.step(world) {
                Ok(true) => {}
                Ok(false) => return self.end(world, sink),
                Err(stop) => return Err(self.stop(world, sink, stop)),
            }
            if self.block.len() >= FULL {
                write_block(world, sink, &mut self.block)?;
            }
        }
    }
}
