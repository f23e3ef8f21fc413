//! What is kept of the changes of each bound clock's code.

ghost use Rattle.std.specs.Prelude.{◌≡◌, ◌<◌, ◌↔◌, ◌++◌, [], ◌∷◌, map, not, length, IfOk, IsTrue};
ghost use Rattle.ccsl_base.specs.Clocks.{is_ascending, are_below};
ghost use Rattle.ccsl_vcd_read.specs.Marks.{put, ticking, aged};
ghost use Rattle.ccsl_vcd_read.specs.Kept.{put_in, put_all};

use crate::users::{Slot, User, Users};
use ccsl_base::{Block, ClockSet, MAX_CLOCKS, Memory};
use std::alloc::Global;
use std::marker::Model;

/// A bound clock, the number of its code, and its values now and at the last earlier time with a change. An event's
/// value now is whether it ticks.
#[derive(Clone, Copy)]
pub struct Mark {
    pub clock: u32,
    pub code: u32,
    pub event: bool,
    pub now: bool,
    pub before: bool,
}

// A change of a clock's code to a value that is 1 or not, in a dump block or not.
#[inline(always)]
fn put_in(now: &mut ClockSet, slot: Slot, one: bool, dumped: bool)
    requires { slot.clock < MAX_CLOCKS }
    ensures { now.new ≡ put_in slot one dumped now.old }
{
    if !slot.event {
        now.put(slot.clock, one);
    } else if !dumped {
        now.insert(slot.clock);
    }
}

// The same for each clock that has a code. It is a call, so that the loop over changes stays small.
#[inline(never)]
fn put_all(now: &mut ClockSet, slots: &[Slot], code: u32, one: bool, dumped: bool)
    requires { IsTrue (are_below MAX_CLOCKS (map (λ s. s.clock) slots.now)) }
    ensures { now.new ≡ put_all code one dumped slots.now now.old }
{
    for slot in slots {
        if slot.code == code {
            put_in(now, *slot, one, dumped);
        }
    }
}

/// The marks of all bound clocks, in order.
#[derive(Drop)]
pub(crate) struct Marks {
    slots: Vec<Slot>,
    users: Users,
    events: ClockSet,
    // the clocks that are 1 now, and at the last earlier time with a change
    ones: ClockSet,
    earlier: ClockSet,
}

impl Model for Marks {
    ghost use Rattle.std.specs.Prelude.{List, map};
    ghost use Rattle.ccsl_vcd_read.specs.declared.marks.Mark.{Mark};
    ghost use Rattle.ccsl_vcd_read.specs.Kept.{mark_in, AreKept};

    ghost Value = { List Mark };

    ghost view = { λ m. map (mark_in m.ones m.earlier) m.slots.items };

    ghost invariant = { λ m. AreKept m.slots.items m.users m.events m.ones };
}

impl Marks {
    pub(crate) fn new(alloc: Global) -> Marks
        ensures { result ≡ [] }
    {
        Marks {
            slots: Vec::new(alloc),
            users: Users::new(alloc),
            events: ClockSet::empty(),
            ones: ClockSet::empty(),
            earlier: ClockSet::empty(),
        }
    }

    /// One more mark, of a later clock, before the first change.
    pub(crate) fn push(&mut self, clock: u32, code: u32, event: bool) -> Result<(), Memory>
        requires later { IsTrue (is_ascending (map (λ m. m.clock) self.old ++ clock ∷ [])) }
        requires below { clock < MAX_CLOCKS }
        ensures { IfOk result (λ _. self.new ≡ self.old ++ record {
          clock = clock;
          code = code;
          event = event;
          now = not event;
          before = not event;
        } ∷ []) }
    {
        let slot = Slot { clock, code, event };
        self.slots.reserve(1)?;
        self.users.add(slot)?;
        self.slots.push_reserved(slot);
        self.events.put(clock, event);
        self.ones.put(clock, !event);
        self.earlier.put(clock, !event);
        Ok(())
    }

    /// A change of a code to a value that is 1 or not, in a dump block or not.
    #[inline(always)]
    pub(crate) fn change(&mut self, code: u32, one: bool, dumped: bool)
        ensures { self.new ≡ map (put code one dumped) self.old }
    {
        match self.users.of(code) {
            User::Nobody => {}
            User::One(slot) => put_in(&mut self.ones, slot, one, dumped),
            User::Many => put_all(&mut self.ones, self.slots.as_slice(), code, one, dumped),
        }
    }

    /// Whether no clock ticks at the present time.
    #[inline(always)]
    pub(crate) fn are_quiet(&self) -> bool
        ensures { IsTrue result ↔ (ticking self.now ≡ []) }
    {
        self.ones.ascends();
        self.ones.is_subset(&self.earlier)
    }

    /// Appends the row of the clocks that tick at the present time.
    #[inline(always)]
    pub(crate) fn push_row(&self, time: u64, out: &mut Block)
        requires { length out.old.rows < out.old.room }
        ensures { out.new ≡ record out.old {
          rows = out.old.rows ++ (record {
            time = time;
            ticks = ticking self.now;
          }) ∷ [];
        } }
    {
        self.ones.ascends();
        out.push_difference(time, &self.ones, &self.earlier);
    }

    /// A later time.
    #[inline(always)]
    pub(crate) fn age(&mut self)
        ensures { self.new ≡ map aged self.old }
    {
        self.earlier.copy_difference(&self.ones, &self.events);
        self.ones.copy_from(&self.earlier);
    }
}
