//! What makes a name happen, over the variables that are kept.

ghost use Rattle.std.specs.Prelude.{◌≡◌, ℕ, true};
ghost use Rattle.std.specs.List.{list_all};
ghost use Rattle.ccsl_triggers.specs.Views.{View};
ghost use Rattle.ccsl_triggers.specs.Triggers.{value_before, value_after, part, rises, falls, differs, meets, begins, of_values, of_part, view_at, variable_of};
ghost use Rattle.ccsl_triggers.specs.Triggers.{sets_off, held_before, happens};

use crate::signal::Signal;
use ccsl_scopes::Bits;

/// Bits of a variable, which is named by its number.
#[derive(Clone, Copy)]
pub struct Part {
    pub signal: usize,
    pub bits: Bits,
}

/// Letters that some bits are to be, or not to be.
pub struct Goal {
    pub part: Part,
    pub is_equal: bool,
    pub letters: Vec<u8>,
}

// By hand and not derived: to the prover, an early return then drops one by a single call.
impl Drop for Goal {
    fn drop(self) {
        let Goal {
            part: _,
            is_equal: _,
            letters: _letters,
        } = self;
    }
}

/// What sets a name off, by the values before the present time and after it. A part of `Rise` and `Fall` is one bit.
#[derive(Drop)]
pub enum Trigger {
    Rise(Part),
    Fall(Part),
    Change(Part),
    /// the goal is met after the time, and was not before
    Becomes(Goal),
    /// an event was recorded of the variable with this number, outside a dump block
    Record(usize),
}

/// A name that is waited for: what sets it off, and what has to be met before the present time.
pub struct Watch {
    pub trigger: Trigger,
    pub conditions: Vec<Goal>,
}

// By hand and not derived: to the prover, an early return then drops one by a single call.
impl Drop for Watch {
    fn drop(self) {
        let Watch {
            trigger: _trigger,
            conditions: _conditions,
        } = self;
    }
}

#[inline(always)]
fn letters_of(bits: Bits, letters: &[u8]) -> &[u8]
    ensures { result.now ≡ part bits letters.now }
{
    let end = letters.len().saturating_sub(bits.low as usize);
    let start = end.saturating_sub(bits.width as usize);
    &letters[start..end]
}

fn rises(before: &[u8], after: &[u8]) -> bool
    ensures { result ≡ rises before.now after.now }
{
    after == b"1".as_slice() && !(before == b"1".as_slice())
}

fn falls(before: &[u8], after: &[u8]) -> bool
    ensures { result ≡ falls before.now after.now }
{
    after == b"0".as_slice() && !(before == b"0".as_slice())
}

fn differs(before: &[u8], after: &[u8]) -> bool
    ensures { result ≡ differs before.now after.now }
{
    !(after == before)
}

impl Goal {
    #[inline(always)]
    fn meets(&self, letters: &[u8]) -> bool
        ensures { result ≡ meets self.now letters.now }
    {
        let is_same = letters_of(self.part.bits, letters) == self.letters.as_slice();
        if self.is_equal { is_same } else { !is_same }
    }

    fn begins(&self, before: &[u8], after: &[u8]) -> bool
        ensures { result ≡ begins self.now before.now after.now }
    {
        self.meets(after) && !self.meets(before)
    }

    fn begins_on(&self, signal: &Signal) -> bool
        ensures { result ≡ of_values (begins self.now) (value_before signal.now)
            (value_after signal.now) }
    {
        match (signal.before(), signal.after()) {
            (Some(before), Some(after)) => self.begins(before, after),
            _ => false,
        }
    }

    fn held_before(&self, signals: &[Signal]) -> bool
        ensures { result ≡ held_before (view_at signals.now) self.now }
    {
        let Some(signal) = signals.get(self.part.signal) else {
            return false;
        };
        match signal.before() {
            Some(before) => self.meets(before),
            None => false,
        }
    }
}

impl Part {
    fn rises(&self, signal: &Signal) -> bool
        ensures { result ≡ of_values (of_part rises self.now.bits) (value_before signal.now)
            (value_after signal.now) }
    {
        match (signal.before(), signal.after()) {
            (Some(before), Some(after)) => rises(
                letters_of(self.bits, before),
                letters_of(self.bits, after),
            ),
            _ => false,
        }
    }

    fn falls(&self, signal: &Signal) -> bool
        ensures { result ≡ of_values (of_part falls self.now.bits) (value_before signal.now)
            (value_after signal.now) }
    {
        match (signal.before(), signal.after()) {
            (Some(before), Some(after)) => falls(
                letters_of(self.bits, before),
                letters_of(self.bits, after),
            ),
            _ => false,
        }
    }

    fn differs(&self, signal: &Signal) -> bool
        ensures { result ≡ of_values (of_part differs self.now.bits) (value_before signal.now)
            (value_after signal.now) }
    {
        match (signal.before(), signal.after()) {
            (Some(before), Some(after)) => differs(
                letters_of(self.bits, before),
                letters_of(self.bits, after),
            ),
            _ => false,
        }
    }
}

impl Trigger {
    /// The number of the variable that it reads.
    pub fn signal(&self) -> usize
        ensures { result ≡ variable_of self.now }
    {
        match self {
            Trigger::Rise(part) | Trigger::Fall(part) | Trigger::Change(part) => part.signal,
            Trigger::Becomes(goal) => goal.part.signal,
            Trigger::Record(signal) => *signal,
        }
    }

    fn sets_off(&self, signals: &[Signal]) -> bool
        ensures { result ≡ sets_off self.now (view_at signals.now) }
    {
        match self {
            Trigger::Rise(part) => match signals.get(part.signal) {
                Some(signal) => part.rises(signal),
                None => false,
            },
            Trigger::Fall(part) => match signals.get(part.signal) {
                Some(signal) => part.falls(signal),
                None => false,
            },
            Trigger::Change(part) => match signals.get(part.signal) {
                Some(signal) => part.differs(signal),
                None => false,
            },
            Trigger::Becomes(goal) => match signals.get(goal.part.signal) {
                Some(signal) => goal.begins_on(signal),
                None => false,
            },
            Trigger::Record(signal) => match signals.get(*signal) {
                Some(signal) => signal.heard,
                None => false,
            },
        }
    }
}

// Whether all conditions held before the present time.
fn were_met(conditions: &[Goal], signals: &[Signal]) -> bool
    ensures { result ≡ list_all (held_before (view_at signals.now)) conditions.now }
{
    for goal in conditions {
        if !goal.held_before(signals) {
            return false;
        }
    }
    true
}

impl Watch {
    /// Whether the name waits for a record of a variable, and for nothing else.
    pub fn is_record_of(&self, number: usize) -> bool
        ensures reads { result ≡ true → variable_of self.now.trigger ≡ number }
        ensures happens { result ≡ true →
            (views : ℕ → View) → happens self.now views ≡ (views number).heard }
    {
        if !self.conditions.is_empty() {
            return false;
        }
        match &self.trigger {
            Trigger::Record(signal) => *signal == number,
            _ => false,
        }
    }

    /// Whether the name happens at the present time.
    pub fn happens(&self, signals: &[Signal]) -> bool
        ensures { result ≡ happens self.now (view_at signals.now) }
    {
        if !self.trigger.sets_off(signals) {
            return false;
        }
        were_met(self.conditions.as_slice(), signals)
    }
}
