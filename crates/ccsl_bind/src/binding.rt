//! Bound clocks and declared codes.

ghost use Rattle.std.specs.Prelude.{◌≡◌, ◌<◌, ◌≤◌, IsTrue, IfSome, Some, length, map, slice_get};
ghost use Rattle.ccsl_base.specs.Clocks.{is_ascending, are_below};
ghost use Rattle.ccsl_base.specs.declared.limits.TheConstants.{MAX_CLOCKS};
ghost use Rattle.ccsl_bind.specs.Codes.{number_of};
ghost use Rattle.ccsl_bind.specs.Bindings.{code_number, is_bound_event, are_declared};
ghost use Rattle.ccsl_bind.specs.Slots.{bound_from, are_numbered, slot_of};

use crate::candidate::Candidates;
use ccsl_base::{ClockSet, HashKeys, Names};
use std::marker::Model;

/// The codes that a header declares, numbered from 0 in the order of first declarations, and the clocks that are bound
/// to them.
#[derive(Drop)]
pub struct Binding {
    codes: Names<HashKeys>,
    bound: ClockSet,
    // what each clock is bound to
    slots: Vec<Option<Candidates>>,
}

impl Model for Binding {
    ghost use Rattle.std.specs.Prelude.{◌≡◌, IsTrue, map};
    ghost use Rattle.ccsl_bind.specs.Bindings.{Bindings};
    ghost use Rattle.ccsl_bind.specs.Slots.{bound_from, are_numbered};

    ghost Value = { Bindings };

    ghost view = { λ b. record { codes = b.codes; bound = bound_from 0 b.codes b.slots.items } };

    ghost invariant = { λ b. (b.bound ≡ map (λ c. c.clock) (bound_from 0 b.codes b.slots.items))
        × IsTrue (are_numbered b.codes b.slots.items) };
}

// What a clock is bound to, if it is one of them and is bound.
fn slot_of(slots: &[Option<Candidates>], clock: u32) -> Option<Candidates>
    ensures { result ≡ slot_of (slice_get slots.now clock) }
{
    match slots.get(clock as usize) {
        Some(slot) => *slot,
        None => None,
    }
}

impl Binding {
    /// The codes by number, the bound clocks, and what each clock is bound to.
    pub(crate) fn new(
        codes: Names<HashKeys>,
        bound: ClockSet,
        slots: Vec<Option<Candidates>>,
    ) -> Binding
        requires clocks { bound ≡ map (λ c. c.clock) (bound_from 0 codes slots.items) }
        requires numbers { IsTrue (are_numbered codes slots.items) }
        ensures { result ≡ record { codes = codes; bound = bound_from 0 codes slots.items } }
    {
        Binding {
            codes,
            bound,
            slots,
        }
    }

    /// The set of bound clocks.
    pub fn bound(&self) -> &ClockSet
        ensures clocks { result.now ≡ map (λ b. b.clock) self.now.bound }
        ensures ascending { IsTrue (is_ascending result.now) }
        ensures below { IsTrue (are_below MAX_CLOCKS result.now) }
        ensures declared { IsTrue (are_declared self.now) }
    {
        self.bound.ascends();
        &self.bound
    }

    /// The bound clocks ascend, and their codes are declared. It does nothing: its contract is the law.
    pub fn are_declared(&self)
        ensures ascending { IsTrue (is_ascending (map (λ b. b.clock) self.now.bound)) }
        ensures below { IsTrue (are_below MAX_CLOCKS (map (λ b. b.clock) self.now.bound)) }
        ensures declared { IsTrue (are_declared self.now) }
    {
        self.bound.ascends();
    }

    /// The number of a declared code, and `None` exactly where no declaration has it.
    pub fn find(&self, code: &[u8]) -> Option<u32>
        ensures place { result ≡ number_of code.now self.now.codes }
        ensures there { IfSome result (λ i. slice_get self.now.codes i ≡ Some code.now) }
    {
        self.codes.find(code)
    }

    /// The number of the code that a clock is bound to, and `None` exactly where it is not bound.
    pub fn code_of(&self, clock: u32) -> Option<u32>
        ensures { result ≡ code_number self.now clock }
    {
        match slot_of(self.slots.as_slice(), clock) {
            Some(slot) => Some(slot.code),
            None => None,
        }
    }

    /// Whether a clock is bound, and its kind is `event`.
    pub fn is_event(&self, clock: u32) -> bool
        ensures { result ≡ is_bound_event self.now clock }
    {
        match slot_of(self.slots.as_slice(), clock) {
            Some(slot) => slot.event,
            None => false,
        }
    }

    /// How many codes are declared.
    pub fn codes(&self) -> u32
        ensures { result ≡ length self.now.codes }
    {
        self.codes.len()
    }
}
