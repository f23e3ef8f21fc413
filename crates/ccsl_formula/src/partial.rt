//! Partial assignments.

ghost use Rattle.std.specs.Prelude.{◌≡◌, ◌<◌, ◌≤◌, [], IsTrue, MatchOption};
ghost use Rattle.ccsl_base.specs.Clocks.{is_ascending, are_below};
ghost use Rattle.ccsl_formula.specs.Known.{known, clocks, with_truth, joined};
ghost use Rattle.ccsl_formula.specs.Truth.{with_value};
ghost use Rattle.ccsl_formula.specs.Truth.{known_as};
ghost use Rattle.ccsl_formula.specs.declared.truth3.Truth3.TheVariants.{Open};

use crate::pairs::Pairs;
use crate::truth3::Truth3;
use ccsl_base::{ClockSet, MAX_CLOCKS};
use std::marker::Model;

/// Truth values of some clocks below [`MAX_CLOCKS`].
#[derive(Drop)]
pub struct Partial {
    // the clocks that have a value
    valued: ClockSet,
    // those of them whose value is true
    truth: ClockSet,
}

impl Model for Partial {
    ghost use Rattle.std.specs.Prelude.{List, ℕ, Bool};
    ghost use Rattle.ccsl_formula.specs.Kept.{pairs_of, IsWithin};

    ghost Value = { List (ℕ × Bool) };

    ghost view = { λ p. pairs_of p.valued p.truth };

    ghost invariant = { λ p. IsWithin p.truth p.valued };
}

impl Partial {
    /// No clock has a value.
    pub fn empty() -> Partial
        ensures { result ≡ [] }
    {
        Partial {
            valued: ClockSet::empty(),
            truth: ClockSet::empty(),
        }
    }

    /// The value of a clock. A number past the limit has none.
    pub fn value(&self, clock: u32) -> Truth3
        ensures value { result ≡ known self.now clock }
        ensures past { MAX_CLOCKS ≤ clock → result ≡ Open }
        ensures ascending { IsTrue (is_ascending (clocks self.now)) }
        ensures below { IsTrue (are_below MAX_CLOCKS (clocks self.now)) }
    {
        if self.valued.has(clock) {
            Truth3::known_as(self.truth.has(clock))
        } else {
            Truth3::Open
        }
    }

    /// The value of a clock, where it has one.
    pub fn get(&self, clock: u32) -> Option<bool>
        ensures { MatchOption result (known self.now clock ≡ Open)
            (λ b. known self.now clock ≡ known_as b) }
    {
        match self.value(clock) {
            Truth3::Yes => Some(true),
            Truth3::No => Some(false),
            Truth3::Open => None,
        }
    }

    /// The clocks that have a value.
    pub fn clocks(&self) -> &ClockSet
        ensures { result.now ≡ clocks self.now }
    {
        &self.valued
    }

    /// Gives a clock a value, in place of the one that it may have had.
    pub fn set(&mut self, clock: u32, value: bool)
        requires { clock < MAX_CLOCKS }
        ensures { known self.new ≡ with_value (known self.old) clock value }
    {
        self.valued.insert(clock);
        if value {
            self.truth.insert(clock);
        } else {
            self.truth.remove(clock);
        }
    }

    /// Takes away the value of a clock.
    pub fn forget(&mut self, clock: u32)
        ensures { known self.new ≡ with_truth (known self.old) clock Open }
    {
        self.valued.remove(clock);
        self.truth.remove(clock);
    }

    /// Takes over what another one says of a clock, also that it has no value.
    pub fn take(&mut self, other: &Partial, clock: u32)
        ensures { known self.new ≡ with_truth (known self.old) clock (known other.now clock) }
    {
        match other.value(clock) {
            Truth3::Yes => self.set(clock, true),
            Truth3::No => self.set(clock, false),
            Truth3::Open => self.forget(clock),
        }
    }

    /// Takes over each value of another one.
    pub fn join(&mut self, other: &Partial)
        ensures { known self.new ≡ joined (known self.old) (known other.now) }
    {
        self.valued.insert_all(&other.valued);
        self.truth.remove_all(&other.valued);
        self.truth.insert_all(&other.truth);
    }

    /// The clocks that have a value, in ascending order, each with its value.
    pub fn pairs(&self) -> Pairs<'_>
        ensures pairs { result ≡ self.now }
        ensures ascending { IsTrue (is_ascending (clocks self.now)) }
        ensures below { IsTrue (are_below MAX_CLOCKS (clocks self.now)) }
    {
        Pairs::new(self.valued.members(), &self.truth)
    }

    /// The same values.
    pub fn copy(&self) -> Partial
        ensures { result ≡ self.now }
    {
        Partial {
            valued: self.valued.copy(),
            truth: self.truth.copy(),
        }
    }
}
