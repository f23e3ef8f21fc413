//! The values of a partial assignment, one after the other.

ghost use Rattle.std.specs.Prelude.{◌≡◌};
ghost use Rattle.std.specs.Iterator.{YieldsFirst, item_count};
ghost use Rattle.ccsl_formula.specs.Kept.{pairs_of};

use ccsl_base::{ClockSet, Members};
use std::marker::Model;

/// An iterator over the clocks that have a value, in ascending order, each with its value. Contracts see those that
/// are left.
#[derive(Drop)]
pub struct Pairs<'a> {
    clocks: Members<'a>,
    truth: &'a ClockSet,
}

impl<'a> Model for Pairs<'a> {
    ghost use Rattle.std.specs.Prelude.{List, ℕ, Bool};
    ghost use Rattle.ccsl_formula.specs.Kept.{pairs_of};

    ghost Value = { List (ℕ × Bool) };

    ghost view = { λ p. pairs_of p.clocks p.truth.now };
}

impl<'a> Pairs<'a> {
    /// Each of the clocks, true where it is in the set.
    pub(crate) fn new(clocks: Members<'a>, truth: &'a ClockSet) -> Pairs<'a>
        ensures { result ≡ pairs_of clocks.entry truth.now }
    {
        Pairs { clocks, truth }
    }
}

impl<'a> Iterator for Pairs<'a> {
    type Item = (u32, bool);

    ghost next_gives = { YieldsFirst (λ p. p) };

    ghost remaining = { item_count (λ p. p) };

    fn next(&mut self) -> Option<(u32, bool)> {
        let clock = self.clocks.next()?;
        Some((clock, self.truth.has(clock)))
    }
}
