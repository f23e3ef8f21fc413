//! The declared clocks of the sets that solve some formulas.

ghost use Rattle.std.specs.Prelude.{◌≡◌, ◌<◌, true, map, IfOk, OnOk, IsTrue};
ghost use Rattle.ccsl_base.specs.Clocks.{ticks_in, is_ascending};
ghost use Rattle.ccsl_formula.specs.Known.{known};
ghost use Rattle.ccsl_formula.specs.Plain.{plain};
ghost use Rattle.ccsl_possible.specs.Ticking.{fixed_at, CanBeAsked, MayTick, AllMayTick, Finds, AreThoseBelow};

use ccsl_base::{ClockSet, MAX_CLOCKS, Memory};
use ccsl_formula::{Formula, Partial, Scope};
use ccsl_solve::{Answer, solve};
use std::alloc::Global;

/// The one value that a clock ticks.
fn fixed_at(clock: u32) -> Partial
    requires { clock < MAX_CLOCKS }
    ensures { known result ≡ fixed_at clock }
{
    let mut fixed = Partial::empty();
    fixed.set(clock, true);
    fixed
}

/// A set of named clocks that solves the formulas and has this one, where there is such a set.
fn set_with(
    alloc: Global,
    formulas: &[Formula],
    scope: &Scope,
    clock: u32,
) -> Result<Option<ClockSet>, Memory>
    requires asked { CanBeAsked scope.now formulas.now }
    requires clock { clock < scope.now.named }
    ensures { IfOk result (λ found. Finds scope.now (map plain formulas.now) clock found) }
{
    match solve(alloc, formulas, scope, &fixed_at(clock))? {
        Answer::Step(set) => {
            set.ascends();
            Ok(Some(set))
        }
        Answer::Refuted(_lines) => Ok(None),
    }
}

/// Adds the members of a set with this clock, where the clock is not there yet and there is such a set.
fn add_set_with(
    alloc: Global,
    formulas: &[Formula],
    scope: &Scope,
    clock: u32,
    found: &mut ClockSet,
) -> Result<(), Memory>
    requires asked { CanBeAsked scope.now formulas.now }
    requires clock { clock < scope.now.named }
    requires found { AllMayTick scope.now (map plain formulas.now) found.old }
    ensures found { OnOk result (AllMayTick scope.now (map plain formulas.now) found.new) }
    ensures clock { OnOk result (MayTick scope.now (map plain formulas.now) clock →
        ticks_in clock found.new ≡ true) }
{
    if found.has(clock) {
        return Ok(());
    }
    if let Some(set) = set_with(alloc, formulas, scope, clock)? {
        found.insert_all(&set);
    }
    Ok(())
}

/// The declared clocks that are members of sets of named clocks that solve the formulas.
pub(crate) fn may_tick(
    alloc: Global,
    formulas: &[Formula],
    scope: &Scope,
) -> Result<ClockSet, Memory>
    requires { CanBeAsked scope.now formulas.now }
    ensures ascending { IfOk result (λ set. IsTrue (is_ascending set)) }
    ensures those { IfOk result
        (λ set. AreThoseBelow scope.now (map plain formulas.now) scope.now.declared set) }
{
    let mut found = ClockSet::empty();
    let mut clocks = ClockSet::empty();
    for clock in 0..scope.declared {
        add_set_with(alloc, formulas, scope, clock, &mut found)?;
        if found.has(clock) {
            clocks.insert(clock);
        }
    }
    clocks.ascends();
    Ok(clocks)
}
