//! The least steps that would be possible without an item.

ghost use Rattle.std.specs.Prelude.{◌≡◌, ◌<◌, All, IfOk, OnOk, length, map};
ghost use Rattle.std.specs.List.{AllZip};
ghost use Rattle.ccsl_formula.specs.Plain.{plain};
ghost use Rattle.ccsl_explain.specs.Asked.{IsAsked, HasStep};
ghost use Rattle.ccsl_explain.specs.LeastSteps.{negatives, IsLeastStep};
ghost use Rattle.ccsl_explain.specs.Masked.{without};

use crate::masked::{put_back, take_out};
use ccsl_base::{ClockSet, Memory};
use ccsl_formula::{Formula, Partial, Scope};
use ccsl_refute::Lit;
use ccsl_solve::{Answer, solve_by};
use std::alloc::Global;

/// All named clocks, negative.
fn negatives(alloc: Global, named: u32) -> Result<Vec<Lit>, Memory>
    ensures { IfOk result (λ v. v.items ≡ negatives named) }
{
    let mut lits = Vec::new(alloc);
    for clock in 0..named {
        lits.push(Lit {
            clock,
            positive: false,
        })?;
    }
    Ok(lits)
}

/// The least set that satisfies the formulas, where the wishes are that no clock ticks.
fn least_step(
    alloc: Global,
    formulas: &[Formula],
    scope: &Scope,
    wishes: &[Lit],
) -> Result<ClockSet, Memory>
    requires asked { IsAsked scope.now (map plain formulas.now) }
    requires wishes { wishes.now ≡ negatives scope.now.named }
    requires open { HasStep scope.now (map plain formulas.now) }
    ensures { IfOk result (IsLeastStep scope.now (map plain formulas.now)) }
{
    match solve_by(alloc, formulas, scope, &Partial::empty(), wishes)? {
        Answer::Step(set) => {
            set.ascends();
            Ok(set)
        }
        Answer::Refuted(_) => unreachable!(),
    }
}

/// The least set that satisfies the formulas of all items but one.
fn least_without(
    alloc: Global,
    formulas: &mut [Formula],
    scope: &Scope,
    wishes: &[Lit],
    item: u32,
) -> Result<ClockSet, Memory>
    requires asked { IsAsked scope.now (map plain formulas.old) }
    requires wishes { wishes.now ≡ negatives scope.now.named }
    requires item { item < length formulas.old }
    requires open { HasStep scope.now (without (map plain formulas.old) item) }
    ensures same { OnOk result (formulas.new ≡ formulas.old) }
    ensures least { IfOk result (IsLeastStep scope.now (without (map plain formulas.old) item)) }
{
    let formula = take_out(formulas, item);
    let set = least_step(alloc, formulas, scope, wishes)?;
    put_back(formulas, item, formula);
    Ok(set)
}

/// For each of these items the least set that satisfies the formulas of all others.
pub fn least_steps(
    alloc: Global,
    formulas: &mut [Formula],
    scope: &Scope,
    items: &[u32],
) -> Result<Vec<ClockSet>, Memory>
    requires asked { IsAsked scope.now (map plain formulas.old) }
    requires items { All (λ i. i < length formulas.old) items.now }
    requires open { All (λ i. HasStep scope.now (without (map plain formulas.old) i)) items.now }
    ensures { IfOk result
        (λ sets. AllZip (λ i s. IsLeastStep scope.now (without (map plain formulas.old) i) s)
        items.now sets.items) }
{
    let wishes = negatives(alloc, scope.named)?;
    let mut sets = Vec::with_capacity(alloc, items.len())?;
    for item in items {
        sets.push(least_without(alloc, formulas, scope, &wishes, *item)?)?;
    }
    Ok(sets)
}
