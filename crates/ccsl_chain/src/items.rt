//! The definitions and the constraints of a chain.

ghost use Rattle.std.specs.Prelude.{◌≡◌, ◌+◌, ◌-◌, ◌<◌, ◌≤◌, ◌++◌, map, flat_map, length, IfOk, OnOk};
ghost use Rattle.std.specs.List.{range_with_len};
ghost use Rattle.ccsl_base.specs.declared.limits.TheConstants.{MAX_TRIAL_CLOCKS};
ghost use Rattle.ccsl_kernel.specs.Plain.{plain_expr};
ghost use Rattle.ccsl_chain.specs.Chain.{all_but_first, precedes, alternation};

use crate::naming::call_path;
use ccsl_base::{Memory, Seq, Text};
use ccsl_kernel::{Constraint, Expr, NumPrim, NumTerm, Place, RelationKind};
use std::alloc::Global;

fn all_but_first(alloc: Global, clock: u32) -> Result<Expr, Memory>
    ensures { IfOk result (λ e. plain_expr e ≡ all_but_first clock) }
{
    let one = NumTerm {
        first: NumPrim::Num(1),
        rest: Seq::new(Vec::new(alloc)),
    };
    let name = Box::new(alloc, Expr::Name(Place::Clock(clock)))?;
    Ok(Expr::Delay(name, one))
}

/// The definitions of the clocks that so many calls hide.
pub fn definitions(alloc: Global, calls: u32) -> Result<Vec<Expr>, Memory>
    ensures { IfOk result (λ v.
        map plain_expr v.items ≡ map all_but_first (range_with_len 0 calls)) }
{
    let mut out = Vec::new(alloc);
    for i in 0..calls {
        out.push(all_but_first(alloc, i)?)?;
    }
    Ok(out)
}

fn precedes(alloc: Global, call: u32, left: u32, right: u32) -> Result<Constraint, Memory>
    requires { call < MAX_TRIAL_CLOCKS }
    ensures { IfOk result (λ constraint. constraint ≡ precedes call left right) }
{
    Ok(Constraint {
        kind: RelationKind::Precedes,
        left,
        right,
        label: Text::new(call_path(alloc, call)?),
    })
}

// Adds what call number `i` says of its clocks.
fn add_alternation(
    alloc: Global,
    out: &mut Vec<Constraint>,
    clocks: u32,
    i: u32,
) -> Result<(), Memory>
    requires most { clocks ≤ MAX_TRIAL_CLOCKS }
    requires call { i < clocks }
    ensures { OnOk result (out.new.items ≡ out.old.items ++ alternation clocks i) }
{
    out.push(precedes(alloc, i, i, i + 1)?)?;
    out.push(precedes(alloc, i, i + 1, clocks + i)?)?;
    Ok(())
}

/// The constraints of a chain of so many clocks.
pub fn constraints(alloc: Global, clocks: u32) -> Result<Vec<Constraint>, Memory>
    requires least { 0 < clocks }
    requires most { clocks ≤ MAX_TRIAL_CLOCKS }
    ensures { IfOk result (λ v.
        v.items ≡ flat_map (alternation clocks) (range_with_len 0 (clocks - 1))) }
{
    let mut out = Vec::new(alloc);
    for i in 0..clocks - 1 {
        add_alternation(alloc, &mut out, clocks, i)?;
    }
    Ok(out)
}
