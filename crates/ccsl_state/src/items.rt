//! The formulas of items, from the row.

ghost use Rattle.std.specs.Prelude.{◌≡◌, ◌≤◌, ◌<◌, ◌+◌, length, slice_get, Some, IfOk, option_map};
ghost use Rattle.ccsl_formula.specs.Plain.{plain};
ghost use Rattle.ccsl_kernel.specs.Accepted.{IsAccepted};
ghost use Rattle.ccsl_kernel.specs.Syntax.{item_count};
ghost use Rattle.ccsl_state.specs.Tree.{formula_of};
ghost use Rattle.ccsl_state.specs.States.{cells_from, places_from};
ghost use Rattle.ccsl_state.specs.Held.{formula_in};
ghost use Rattle.ccsl_state.specs.Whole.{held_at, IsWhole};
ghost use Rattle.ccsl_state.specs.Regions.{trees_from};
ghost use Rattle.ccsl_state.specs.Ready.{HasRegions, BeginsAt};

use crate::cells::{count_at, size_of};
use crate::connective::iff;
use crate::layout::Layout;
use crate::relation::relation_formula;
use crate::told::told;
use crate::whole::before_counts;
use ccsl_base::{MAX_CELLS, Memory};
use ccsl_formula::Formula;
use std::alloc::Global;

/// Where each definition's region begins.
pub fn places(alloc: Global, lay: &Layout<'_>) -> Result<Vec<u32>, Memory>
    requires { cells_from lay.now.earlier.now lay.now.system.now.definitions ≤ MAX_CELLS }
    ensures { IfOk result
        (λ v. v.items ≡ places_from lay.now.earlier.now 0 lay.now.system.now.definitions) }
{
    let count = lay.system.definitions();
    let mut places = Vec::with_capacity(alloc, count as usize)?;
    let mut place = 0;
    for i in 0..count {
        places.push(place)?;
        place += size_of(lay.system.definition(i), lay.earlier) as u32;
    }
    Ok(places)
}

/// The formula of the expression of definition number `i`, whose region begins at `place`.
pub fn definition_formula(
    alloc: Global,
    lay: &Layout<'_>,
    i: u32,
    place: u32,
    row: &[u64],
) -> Result<Formula, Memory>
    requires regions { HasRegions lay.now 0 row.now }
    requires within { i < length lay.now.system.now.definitions }
    requires place { BeginsAt lay.now i place }
    ensures { IfOk result (λ f. Some (plain f) ≡
        option_map formula_of (slice_get (trees_from lay.now 0 row.now) i)) }
{
    let e = lay.system.definition(i);
    let (_, region) = row.split_at(place as usize);
    let part = told(alloc, lay, e, &[], region)?;
    Ok(part.formula)
}

/// The formula of a definition: its clock ticks where the formula of its expression holds.
#[tactic(auto, using(crate::proofs::WholeLaws::whole_regions))]
fn definition_item(
    alloc: Global,
    lay: &Layout<'_>,
    i: u32,
    place: u32,
    row: &[u64],
) -> Result<Formula, Memory>
    requires accepted { IsAccepted lay.now.system.now }
    requires whole { IsWhole lay.now row.now }
    requires within { i < length lay.now.system.now.definitions }
    requires place { BeginsAt lay.now i place }
    ensures { IfOk result (λ f. plain f ≡ formula_in (held_at lay.now row.now) i) }
{
    let asked = definition_formula(alloc, lay, i, place, row)?;
    let clock = Formula::Var(lay.system.scope().declared + i);
    iff(alloc, clock, asked)
}

/// The formula of a constraint.
fn constraint_item(alloc: Global, lay: &Layout<'_>, j: u32, row: &[u64]) -> Result<Formula, Memory>
    requires accepted { IsAccepted lay.now.system.now }
    requires whole { IsWhole lay.now row.now }
    requires within { j < length lay.now.system.now.constraints }
    ensures { IfOk result (λ f. plain f ≡ formula_in (held_at lay.now row.now)
        (length lay.now.system.now.definitions + j)) }
{
    let constraint = lay.system.constraint(j);
    let (_, counts) = row.split_at(before_counts(lay, row));
    let at = 2 * j as usize;
    let (left, right) = (count_at(counts[at]), count_at(counts[at + 1]));
    let (a, b) = (constraint.left, constraint.right);
    Ok(relation_formula(alloc, constraint.kind, a, b, left, right)?)
}

/// The formula of an item.
pub fn item_formula(
    alloc: Global,
    lay: &Layout<'_>,
    places: &[u32],
    item: u32,
    row: &[u64],
) -> Result<Formula, Memory>
    requires accepted { IsAccepted lay.now.system.now }
    requires whole { IsWhole lay.now row.now }
    requires places { places.now ≡ places_from lay.now.earlier.now 0
        lay.now.system.now.definitions }
    requires within { item < item_count lay.now.system.now }
    ensures { IfOk result (λ f. plain f ≡ formula_in (held_at lay.now row.now) item) }
{
    let definitions = lay.system.definitions();
    if item < definitions {
        definition_item(alloc, lay, item, places[item as usize], row)
    } else {
        constraint_item(alloc, lay, item - definitions, row)
    }
}
