//! Whether a set of declared clocks may tick next.

ghost use Rattle.std.specs.Prelude.{◌≡◌, ◌<◌, List, not, length, IfOk};
ghost use Rattle.ccsl_formula.specs.Formula.{eval};
ghost use Rattle.ccsl_kernel.specs.Syntax.{item_count};
ghost use Rattle.ccsl_kernel.specs.Items.{item_formula};
ghost use Rattle.ccsl_kernel.specs.Lives.{Step};
ghost use Rattle.ccsl_state.specs.Held.{StandsFor};
ghost use Rattle.ccsl_possible.specs.Possible.{first_failing};

use ccsl_base::{ClockSet, Memory};
use ccsl_kernel::System;
use ccsl_state::States;
use std::alloc::Global;

/// Whether an item fails in a step.
fn fails(alloc: Global, states: &States<'_>, item: u32, step: &ClockSet) -> Result<bool, Memory>
    requires { item < item_count states.now.system }
    ensures { IfOk result (λ fails. (T : List Step) → StandsFor states.now T →
        fails ≡ not (eval (item_formula states.now.system T (length T) item) step.now)) }
{
    Ok(!states.formula_of(alloc, item)?.eval(step))
}

/// The least constraint that fails where the steps go on by these declared clocks and the defined ones that they give.
pub fn first_failing(
    alloc: Global,
    system: &System,
    states: &States<'_>,
    set: &ClockSet,
) -> Result<Option<u32>, Memory>
    requires { states.now.system ≡ system.now }
    ensures { IfOk result (λ found. (T : List Step) → StandsFor states.now T →
        found ≡ first_failing system.now T set.now) }
{
    let step = states.derive(set);
    let definitions = system.definitions();
    for item in definitions..system.items() {
        if fails(alloc, states, item, &step)? {
            return Ok(Some(item - definitions));
        }
    }
    Ok(None)
}
