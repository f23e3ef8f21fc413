//! The clocks that may tick next.

ghost use Rattle.std.specs.Prelude.{◌≡◌, List, IfOk};
ghost use Rattle.ccsl_kernel.specs.Lives.{Step};
ghost use Rattle.ccsl_state.specs.Held.{StandsFor};
ghost use Rattle.ccsl_items.specs.Laws.{IsNamedRun};
ghost use Rattle.ccsl_possible.specs.Possible.{allowed_clocks};

use crate::ticking::may_tick;
use ccsl_base::{ClockSet, Memory};
use ccsl_items::put_formulas;
use ccsl_kernel::System;
use ccsl_state::States;
use std::alloc::Global;

/// The declared clocks that are members of some admissible set. The solver is asked once a declared clock at most: a
/// set that it finds answers for all its members.
pub fn allowed(alloc: Global, system: &System, states: &States<'_>) -> Result<ClockSet, Memory>
    requires { states.now.system ≡ system.now }
    ensures { IfOk result (λ set. (T : List Step) → StandsFor states.now T →
        IsNamedRun system.now T →
        set ≡ allowed_clocks system.now T) }
{
    let mut formulas = Vec::new(alloc);
    put_formulas(alloc, system, states, &mut formulas)?;
    may_tick(alloc, &formulas, &system.scope())
}
