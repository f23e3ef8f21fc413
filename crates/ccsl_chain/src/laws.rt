//! What chains are worth. Each function does nothing; its contract is the law.

ghost use Rattle.ccsl_chain.specs.Laws.{ChainsAreElaborated, ChainsAreAccepted, ChainsGoOn, SimulatedChainsAreFull};

use ccsl_kernel::laws::admissible_sets_extend;
use ccsl_simulate::laws::{early_ends_are_deadlocks, simulation_is_one, simulations_run};

/// A chain is what its text is elaborated to behind the library.
pub fn chains_are_elaborated()
    ensures { ChainsAreElaborated }
{}

/// A chain of at most 512 clocks is an accepted system.
pub fn chains_are_accepted()
    ensures { ChainsAreAccepted }
{}

/// After every run of a chain some set is admissible: the first clock that is level with the next one may tick
/// alone, and where there is none, the last.
pub fn chains_go_on()
    ensures { ChainsGoOn }
{
    admissible_sets_extend();
}

/// A simulation of a chain has all its steps, by every policy and from every seed.
pub fn simulated_chains_are_full()
    ensures { SimulatedChainsAreFull }
{
    chains_are_accepted();
    chains_go_on();
    simulation_is_one();
    simulations_run();
    early_ends_are_deadlocks();
}
