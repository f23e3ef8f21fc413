//! What simulated traces are worth. The function does nothing: its contract is the law.

ghost use Rattle.ccsl_roundtrip.specs.RoundTrip.{SimulatedTracesAreRuns};

use ccsl_items::laws::{admissible_sets_solve, solutions_are_full};
use ccsl_kernel::System;
use ccsl_kernel::laws::{runs_complete, verdict_is_first};
use ccsl_simulate::laws::{fewer_steps_are_a_front, simulation_is_one, simulations_run};
use ccsl_vcd::LIMITS;
use ccsl_vcd_write::laws::{read_back, texts_fit};

/// The trace of a simulation reads without a fault, it is judged to be a run of all its steps, and its rows, completed,
/// are these steps.
pub fn simulated_traces_are_runs(system: &System)
    ensures { SimulatedTracesAreRuns system.now }
{
    system.is_accepted();
    read_back(system, LIMITS);
    texts_fit(system);
    runs_complete();
    verdict_is_first();
    simulation_is_one();
    simulations_run();
    fewer_steps_are_a_front();
    admissible_sets_solve();
    solutions_are_full();
}
