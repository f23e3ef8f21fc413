//! A simulation written to a world.

ghost use Rattle.std.specs.Prelude.{◌≡◌, ℕ, IsTrue, IfOk, IfErr};
ghost use Rattle.ccsl_edge.specs.declared.slot.Slot.TheVariants.{TraceOut, CertOut};
ghost use Rattle.ccsl_vcd_write.specs.Text.{header_text};
ghost use Rattle.ccsl_simulate.specs.Going.{Stands};
ghost use Rattle.ccsl_simulate.specs.Outcome.{IsDone, IsUndone};

use crate::answer::Done;
use crate::simulator::{Simulator, Turn};
use ccsl_edge::{Slot, Stop, World, write_all};
use ccsl_kernel::System;
use ccsl_policy::Policy;
use std::alloc::Global;

// Writes the header, and then step after step.
fn run<W: World>(world: &mut W, sim: &mut Simulator<'_>, steps: u64) -> Result<Done, Stop>
    requires trace { IsTrue ((W.state world.old).slot_of TraceOut).is_open }
    requires cert { IsTrue ((W.state world.old).slot_of CertOut).is_open }
    requires header { sim.old.text.items ≡ header_text sim.old.system.now }
    requires stands { (seed : ℕ) × Stands seed 0 sim.old }
    ensures done { IfOk result (λ done. (seed : ℕ) → Stands seed 0 sim.old →
        IsDone W.told sim.old.system.now sim.old.policy seed steps (W.state world.old)
        (W.state world.new) done) }
    ensures undone { IfErr result (λ fault. (seed : ℕ) → Stands seed 0 sim.old →
        IsUndone W.told sim.old.system.now sim.old.policy seed steps (W.state world.old)
        (W.state world.new) fault) }
{
    write_all(world, Slot::TraceOut, &sim.text)?;
    for n in 0..steps {
        match sim.turn(world, n)? {
            Turn::Goes => {}
            Turn::Ends => return Ok(Done::Deadlock(n)),
        }
    }
    Ok(Done::Full)
}

/// Simulates a system by a policy, over the words of a seed, for so many steps or until no step is left. The trace goes
/// to `TraceOut`: the header by one call of [`write_all`], and each step by one more. Where no step is left, a
/// certificate goes to `CertOut`. The memory that it takes does not grow with the steps.
pub fn simulate<W: World>(
    alloc: Global,
    world: &mut W,
    system: &System,
    policy: Policy,
    seed: u64,
    steps: u64,
) -> Result<Done, Stop>
    requires trace { IsTrue ((W.state world.old).slot_of TraceOut).is_open }
    requires cert { IsTrue ((W.state world.old).slot_of CertOut).is_open }
    ensures done { IfOk result (λ done.
        IsDone W.told system.now policy seed steps (W.state world.old) (W.state world.new) done) }
    ensures undone { IfErr result (λ fault.
        IsUndone W.told system.now policy seed steps (W.state world.old)
        (W.state world.new) fault) }
{
    let mut sim = Simulator::open(alloc, system, policy, seed)?;
    run(world, &mut sim, steps)
}
