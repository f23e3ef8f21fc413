//! The command `trial`.

ghost use Rattle.std.specs.Prelude.{◌≡◌, ◌≤◌, ℕ, IfOk, IfErr, IsOk, length};
ghost use Rattle.ccsl_base.specs.declared.limits.TheConstants.{MAX_STEPS};
ghost use Rattle.ccsl_base.specs.declared.limits.TheConstants.{MAX_TRIAL_STEPS, MIN_TRIAL_CLOCKS, MAX_TRIAL_CLOCKS};
ghost use Rattle.ccsl_roundtrip.specs.Ticks.{ticks_written};
ghost use Rattle.ccsl_top.specs.Trial.{trial_run, trial_outcome};
ghost use Rattle.ccsl_chain.specs.Chain.{chain};
ghost use Rattle.ccsl_top.specs.Trying.{drawn_run, HoldsTrace, KeepsTrace};
ghost use Rattle.ccsl_edge.specs.declared.stop.Stop.TheVariants as stop;
ghost use Rattle.ccsl_top.specs.Answered.{plain_reply};

use crate::machine::Machine;
use crate::reply::{Reply, Status};
use crate::simulate::write_run;
use ccsl_base::{Memory, PIECE};
use ccsl_chain::chain;
use ccsl_edge::{MemoryWorld, Slot, Stop, World};
use ccsl_judge::{JudgeFault, Verdict};
use ccsl_kernel::System;
use ccsl_policy::Policy;
use ccsl_pool::Gate;
use ccsl_report::trial_done;
use ccsl_roundtrip::laws::simulated_traces_are_runs;
use ccsl_roundtrip::ticks_in_text;
use ccsl_vcd::LIMITS;
use std::alloc::Global;
use std::thread::Threads;

/// The names of the files in the world of a trial.
const TRACE: &str = "trace";

const CERT: &str = "certificate";

// The value, where this was done. For any type: the drop of a world is dear to check.
fn kept<T: Drop>(value: T, done: Result<(), Memory>) -> Result<T, Memory>
    ensures { IfOk result (λ same. (same ≡ value) × IsOk done) }
{
    done?;
    Ok(value)
}

// Simulates into a world in memory, and opens the trace that was written.
fn write_trace(
    alloc: Global,
    world: &mut MemoryWorld,
    system: &System,
    seed: u64,
    steps: u64,
) -> Result<(), Memory>
    ensures { IfOk result (λ _. HoldsTrace system.now seed steps world.new) }
{
    let policy = Policy::Seeded;
    match write_run(alloc, world, system, policy, seed, steps, TRACE, CERT) {
        Ok(_done) => {}
        Err(_stop) => return Err(Memory),
    }
    match world.open_in(Slot::Trace, TRACE) {
        Ok(()) => Ok(()),
        Err(_failed) => Err(Memory),
    }
}

// A world in memory, with the trace that was written.
fn written(alloc: Global, system: &System, seed: u64, steps: u64) -> Result<MemoryWorld, Memory>
    ensures { IfOk result (λ world. HoldsTrace system.now seed steps world) }
{
    let mut world = MemoryWorld::new(alloc, Vec::new(alloc), Vec::new(alloc), PIECE);
    let opened = write_trace(alloc, &mut world, system, seed, steps);
    kept(world, opened)
}

// How many steps the trace of a world is judged to have. That it is a run is a law.
fn judged_steps<R: Threads + Sync, G: Gate>(
    machine: &Machine<'_, R, G>,
    world: &mut MemoryWorld,
    system: &System,
    workers: u32,
) -> Result<u64, Memory>
    requires { (seed : ℕ) × (steps : ℕ) × HoldsTrace system.now seed steps
        world.old × (steps ≤ MAX_STEPS) }
    ensures steps { IfOk result (λ made. (seed steps : ℕ) →
        HoldsTrace system.now seed steps world.old → steps ≤ MAX_STEPS →
        made ≡ length (drawn_run system.now seed steps)) }
    ensures files { IfOk result (λ _. world.new.files ≡ world.old.files) }
{
    simulated_traces_are_runs(system);
    match ccsl_judge::judge(
        machine.rt,
        machine.alloc,
        machine.keys,
        world,
        system,
        workers.max(1),
        machine.gate,
        &LIMITS,
    ) {
        Ok(Verdict::Run(steps)) => Ok(steps),
        Ok(Verdict::Violated(_)) => unreachable!(),
        Err(JudgeFault::Refused(_)) => unreachable!(),
        Err(JudgeFault::Fault) => Err(Memory),
        Err(JudgeFault::Memory) => Err(Memory),
    }
}

// How many ticks the trace of a world has.
fn ticks_of(alloc: Global, world: &MemoryWorld, system: &System, made: u64) -> Result<u64, Memory>
    requires { (seed : ℕ) × (steps : ℕ) × KeepsTrace system.now seed steps world.now.files
        × (made ≡ length (drawn_run system.now seed steps)) }
    ensures { IfOk result (λ ticks. (seed steps : ℕ) →
        KeepsTrace system.now seed steps world.now.files →
        made ≡ length (drawn_run system.now seed steps) →
        ticks ≡ ticks_written system.now (drawn_run system.now seed steps)) }
{
    match world.file(TRACE) {
        Some(text) => ticks_in_text(alloc, system, text, made),
        None => unreachable!(),
    }
}

// How many steps and ticks the trace of a world has, whatever seed and steps it is of. By itself, since one function
// carries only so much proof.
fn counted<R: Threads + Sync, G: Gate>(
    machine: &Machine<'_, R, G>,
    world: &mut MemoryWorld,
    system: &System,
    workers: u32,
) -> Result<(u64, u64), Memory>
    requires { (seed : ℕ) × (steps : ℕ) × HoldsTrace system.now seed steps
        world.old × (steps ≤ MAX_STEPS) }
    ensures { IfOk result (λ counts. (seed steps : ℕ) →
        HoldsTrace system.now seed steps world.old → steps ≤ MAX_STEPS →
        (counts.0 ≡ length (drawn_run system.now seed steps))
        × (counts.1 ≡ ticks_written system.now (drawn_run system.now seed steps))) }
{
    let made = judged_steps(machine, world, system, workers)?;
    let ticks = ticks_of(machine.alloc, world, system, made)?;
    Ok((made, ticks))
}

// How many steps and ticks a run of a system has that is simulated by drawn words and judged. By itself, since it is of
// any system: nothing that is known of a chain burdens its proof.
fn tried<R: Threads + Sync, G: Gate>(
    machine: &Machine<'_, R, G>,
    system: &System,
    steps: u64,
    seed: u64,
    workers: u32,
) -> Result<(u64, u64), Memory>
    requires { steps ≤ MAX_STEPS }
    ensures { IfOk result (λ counts. (counts.0 ≡ length (drawn_run system.now seed steps))
        × (counts.1 ≡ ticks_written system.now (drawn_run system.now seed steps))) }
{
    let mut world = written(machine.alloc, system, seed, steps)?;
    counted(machine, &mut world, system, workers)
}

// The same of a chain of so many clocks. By itself, since here alone the run of a chain becomes that of the trial;
// `trial` only reports it.
fn tried_chain<R: Threads + Sync, G: Gate>(
    machine: &Machine<'_, R, G>,
    clocks: u32,
    steps: u64,
    seed: u64,
    workers: u32,
) -> Result<(u64, u64), Memory>
    requires least { MIN_TRIAL_CLOCKS ≤ clocks }
    requires most { clocks ≤ MAX_TRIAL_CLOCKS }
    requires few { steps ≤ MAX_TRIAL_STEPS }
    ensures { IfOk result (λ counts. (counts.0 ≡ length (trial_run clocks steps seed))
        × (counts.1 ≡ ticks_written (chain clocks) (trial_run clocks steps seed))) }
{
    let system = chain(machine.alloc, clocks)?;
    tried(machine, &system, steps, seed, workers)
}

/// Simulates a chain of so many clocks by drawn words into a world in memory, judges what was written, and counts its
/// ticks. A fault of this world is a want of memory of its own.
pub(crate) fn trial<R: Threads + Sync, G: Gate>(
    machine: &Machine<'_, R, G>,
    clocks: u32,
    steps: u64,
    seed: u64,
    workers: u32,
) -> Result<Reply, Stop>
    requires least { MIN_TRIAL_CLOCKS ≤ clocks }
    requires most { clocks ≤ MAX_TRIAL_CLOCKS }
    requires few { steps ≤ MAX_TRIAL_STEPS }
    ensures reply { IfOk result (λ reply. plain_reply reply ≡ trial_outcome clocks steps seed) }
    ensures stop { IfErr result (λ reason. reason ≡ stop.Memory) }
{
    let (made, ticks) = tried_chain(machine, clocks, steps, seed, workers)?;
    Ok(Reply {
        status: Status::Done,
        line: trial_done(machine.alloc, clocks, made, ticks)?,
    })
}
