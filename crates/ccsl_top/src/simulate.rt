//! The command `simulate`.

ghost use Rattle.std.specs.Prelude.{◌≡◌, IfOk, IfErr};
ghost use Rattle.ccsl_edge.specs.declared.slot.Slot.TheVariants.{TraceOut, CertOut};
ghost use Rattle.ccsl_simulate.specs.declared.answer.Done.{Done as Ended};
ghost use Rattle.ccsl_top.specs.Simulate.{named_policy};
ghost use Rattle.ccsl_top.specs.Simulating.{IsDoneReply, WritesBoth, IsWriteStop};

use crate::reply::{Reply, Status};
use ccsl_base::Memory;
use ccsl_command::PolicyName;
use ccsl_edge::{Slot, Stop, World};
use ccsl_kernel::System;
use ccsl_policy::Policy;
use ccsl_report::{deadlocked, simulated};
use ccsl_simulate::Done;
use ccsl_simulate::laws::{deadlocks_have_certificates, simulation_is_one};
use std::alloc::Global;

/// The policy of a name.
pub(crate) fn policy_named(name: PolicyName) -> Policy
    ensures { result ≡ named_policy name }
{
    match name {
        PolicyName::Min => Policy::Min,
        PolicyName::Max => Policy::Max,
        PolicyName::Seeded => Policy::Seeded,
    }
}

/// Writes a simulation to the files of two names.
pub(crate) fn write_run<W: World>(
    alloc: Global,
    world: &mut W,
    system: &System,
    policy: Policy,
    seed: u64,
    steps: u64,
    trace: &str,
    cert: &str,
) -> Result<Done, Stop>
    requires trace { W.allows TraceOut trace.now }
    requires cert { W.allows CertOut cert.now }
    ensures done { IfOk result
        (λ done. WritesBoth W.told system.now policy seed steps trace.now cert.now
        (W.state world.old) (W.state world.new) done) }
    ensures stop { IfErr result (λ stop.
        IsWriteStop W.told system.now policy seed steps trace.now cert.now
        (W.state world.old) (W.state world.new) stop) }
{
    // By these laws each simulation has a certificate, of which nothing written is a front.
    simulation_is_one();
    deadlocks_have_certificates();
    system.is_accepted();
    world.open_out(Slot::TraceOut, trace)?;
    world.open_out(Slot::CertOut, cert)?;
    let done = ccsl_simulate::simulate(alloc, world, system, policy, seed, steps)?;
    world.close_out(Slot::TraceOut)?;
    world.close_out(Slot::CertOut)?;
    Ok(done)
}

// The reply on how a simulation of so many steps ended.
fn reply_on(alloc: Global, done: Done, steps: u64) -> Result<Reply, Memory>
    ensures { IfOk result (λ reply. IsDoneReply done steps reply) }
{
    match done {
        Done::Full => Ok(Reply {
            status: Status::Done,
            line: simulated(alloc, steps)?,
        }),
        Done::Deadlock(at) => Ok(Reply {
            status: Status::Deadlock,
            line: deadlocked(alloc, at)?,
        }),
    }
}

/// Simulates a system, and writes the trace and the certificate under two names.
pub(crate) fn simulate<W: World>(
    alloc: Global,
    world: &mut W,
    system: &System,
    policy: Policy,
    seed: u64,
    steps: u64,
    trace: &str,
    cert: &str,
) -> Result<Reply, Stop>
    requires trace { W.allows TraceOut trace.now }
    requires cert { W.allows CertOut cert.now }
    ensures answers { IfOk result (λ reply. (done : Ended) × IsDoneReply done steps reply
        × WritesBoth W.told system.now policy seed steps trace.now cert.now (W.state world.old)
        (W.state world.new) done) }
    ensures stop { IfErr result (λ stop.
        IsWriteStop W.told system.now policy seed steps trace.now cert.now
        (W.state world.old) (W.state world.new) stop) }
{
    let done = write_run(alloc, world, system, policy, seed, steps, trace, cert)?;
    Ok(reply_on(alloc, done, steps)?)
}
