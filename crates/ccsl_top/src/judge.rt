//! The command `judge`.

ghost use Rattle.std.specs.Prelude.{◌≡◌, ◌+◌, ◌≤◌, IfOk, IfErr, IsTrue, vec_len, vec_capacity, []};
ghost use Rattle.ccsl_edge.specs.declared.slot.Slot.TheVariants.{Trace};
ghost use Rattle.ccsl_edge.specs.World.{held};
ghost use Rattle.ccsl_judge.specs.Judged.{HasItem};
ghost use Rattle.ccsl_report.specs.Room.{room};
ghost use Rattle.ccsl_top.specs.Judge.{judge_outcome};
ghost use Rattle.ccsl_top.specs.Changes.{Reads};
ghost use Rattle.ccsl_top.specs.Reading.{only};
ghost use Rattle.ccsl_top.specs.Judging.{IsReplyOn, IsTraceStop};
ghost use Rattle.ccsl_top.specs.Answered.{plain_reply, IsReadStatus};

use crate::machine::Machine;
use crate::reply::{Reply, Status};
use ccsl_base::Memory;
use ccsl_edge::{Slot, Stop, World};
use ccsl_judge::{JudgeFault, Verdict};
use ccsl_kernel::System;
use ccsl_pool::Gate;
use ccsl_report::{judge_room, put_no_run, put_run, put_trace_fault};
use ccsl_vcd::LIMITS;
use std::alloc::Global;
use std::thread::Threads;

// Room for the line on a trace. It is taken before the trace is read.
fn empty_line(alloc: Global, system: &System) -> Result<Vec<u8>, Memory>
    ensures empty { IfOk result (λ line. line.items ≡ []) }
    ensures room { IfOk result (λ line. vec_len line + room system.now ≤ vec_capacity line) }
{
    Ok(Vec::with_capacity(alloc, judge_room(system))?)
}

// The reply on what judging a trace has come to.
fn reply_on(
    judged: Result<Verdict, JudgeFault>,
    system: &System,
    line: Vec<u8>,
) -> Result<Reply, Stop>
    requires item { IfOk judged (HasItem system.now) }
    requires empty { line.items ≡ [] }
    requires room { vec_len line + room system.now ≤ vec_capacity line }
    ensures { IsReplyOn system.now judged result }
{
    let mut line = line;
    let status = match judged {
        Ok(Verdict::Run(steps)) => {
            put_run(steps, &mut line);
            Status::Done
        }
        Ok(Verdict::Violated(broken)) => {
            put_no_run(broken.step, broken.time, broken.item, system, &mut line);
            Status::No
        }
        Err(JudgeFault::Refused(fault)) => {
            put_trace_fault(&fault, system, &mut line);
            Status::FileRefused
        }
        Err(JudgeFault::Fault) => return Err(Stop::Fault),
        Err(JudgeFault::Memory) => return Err(Stop::Memory),
    };
    Ok(Reply { status, line })
}

/// Judges the trace of a name against a system. The line of report has its room before the trace is read.
pub(crate) fn judge<R: Threads + Sync, W: World, G: Gate>(
    machine: &Machine<'_, R, G>,
    world: &mut W,
    system: &System,
    trace: &str,
    workers: u32,
) -> Result<Reply, Stop>
    requires { W.allows Trace trace.now }
    ensures reads { IfOk result (λ _. Reads (only Trace) (W.state world.old) (W.state world.new)) }
    ensures status { IfOk result (λ reply. IsReadStatus (plain_reply reply).status) }
    ensures outcome { IfOk result (λ reply. IsTrue W.told.files → IsTrue W.told.left →
        plain_reply reply ≡ judge_outcome system.now (held (W.state world.old).files trace.now)) }
    ensures stop { IfErr result (λ stop.
        IsTraceStop stop W.told system.now trace.now (W.state world.old) (W.state world.new)) }
{
    let line = empty_line(machine.alloc, system)?;
    if world.open_in(Slot::Trace, trace).is_err() {
        return Err(Stop::Fault);
    }
    let judged = ccsl_judge::judge(
        machine.rt,
        machine.alloc,
        machine.keys,
        world,
        system,
        workers.max(1),
        machine.gate,
        &LIMITS,
    );
    reply_on(judged, system, line)
}
