//! The command `explain`.

ghost use Rattle.std.specs.Prelude.{◌≡◌, ◌++◌, ◌<◌, ◌^◌, ℕ, List, true, map, All, IfOk, IfErr, OnOk, OnErr, length};
ghost use Rattle.ccsl_base.specs.Clocks.{ticks_in};
ghost use Rattle.ccsl_edge.specs.declared.slot.Slot.TheVariants.{Trace, CertOut};
ghost use Rattle.ccsl_kernel.specs.Syntax.{item_count};
ghost use Rattle.ccsl_kernel.specs.Accepted.{IsAccepted};
ghost use Rattle.ccsl_kernel.specs.Lives.{Step};
ghost use Rattle.ccsl_formula.specs.Formula.{Formula as Plain};
ghost use Rattle.ccsl_formula.specs.Variables.{ReadsBelow};
ghost use Rattle.ccsl_formula.specs.Plain.{plain};
ghost use Rattle.ccsl_refute.specs.Below.{AreBelow};
ghost use Rattle.ccsl_refute.specs.Writing.{lines_text};
ghost use Rattle.ccsl_refute.specs.LineLiterals.{literals};
ghost use Rattle.ccsl_state.specs.Held.{StandsFor};
ghost use Rattle.ccsl_items.specs.Formulas.{item_formulas, scope_of};
ghost use Rattle.ccsl_explain.specs.Explains.{Explains};
ghost use Rattle.ccsl_report.specs.Texts.{explain_blocked_text, explain_member_text};
ghost use Rattle.ccsl_top.specs.Explain.{member_lines, cert_output};
ghost use Rattle.ccsl_top.specs.Explaining.{AreMembers, file_of, WritesWhole, WritesBreak, IsWriteStop, BlockedAnswers, RunAnswers, IsRunStop, TraceAnswers};
ghost use Rattle.ccsl_top.specs.Explaining.{IsTraceStop};

use crate::reply::{Reply, Status};
use ccsl_base::{ClockSet, HashKeys, Memory};
use ccsl_certify::{ReplayFault, Replayed, replay};
use ccsl_edge::{Failed, Slot, Stop, World, write_all};
use ccsl_explain::Explained;
use ccsl_formula::Formula;
use ccsl_items::put_formulas;
use ccsl_kernel::System;
use ccsl_refute::laws::valid_lines_name_clocks;
use ccsl_refute::{Line, write};
use ccsl_report::{explain_blocked, explain_member, explain_no_run, explain_open, trace_refused};
use ccsl_state::States;
use ccsl_vcd::LIMITS;
use std::alloc::Global;

// Puts the line for an item that blocks, with the least set without it.
fn put_member(
    alloc: Global,
    system: &System,
    item: u32,
    set: &ClockSet,
    report: &mut Vec<u8>,
) -> Result<(), Memory>
    requires item { item < item_count system.now }
    requires named { (x : ℕ) → ticks_in x set.now ≡ true → x < length system.now.names }
    ensures { IfOk result (λ _. report.new.items
        ≡ report.old.items ++ explain_member_text item set.now system.now) }
{
    let line = explain_member(alloc, item, set, system)?;
    report.extend_from_slice(&line)?;
    Ok(())
}

// Puts a line for each item that blocks, with the least set without it.
fn put_members(
    alloc: Global,
    system: &System,
    core: &[u32],
    without: &[ClockSet],
    report: &mut Vec<u8>,
) -> Result<(), Memory>
    requires { AreMembers system.now core.now without.now }
    ensures { IfOk result (λ _. report.new.items
        ≡ report.old.items ++ member_lines system.now core.now without.now) }
{
    for (item, set) in core.iter().zip(without) {
        put_member(alloc, system, *item, set, report)?;
    }
    Ok(())
}

// The report on items that block, and the least set without each of them.
fn blocked_report(
    alloc: Global,
    system: &System,
    steps: u64,
    core: &[u32],
    without: &[ClockSet],
) -> Result<Vec<u8>, Memory>
    requires few { length core.now < 2 ^ 32 }
    requires members { AreMembers system.now core.now without.now }
    ensures { IfOk result (λ report. report.items ≡
        explain_blocked_text steps (length core.now)
        ++ member_lines system.now core.now without.now) }
{
    let mut report = explain_blocked(alloc, steps, core.len() as u32)?;
    put_members(alloc, system, core, without, &mut report)?;
    Ok(report)
}

// Writes a certificate under a name, by one call.
fn write_certificate<W: World>(world: &mut W, cert: &str, text: &[u8]) -> Result<(), Failed>
    requires { W.allows CertOut cert.now }
    ensures whole { OnOk result
        (WritesWhole W.told (file_of cert.now text.now) (W.state world.old) (W.state world.new)) }
    ensures breaks { OnErr result
        (WritesBreak W.told (file_of cert.now text.now) (W.state world.old) (W.state world.new)) }
{
    world.open_out(Slot::CertOut, cert)?;
    write_all(world, Slot::CertOut, text)?;
    world.close_out(Slot::CertOut)
}

// The certificate of some lines is written. All memory is taken before it is opened.
fn answer_blocked<W: World>(
    alloc: Global,
    world: &mut W,
    system: &System,
    cert: &str,
    report: Vec<u8>,
    lines: &[Line],
) -> Result<Reply, Stop>
    requires allowed { W.allows CertOut cert.now }
    requires below { All (λ line. AreBelow (length system.now.names) (literals line)) lines.now }
    ensures answers { IfOk result (λ reply.
        BlockedAnswers W.told (cert_output system.now cert.now lines.now) report.items
        reply (W.state world.old) (W.state world.new)) }
    ensures stop { IfErr result (λ stop.
        IsWriteStop W.told (cert_output system.now cert.now lines.now)
        (W.state world.old) (W.state world.new) stop) }
{
    let text = write(alloc, lines, system.names())?;
    write_certificate(world, cert, &text)?;
    Ok(Reply {
        status: Status::Done,
        line: report,
    })
}

// The reply on an explanation of what follows a run of so many steps.
fn answer_explained<W: World>(
    alloc: Global,
    world: &mut W,
    system: &System,
    cert: &str,
    steps: u64,
    explained: &Explained,
) -> Result<Reply, Stop>
    requires allowed { W.allows CertOut cert.now }
    requires accepted { IsAccepted system.now }
    requires explained { (formulas : List Plain) × (length formulas ≡ item_count system.now)
        × Explains (scope_of system.now) formulas explained.now }
    ensures answers { IfOk result (λ reply. (formulas : List Plain) →
        Explains (scope_of system.now) formulas explained.now →
        RunAnswers W.told system.now cert.now steps formulas (W.state world.old)
        (W.state world.new) reply) }
    ensures stop { IfErr result (λ stop. (formulas : List Plain) →
        Explains (scope_of system.now) formulas explained.now →
        IsRunStop W.told system.now cert.now formulas (W.state world.old)
        (W.state world.new) stop) }
{
    match explained {
        Explained::Open(_set) => Ok(Reply {
            status: Status::No,
            line: explain_open(alloc, steps)?,
        }),
        Explained::Blocked {
            core,
            lines,
            without,
        } => {
            valid_lines_name_clocks();
            let report = blocked_report(alloc, system, steps, core.members(), without.members())?;
            answer_blocked(alloc, world, system, cert, report, lines.members())
        }
    }
}

// Explains what follows a run of so many steps, where the items have these formulas.
fn explain_formulas<W: World>(
    alloc: Global,
    world: &mut W,
    system: &System,
    cert: &str,
    steps: u64,
    formulas: &[Formula],
) -> Result<Reply, Stop>
    requires allowed { W.allows CertOut cert.now }
    requires below { All (ReadsBelow (length system.now.names)) (map plain formulas.now) }
    requires count { length formulas.now ≡ item_count system.now }
    ensures answers { IfOk result (λ reply.
        RunAnswers W.told system.now cert.now steps (map plain formulas.now)
        (W.state world.old) (W.state world.new) reply) }
    ensures stop { IfErr result (λ stop.
        IsRunStop W.told system.now cert.now (map plain formulas.now)
        (W.state world.old) (W.state world.new) stop) }
{
    let explained = ccsl_explain::explain(alloc, formulas, &system.scope())?;
    answer_explained(alloc, world, system, cert, steps, &explained)
}

// Explains what follows a run of so many steps.
fn explain_run<W: World>(
    alloc: Global,
    world: &mut W,
    system: &System,
    cert: &str,
    steps: u64,
    states: &States<'_>,
) -> Result<Reply, Stop>
    requires allowed { W.allows CertOut cert.now }
    requires system { states.now.system ≡ system.now }
    ensures answers { IfOk result (λ reply. (T : List Step) → StandsFor states.now T →
        RunAnswers W.told system.now cert.now steps (item_formulas system.now T) (W.state world.old)
        (W.state world.new) reply) }
    ensures stop { IfErr result (λ stop. (T : List Step) → StandsFor states.now T →
        IsRunStop W.told system.now cert.now (item_formulas system.now T) (W.state world.old)
        (W.state world.new) stop) }
{
    let mut formulas = Vec::new(alloc);
    put_formulas(alloc, system, states, &mut formulas)?;
    explain_formulas(alloc, world, system, cert, steps, &formulas)
}

/// Says which items of a system block every step behind the trace of a name, and writes a certificate that cites no
/// other item. It is opened only where items block.
pub(crate) fn explain<W: World>(
    alloc: Global,
    keys: HashKeys,
    world: &mut W,
    system: &System,
    trace: &str,
    cert: &str,
) -> Result<Reply, Stop>
    requires trace { W.allows Trace trace.now }
    requires cert { W.allows CertOut cert.now }
    ensures answers { IfOk result (λ reply. TraceAnswers W.told system.now cert.now trace.now
        (W.state world.old) (W.state world.new) reply) }
    ensures stop { IfErr result (λ stop. IsTraceStop W.told system.now cert.now trace.now
        (W.state world.old) (W.state world.new) stop) }
{
    world.open_in(Slot::Trace, trace)?;
    match replay(alloc, keys, world, system, &LIMITS) {
        Ok(Replayed::Run { steps, states }) => {
            explain_run(alloc, world, system, cert, steps, &states)
        }
        Ok(Replayed::NotRun(broken)) => Ok(Reply {
            status: Status::No,
            line: explain_no_run(alloc, broken.step, broken.time, broken.item, system)?,
        }),
        Err(ReplayFault::Refused(fault)) => Ok(Reply {
            status: Status::FileRefused,
            line: trace_refused(alloc, &fault, system)?,
        }),
        Err(ReplayFault::Fault) => Err(Stop::Fault),
        Err(ReplayFault::Memory) => Err(Stop::Memory),
    }
}
