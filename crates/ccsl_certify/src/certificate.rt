//! Checking a certificate behind a trace.

ghost use Rattle.std.specs.Prelude.{◌≡◌, ℕ, List, Ok, IfOk, IfErr};
ghost use Rattle.ccsl_base.specs.declared.rows.Row.{Row};
ghost use Rattle.ccsl_edge.specs.declared.slot.Slot.TheVariants as slots;
ghost use Rattle.ccsl_edge.specs.World.{State};
ghost use Rattle.ccsl_edge.specs.Calls.{ReadsAll};
ghost use Rattle.ccsl_refute.specs.Reading.{reading};
ghost use Rattle.ccsl_certify.specs.declared.answer.CertifyFault.TheVariants as faults;
ghost use Rattle.ccsl_certify.specs.Replaying.{IsTrace};
ghost use Rattle.ccsl_certify.specs.Replaying as replaying;
ghost use Rattle.ccsl_certify.specs.Certified.{Answers, IsCertified, IsUncertified};

use crate::answer::{CertVerdict, CertifyFault, Replayed};
use crate::trace::replay;
use ccsl_base::{HashKeys, Memory};
use ccsl_edge::{Slot, World, read_all};
use ccsl_items::put_formulas;
use ccsl_kernel::System;
use ccsl_refute::{CheckFault, Line, check, read};
use ccsl_state::States;
use ccsl_vcd::Limits;
use std::alloc::Global;

// Checks lines against the formulas of all items after a run of so many steps.
fn check_lines(
    alloc: Global,
    system: &System,
    steps: u64,
    states: &States<'_>,
    lines: &[Line],
) -> Result<CertVerdict, CertifyFault>
    requires { states.now.system ≡ system.now }
    ensures answers { IfOk result (λ v. (bound : List ℕ) (rows : List Row) →
        replaying.Answers system.now bound rows (Replayed.Run steps states.now) →
        Answers system.now bound rows lines.now v) }
    ensures memory { IfErr result (λ fault. fault ≡ faults.Memory) }
{
    let mut formulas = Vec::new(alloc);
    match put_formulas(alloc, system, states, &mut formulas) {
        Ok(()) => {}
        Err(Memory) => return Err(CertifyFault::Memory),
    }
    match check(alloc, lines, &formulas, &system.scope()) {
        Ok(()) => Ok(CertVerdict::Yes(steps)),
        Err(CheckFault::BadLine(line)) => Ok(CertVerdict::BadLine(line)),
        Err(CheckFault::Memory) => Err(CertifyFault::Memory),
    }
}

// Checks lines behind what a trace is.
fn check_replayed(
    alloc: Global,
    system: &System,
    replayed: Replayed<'_>,
    lines: &[Line],
) -> Result<CertVerdict, CertifyFault>
    requires { (bound : List ℕ) × (rows : List Row)
        × replaying.Answers system.now bound rows replayed }
    ensures answers { IfOk result (λ v. (bound : List ℕ) (rows : List Row) →
        replaying.Answers system.now bound rows replayed.entry →
        Answers system.now bound rows lines.now v) }
    ensures memory { IfErr result (λ fault. fault ≡ faults.Memory) }
{
    match replayed {
        Replayed::NotRun(violation) => Ok(CertVerdict::NotRun(violation)),
        Replayed::Run { steps, states } => check_lines(alloc, system, steps, &states, lines),
    }
}

// Reads the certificate behind a trace.
fn read_certificate<W: World>(
    alloc: Global,
    world: &mut W,
    system: &System,
    limits: &Limits,
) -> Result<Vec<Line>, CertifyFault>
    ensures reads { IfOk result (λ lines. (text : List ℕ)
        × ReadsAll W.told slots.Cert limits.now.bytes text (W.state world.old) (W.state world.new)
        × (reading system.now.names text ≡ Ok lines.items)) }
    ensures uncertified { IfErr result (λ fault.
        (start : State) (bound : List ℕ) (rows : List Row) →
        IsTrace W.told system.now limits.now start (W.state world.old) bound rows →
        IsUncertified W.told system.now limits.now start (W.state world.new) fault) }
{
    let text = read_all(alloc, world, Slot::Cert, limits.bytes)?;
    Ok(read(alloc, &text, system.names())?)
}

/// Reads the trace to its end, then the certificate, and says whether the trace is a run and the lines of the
/// certificate show that no step is left after it. The certificate has at most as many bytes as the limits allow a
/// trace.
pub fn certify<W: World>(
    alloc: Global,
    keys: HashKeys,
    world: &mut W,
    system: &System,
    limits: &Limits,
) -> Result<CertVerdict, CertifyFault>
    ensures certified { IfOk result (λ v.
        IsCertified W.told system.now limits.now (W.state world.old) (W.state world.new) v) }
    ensures uncertified { IfErr result (λ fault.
        IsUncertified W.told system.now limits.now (W.state world.old) (W.state world.new) fault) }
{
    let replayed = replay(alloc, keys, world, system, limits)?;
    match read_certificate(alloc, world, system, limits) {
        Ok(lines) => check_replayed(alloc, system, replayed, &lines),
        Err(fault) => {
            drop(replayed);
            Err(fault)
        }
    }
}
