//! The answers of the commands; those of `periodic` and `explain` stand apart.

ghost use Rattle.std.specs.Prelude.{◌≡◌, ◌<◌, IfOk, codes};
ghost use Rattle.ccsl_kernel.specs.Syntax.{item_count};
ghost use Rattle.ccsl_report.specs.Texts.{checked_text, run_yes_text, broken_text, simulated_text, deadlocked_text, cert_valid_text, cert_no_line_text};
ghost use Rattle.ccsl_report.specs.Texts.{trial_text, session_too_long_text};

use crate::item::broken_parts;
use crate::line::Part::{Number, Text};
use crate::line::line;
use ccsl_base::Memory;
use ccsl_kernel::System;
use std::alloc::Global;

/// `check`: the specification is accepted.
pub fn checked(alloc: Global, system: &System) -> Result<Vec<u8>, Memory>
    ensures { IfOk result (λ text. text.items ≡ checked_text system.now) }
{
    let parts = [
        Text("check: accepted, declared "),
        Number(u64::from(system.scope().declared)),
        Text(", defined "),
        Number(u64::from(system.definitions())),
        Text(", constraints "),
        Number(u64::from(system.constraints())),
        Text(", cells "),
        Number(u64::from(system.cells())),
    ];
    line(alloc, &parts)
}

/// `judge`: the trace is a run of so many steps.
pub fn run_yes(alloc: Global, steps: u64) -> Result<Vec<u8>, Memory>
    ensures { IfOk result (λ text. text.items ≡ run_yes_text steps) }
{
    line(alloc, &[Text("run: yes, "), Number(steps), Text(" steps")])
}

/// `judge`: the trace breaks an item at a step, which has this time.
pub fn run_no(
    alloc: Global,
    step: u64,
    time: u64,
    item: u32,
    system: &System,
) -> Result<Vec<u8>, Memory>
    requires { item < item_count system.now }
    ensures { IfOk result (λ text. text.items
        ≡ broken_text (codes "run: ") step time item system.now) }
{
    line(alloc, &broken_parts("run: ", step, time, item, system))
}

/// `simulate`: all steps were made.
pub fn simulated(alloc: Global, steps: u64) -> Result<Vec<u8>, Memory>
    ensures { IfOk result (λ text. text.items ≡ simulated_text steps) }
{
    line(
        alloc,
        &[Text("simulate: done, "), Number(steps), Text(" steps")],
    )
}

/// `simulate`: no step is left after so many.
pub fn deadlocked(alloc: Global, steps: u64) -> Result<Vec<u8>, Memory>
    ensures { IfOk result (λ text. text.items ≡ deadlocked_text steps) }
{
    line(
        alloc,
        &[
            Text("simulate: deadlock after "),
            Number(steps),
            Text(" steps"),
        ],
    )
}

/// `certify`: the trace is a run of so many steps, and the certificate shows that no step is left after it.
pub fn cert_valid(alloc: Global, steps: u64) -> Result<Vec<u8>, Memory>
    ensures { IfOk result (λ text. text.items ≡ cert_valid_text steps) }
{
    line(
        alloc,
        &[Text("certificate: valid, "), Number(steps), Text(" steps")],
    )
}

/// `certify`: the trace breaks an item.
pub fn cert_no_run(
    alloc: Global,
    step: u64,
    time: u64,
    item: u32,
    system: &System,
) -> Result<Vec<u8>, Memory>
    requires { item < item_count system.now }
    ensures { IfOk result (λ text. text.items
        ≡ broken_text (codes "certificate: ") step time item system.now) }
{
    line(
        alloc,
        &broken_parts("certificate: ", step, time, item, system),
    )
}

/// `certify`: the line of this number, from 1, is not valid; or there are so many lines less 1, and none is the last
/// empty clause.
pub fn cert_no_line(alloc: Global, number: u64) -> Result<Vec<u8>, Memory>
    ensures { IfOk result (λ text. text.items ≡ cert_no_line_text number) }
{
    line(alloc, &[Text("certificate: no, line "), Number(number)])
}

/// `trial`: the chain of clocks was simulated, and what was written was judged to be a run.
pub fn trial_done(alloc: Global, clocks: u32, steps: u64, ticks: u64) -> Result<Vec<u8>, Memory>
    ensures { IfOk result (λ text. text.items ≡ trial_text clocks steps ticks) }
{
    let parts = [
        Text("trial: clocks "),
        Number(u64::from(clocks)),
        Text(", steps "),
        Number(steps),
        Text(", ticks "),
        Number(ticks),
        Text(", run: yes"),
    ];
    line(alloc, &parts)
}

/// `session`: the input has more bytes than are taken.
pub fn session_too_long(alloc: Global) -> Result<Vec<u8>, Memory>
    ensures { IfOk result (λ text. text.items ≡ session_too_long_text) }
{
    line(alloc, &[Text("session: too long")])
}
