//! The answers of `explain`.

ghost use Rattle.std.specs.Prelude.{◌≡◌, ◌<◌, ◌++◌, ℕ, true, OnOk, IfOk, length, codes};
ghost use Rattle.ccsl_base.specs.Clocks.{ticks_in};
ghost use Rattle.ccsl_kernel.specs.Syntax.{item_count};
ghost use Rattle.std.specs.List.{concat};
ghost use Rattle.ccsl_report.specs.Parts.{part_texts};
ghost use Rattle.ccsl_report.specs.Texts.{broken_text, explain_open_text, explain_blocked_text, explain_member_text, parted};

use crate::item::{broken_parts, item_parts};
use crate::line::Part::{Name, Number, Text};
use crate::line::{Part, line};
use ccsl_base::{ClockSet, Memory};
use ccsl_kernel::System;
use std::alloc::Global;

/// The trace breaks an item at a step, which has this time.
pub fn explain_no_run(
    alloc: Global,
    step: u64,
    time: u64,
    item: u32,
    system: &System,
) -> Result<Vec<u8>, Memory>
    requires { item < item_count system.now }
    ensures { IfOk result (λ text. text.items
        ≡ broken_text (codes "explain: ") step time item system.now) }
{
    line(alloc, &broken_parts("explain: ", step, time, item, system))
}

/// A step is possible after so many.
pub fn explain_open(alloc: Global, steps: u64) -> Result<Vec<u8>, Memory>
    ensures { IfOk result (λ text. text.items ≡ explain_open_text steps) }
{
    let parts = [
        Text("explain: not blocked after "),
        Number(steps),
        Text(" steps"),
    ];
    line(alloc, &parts)
}

/// No step is possible after so many, and so many items block every one.
pub fn explain_blocked(alloc: Global, steps: u64, items: u32) -> Result<Vec<u8>, Memory>
    ensures { IfOk result (λ text. text.items ≡ explain_blocked_text steps items) }
{
    let parts = [
        Text("explain: blocked after "),
        Number(steps),
        Text(" steps by "),
        Number(u64::from(items)),
        Text(" items"),
    ];
    line(alloc, &parts)
}

// Appends the names of clocks, parted by blanks.
fn push_names<'a>(
    parts: &mut Vec<Part<'a>>,
    clocks: &ClockSet,
    system: &'a System,
) -> Result<(), Memory>
    requires { (x : ℕ) → ticks_in x clocks.now ≡ true → x < length system.now.names }
    ensures { OnOk result (concat (part_texts parts.new.items) ≡
        concat (part_texts parts.old.items) ++ concat (parted system.now clocks.now)) }
{
    let mut members = clocks.members();
    let Some(first) = members.next() else {
        return Ok(());
    };
    parts.push(Name(system.names().get(first)))?;
    for clock in members {
        parts.push(Text(" "))?;
        parts.push(Name(system.names().get(clock)))?;
    }
    Ok(())
}

/// An item that blocks, and the clocks of a step that would be possible without it.
pub fn explain_member(
    alloc: Global,
    item: u32,
    set: &ClockSet,
    system: &System,
) -> Result<Vec<u8>, Memory>
    requires item { item < item_count system.now }
    requires named { (x : ℕ) → ticks_in x set.now ≡ true → x < length system.now.names }
    ensures { IfOk result (λ text. text.items ≡ explain_member_text item set.now system.now) }
{
    let mut parts = Vec::from_slice(alloc, &item_parts(system, item))?;
    parts.push(Text(": "))?;
    push_names(&mut parts, set, system)?;
    line(alloc, &parts)
}
