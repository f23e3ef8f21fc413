//! The report of `judge`, for which memory is taken before the trace is read.

ghost use Rattle.std.specs.Prelude.{◌≡◌, ◌+◌, ◌<◌, ◌≤◌, ◌++◌, map, max, vec_len, vec_capacity, codes};
ghost use Rattle.ccsl_kernel.specs.Syntax.{item_count};
ghost use Rattle.ccsl_report.specs.Room.{longest, room};
ghost use Rattle.ccsl_report.specs.Texts.{run_yes_text, broken_text, trace_text};

use crate::fault::trace_parts;
use crate::item::broken_parts;
use crate::line::Part::{Number, Text};
use crate::line::put_line;
use ccsl_base::Names;
use ccsl_kernel::System;
use ccsl_vcd::VcdFault;

fn longer(a: usize, b: usize) -> usize
    ensures { result ≡ max a b }
{
    if a < b { b } else { a }
}

fn longest_name(names: &Names) -> usize
    ensures { result ≡ longest names.now }
{
    let mut longest = 0;
    for i in 0..names.len() {
        longest = longer(longest, names.get(i).len());
    }
    longest
}

fn longest_label(system: &System) -> usize
    ensures { result ≡ longest (map (λ c. c.label) system.now.constraints) }
{
    let mut longest = 0;
    for i in 0..system.constraints() {
        longest = longer(longest, system.constraint(i).label.bytes().len());
    }
    longest
}

/// Bytes that are enough for each line that `judge` over this system may report of the trace: the calls below append
/// theirs within it.
pub fn judge_room(system: &System) -> usize
    ensures room { result ≡ room system.now }
    ensures least { 64 ≤ result }
{
    longer(longest_name(system.names()), longest_label(system)).saturating_add(128)
}

/// Appends the line of a run. It takes no memory.
#[tactic(auto, using(crate::proofs::Lengths::run_short))]
pub fn put_run(steps: u64, out: &mut Vec<u8>)
    requires { vec_len out.old + 64 ≤ vec_capacity out.old }
    ensures { out.new.items ≡ out.old.items ++ run_yes_text steps }
{
    put_line(out, &[Text("run: yes, "), Number(steps), Text(" steps")]);
}

/// Appends the line on a broken item. It takes no memory.
pub fn put_no_run(step: u64, time: u64, item: u32, system: &System, out: &mut Vec<u8>)
    requires item { item < item_count system.now }
    requires room { vec_len out.old + room system.now ≤ vec_capacity out.old }
    ensures { out.new.items ≡ out.old.items
        ++ broken_text (codes "run: ") step time item system.now }
{
    put_line(out, &broken_parts("run: ", step, time, item, system));
}

/// Appends the line on a refused trace. It takes no memory.
pub fn put_trace_fault(fault: &VcdFault, system: &System, out: &mut Vec<u8>)
    requires room { vec_len out.old + room system.now ≤ vec_capacity out.old }
    ensures { out.new.items ≡ out.old.items ++ trace_text fault.now system.now }
{
    if !matches!(fault, VcdFault::Memory) {
        put_line(out, &trace_parts(fault, system));
    }
}
