//! The lines on refused traces.

ghost use Rattle.std.specs.Prelude.{◌≡◌, ◌≢◌, ◌≤◌, length, codes};
ghost use Rattle.ccsl_report.specs.Line.{line};
ghost use Rattle.ccsl_report.specs.Parts.{part_texts};
ghost use Rattle.ccsl_report.specs.Room.{full_room};
ghost use Rattle.ccsl_report.specs.Texts.{clock_name, fault_at, time_back_text, clock_fault, trace_text};

use crate::line::Part;
use crate::line::Part::{Name, Number, Text};
use ccsl_kernel::System;
use ccsl_vcd::VcdFault;

fn at_byte<'a>(kind: &'a str, at: u64) -> [Part<'a>; 7]
    requires { length kind.now ≤ 40 }
    ensures text { line (part_texts result) ≡ fault_at (codes "trace: ") kind.now at }
    ensures short { length (fault_at (codes "trace: ") kind.now at) ≤ 128 }
{
    [
        Text("trace: "),
        Text(kind),
        Text(" at byte "),
        Number(at),
        Text(""),
        Text(""),
        Text(""),
    ]
}

fn time_back<'a>(present: u64, time: u64, at: u64) -> [Part<'a>; 7]
    ensures text { line (part_texts result) ≡ time_back_text present time at }
    ensures short { length (time_back_text present time at) ≤ 128 }
{
    [
        Text("trace: time goes back from "),
        Number(present),
        Text(" to "),
        Number(time),
        Text(" at byte "),
        Number(at),
        Text(""),
    ]
}

// A clock that the system does not have has no name.
fn clock_name<'a>(system: &'a System, clock: u32) -> &'a [u8]
    ensures { result.now ≡ clock_name system.now clock }
{
    let names = system.names();
    if clock < names.len() {
        names.get(clock)
    } else {
        b"".as_slice()
    }
}

fn with_clock<'a>(kind: &'a str, system: &'a System, clock: u32) -> [Part<'a>; 7]
    requires kind { length kind.now ≤ 40 }
    ensures text { line (part_texts result) ≡ clock_fault kind.now system.now clock }
    ensures short { length (clock_fault kind.now system.now clock) ≤ full_room system.now }
{
    [
        Text("trace: "),
        Text(kind),
        Name(clock_name(system, clock)),
        Text(""),
        Text(""),
        Text(""),
        Text(""),
    ]
}

/// The pieces of the line on a refused trace; of a want of memory there is no line.
pub(crate) fn trace_parts<'a>(fault: &VcdFault, system: &'a System) -> [Part<'a>; 7]
    ensures text { fault.now ≢ VcdFault.Memory →
        line (part_texts result) ≡ trace_text fault.now system.now }
    ensures short { length (line (part_texts result)) ≤ full_room system.now }
{
    match fault {
        VcdFault::TokenTooLong { at } => at_byte("token too long", *at),
        VcdFault::BadHeader { at } => at_byte("bad header", *at),
        VcdFault::TooManyVars { at } => at_byte("too many variables", *at),
        VcdFault::TooDeep { at } => at_byte("too deep", *at),
        VcdFault::BadTime { at } => at_byte("bad time", *at),
        VcdFault::BadChange { at } => at_byte("bad change", *at),
        VcdFault::UnknownCode { at } => at_byte("unknown code", *at),
        VcdFault::UnknownCommand { at } => at_byte("unknown command", *at),
        VcdFault::Gap { at } => at_byte("gap", *at),
        VcdFault::Truncated { at } => at_byte("truncated", *at),
        VcdFault::TooLong { at } => at_byte("too long", *at),
        VcdFault::TimeBack { at, present, time } => time_back(*present, *time, *at),
        VcdFault::Unbound { clock } => with_clock("unbound clock ", system, *clock),
        VcdFault::Ambiguous { clock } => with_clock("ambiguous clock ", system, *clock),
        VcdFault::Memory => at_byte("", 0),
    }
}
