//! The header of a trace, and its steps.

ghost use Rattle.std.specs.Prelude.{◌≡◌, ◌+◌, ◌<◌, ◌≤◌, [], ◌*◌, ◌∷◌, ◌++◌, IsTrue, IfOk, OnOk, OnErr, length, map, take, vec_len, vec_capacity};
ghost use Rattle.ccsl_base.specs.Clocks.{is_ascending};
ghost use Rattle.ccsl_vcd_write.specs.Room.{step_room};
ghost use Rattle.ccsl_vcd_write.specs.Text.{text_of, var_line, var_lines, header_text, time_line, tick_line, written_part, step_text};

use crate::code::{MOST_CODE_BYTES, put_code};
use crate::digits::put_decimal;
use ccsl_base::{ClockSet, MAX_CLOCKS, Memory, Names};
use ccsl_kernel::System;
use std::alloc::Global;

fn put_line(line: &[u8], out: &mut Vec<u8>) -> Result<(), Memory>
    ensures { OnOk result (out.new.items ≡ out.old.items ++ text_of (line.now ∷ [])) }
{
    out.extend_from_slice(line)?;
    out.push(b'\n')?;
    Ok(())
}

/// The line that declares a clock.
fn put_var(clock: u32, name: &[u8], out: &mut Vec<u8>) -> Result<(), Memory>
    requires { clock < MAX_CLOCKS }
    ensures { OnOk result (out.new.items
        ≡ out.old.items ++ text_of (var_line clock name.now ∷ [])) }
{
    out.extend_from_slice(b"$var event 1 ")?;
    out.reserve(MOST_CODE_BYTES)?;
    put_code(clock, out);
    out.push(b' ')?;
    out.extend_from_slice(name)?;
    out.extend_from_slice(b" $end\n")?;
    Ok(())
}

/// The lines that declare the clocks below `written`.
fn put_vars(names: &Names, written: u32, out: &mut Vec<u8>) -> Result<(), Memory>
    requires named { written ≤ length names.now }
    requires few { written ≤ MAX_CLOCKS }
    ensures { OnOk result (out.new.items ≡
        out.old.items ++ text_of (var_lines 0 (take written names.now))) }
{
    for clock in 0..written {
        put_var(clock, names.get(clock), out)?;
    }
    Ok(())
}

fn put_header(system: &System, out: &mut Vec<u8>) -> Result<(), Memory>
    ensures { OnOk result (out.new.items ≡ out.old.items ++ header_text system.now) }
{
    put_line(b"$version ccsl $end", out)?;
    put_line(b"$timescale 1 ns $end", out)?;
    put_line(b"$scope module ccsl $end", out)?;
    put_vars(system.names(), system.written(), out)?;
    put_line(b"$upscope $end", out)?;
    put_line(b"$enddefinitions $end", out)?;
    Ok(())
}

/// The header of a trace of a system: a time unit of 1 ns, one scope, and in it each clock below `written` as an event.
pub fn header(alloc: Global, system: &System) -> Result<Vec<u8>, Memory>
    ensures { IfOk result (λ text. text.items ≡ header_text system.now) }
{
    let mut out = Vec::new(alloc);
    put_header(system, &mut out)?;
    Ok(out)
}

/// The most bytes of the line of a time: a hash sign, the digits of 64 bits and a line feed.
const MOST_TIME_BYTES: usize = 22;

/// The most bytes of the line of a tick: its value, a code and a line feed.
const MOST_TICK_BYTES: usize = 4;

/// The line of a time.
#[inline(always)]
fn put_time(k: u64, out: &mut Vec<u8>)
    requires room { vec_len out.old + MOST_TIME_BYTES ≤ vec_capacity out.old }
    ensures text { out.new.items ≡ out.old.items ++ text_of (time_line k ∷ []) }
    ensures len { vec_len out.new ≤ vec_len out.old + MOST_TIME_BYTES }
    ensures capacity { vec_capacity out.new ≡ vec_capacity out.old }
{
    out.push_reserved(b'#');
    put_decimal(k, out);
    out.push_reserved(b'\n');
}

/// The line of a clock that ticks.
#[inline(always)]
fn put_tick(clock: u32, out: &mut Vec<u8>)
    requires below { clock < MAX_CLOCKS }
    requires room { vec_len out.old + MOST_TICK_BYTES ≤ vec_capacity out.old }
    ensures text { out.new.items ≡ out.old.items ++ text_of (tick_line clock ∷ []) }
    ensures len { vec_len out.new ≤ vec_len out.old + MOST_TICK_BYTES }
    ensures capacity { vec_capacity out.new ≡ vec_capacity out.old }
{
    out.push_reserved(b'1');
    put_code(clock, out);
    out.push_reserved(b'\n');
}

/// Makes room for a line for each clock that ticks, and one for the time.
#[cold]
#[inline(never)]
fn reserve_step(ticks: &ClockSet, out: &mut Vec<u8>) -> Result<(), Memory>
    ensures items { out.new.items ≡ out.old.items }
    ensures room { OnOk result (vec_len out.new + step_room ticks.now ≤ vec_capacity out.new) }
    ensures full { OnErr result (vec_capacity out.old < vec_len out.old + step_room ticks.now) }
{
    out.reserve(MOST_TIME_BYTES + MOST_TICK_BYTES * ticks.len() as usize)?;
    Ok(())
}

/// Makes room for the lines of a step. Room for all written clocks is enough, and it is seen at once, where the clocks
/// that tick have to be counted.
#[inline(always)]
fn make_room(ticks: &ClockSet, system: &System, out: &mut Vec<u8>) -> Result<(), Memory>
    requires ascending { IsTrue (is_ascending ticks.now) }
    ensures items { out.new.items ≡ out.old.items }
    ensures room { OnOk result (vec_len out.new + step_room (written_part system.now ticks.now) ≤
        vec_capacity out.new) }
    ensures full { OnErr result (vec_capacity out.old < vec_len out.old + step_room ticks.now) }
    ensures kept { vec_len out.old + (MOST_TIME_BYTES + MOST_TICK_BYTES * system.now.written) ≤
        vec_capacity out.old → vec_capacity out.new ≡ vec_capacity out.old }
{
    let enough = MOST_TIME_BYTES + MOST_TICK_BYTES * system.written() as usize;
    if out.capacity() - out.len() < enough {
        reserve_step(ticks, out)?;
    }
    Ok(())
}

/// Appends the text of step `k`: its time, and a line for each clock below `written` that ticks. That no memory is
/// taken where there is room for the step, but not for all written clocks, is code, no clause.
pub fn step(k: u64, ticks: &ClockSet, system: &System, out: &mut Vec<u8>) -> Result<(), Memory>
    ensures text { OnOk result (out.new.items ≡ out.old.items ++ step_text k system.now ticks.now) }
    ensures same { OnErr result (out.new.items ≡ out.old.items) }
    ensures room { OnErr result (vec_capacity out.old < vec_len out.old + step_room ticks.now) }
    // Where there is room for all written clocks no memory is taken.
    ensures kept { vec_len out.old + (MOST_TIME_BYTES + MOST_TICK_BYTES * system.now.written) ≤
        vec_capacity out.old → vec_capacity out.new ≡ vec_capacity out.old }
{
    let members = ticks.members();
    make_room(ticks, system, out)?;
    put_time(k, out);
    let written = system.written();
    for clock in members {
        if clock < written {
            put_tick(clock, out);
        }
    }
    Ok(())
}
