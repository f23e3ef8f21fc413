//! What is written of a time.

ghost use Rattle.std.specs.Prelude.{◌≡◌, ◌++◌, ℕ, List, length, nat_lt, IfOk, OnOk};
ghost use Rattle.ccsl_triggers.specs.Output.{code_byte, code_of, time_line, tick_line, tick_lines, row_text};

use crate::time_line::TimeLine;
use ccsl_base::{ClockSet, Memory};

fn code_byte(i: u32) -> u8
    ensures { result ≡ code_byte i }
{
    b'!' + (i % 94) as u8
}

/// The code of a name: one visible byte, or two.
pub fn put_code(name: u32, out: &mut Vec<u8>) -> Result<(), Memory>
    ensures { OnOk result (out.new.items ≡ out.old.items ++ code_of name) }
{
    if name < 94 {
        out.push(code_byte(name))?;
        return Ok(());
    }
    out.push(code_byte((name - 94) / 94))?;
    out.push(code_byte((name - 94) % 94))?;
    Ok(())
}

#[inline(always)]
fn put_tick(name: u32, out: &mut Vec<u8>) -> Result<(), Memory>
    ensures { OnOk result (out.new.items ≡ out.old.items ++ tick_line name) }
{
    if name < 94 {
        out.extend_from_slice(&[b'1', code_byte(name), b'\n'])?;
        return Ok(());
    }
    out.push(b'1')?;
    put_code(name, out)?;
    out.push(b'\n')?;
    Ok(())
}

#[inline(always)]
fn put_ticks(names: &ClockSet, out: &mut Vec<u8>) -> Result<(), Memory>
    ensures { OnOk result (out.new.items ≡ out.old.items ++ tick_lines names.now) }
{
    for name in names.members() {
        put_tick(name, out)?;
    }
    Ok(())
}

/// Appends the row of a time: its line, and one for each name that happens, if any does. It answers whether any does.
#[inline(always)]
pub fn put_row(line: &TimeLine, names: &ClockSet, out: &mut Vec<u8>) -> Result<bool, Memory>
    ensures row { OnOk result ((digits : List ℕ) → line.now ≡ time_line digits →
        out.new.items ≡ out.old.items ++ row_text digits names.now) }
    ensures some { IfOk result (λ is_row. is_row ≡ nat_lt 0 (length names.now)) }
{
    if names.is_empty() {
        return Ok(false);
    }
    line.put(out)?;
    put_ticks(names, out)?;
    Ok(true)
}
