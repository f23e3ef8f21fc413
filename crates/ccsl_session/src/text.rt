//! The parts of an answer's text.

ghost use Rattle.std.specs.Prelude.{◌≡◌, ◌++◌, OnOk, length, true, decimal};
ghost use Rattle.ccsl_base.specs.Clocks.{are_below};
ghost use Rattle.ccsl_session.specs.Answers.{answer_line, blank_names, step_text, allowed_text};

use ccsl_base::{ClockSet, Memory};
use ccsl_kernel::System;
use itoa::Buffer;

/// A line.
pub(crate) fn put_line(line: &[u8], out: &mut Vec<u8>) -> Result<(), Memory>
    ensures { OnOk result (out.new.items ≡ out.old.items ++ answer_line line.now) }
{
    out.extend_from_slice(line)?;
    out.push(b'\n')?;
    Ok(())
}

fn put_number(number: u64, out: &mut Vec<u8>) -> Result<(), Memory>
    ensures { OnOk result (out.new.items ≡ out.old.items ++ decimal number) }
{
    out.extend_from_slice(Buffer::new().format(number).as_bytes())?;
    Ok(())
}

/// A line of a word and a number.
pub(crate) fn put_numbered(word: &[u8], number: u64, out: &mut Vec<u8>) -> Result<(), Memory>
    ensures { OnOk result (out.new.items
        ≡ out.old.items ++ answer_line (word.now ++ decimal number)) }
{
    out.extend_from_slice(word)?;
    put_number(number, out)?;
    put_line(b"", out)
}

/// The names of clocks, each behind a blank.
fn put_names(set: &ClockSet, system: &System, out: &mut Vec<u8>) -> Result<(), Memory>
    requires { are_below (length system.now.names) set.now ≡ true }
    ensures { OnOk result (out.new.items ≡ out.old.items ++ blank_names system.now set.now) }
{
    for clock in set.members() {
        out.push(b' ')?;
        out.extend_from_slice(system.names().get(clock))?;
    }
    Ok(())
}

/// The line of step number `count`, counted from 1.
pub(crate) fn put_step(
    count: u64,
    set: &ClockSet,
    system: &System,
    out: &mut Vec<u8>,
) -> Result<(), Memory>
    requires { are_below (length system.now.names) set.now ≡ true }
    ensures { OnOk result (out.new.items ≡ out.old.items ++ step_text system.now count set.now) }
{
    out.extend_from_slice(b"step ")?;
    put_number(count, out)?;
    out.push(b':')?;
    put_names(set, system, out)?;
    put_line(b"", out)
}

/// The line of the clocks that may tick.
pub(crate) fn put_allowed(set: &ClockSet, system: &System, out: &mut Vec<u8>) -> Result<(), Memory>
    requires { are_below (length system.now.names) set.now ≡ true }
    ensures { OnOk result (out.new.items ≡ out.old.items ++ allowed_text system.now set.now) }
{
    out.extend_from_slice(b"allowed:")?;
    put_names(set, system, out)?;
    put_line(b"", out)
}
