//! What is written.

ghost use Rattle.std.specs.Prelude.{◌≡◌, ◌≤◌, ◌++◌, length, IfOk, OnOk};
ghost use Rattle.std.specs.Option.{option_copied};
ghost use Rattle.ccsl_base.specs.declared.limits.TheConstants.{MAX_CLOCKS};
ghost use Rattle.ccsl_events.specs.Written.{timescale_line, event_line, event_lines, header_text, names_of};

use ccsl_base::Memory;
use ccsl_event_file::Event;
use ccsl_triggers::put_code;
use std::alloc::Global;

/// A block of rows is written once it has so many bytes.
pub const FULL: usize = 65_536;

fn put_timescale(timescale: Option<&[u8]>, out: &mut Vec<u8>) -> Result<(), Memory>
    ensures { OnOk result (out.new.items
        ≡ out.old.items ++ timescale_line (option_copied timescale.entry)) }
{
    if let Some(scale) = timescale {
        out.extend_from_slice(b"$timescale ")?;
        out.extend_from_slice(scale)?;
        out.extend_from_slice(b" $end\n")?;
    }
    Ok(())
}

// The declaration of the name with a number.
fn put_event(number: u32, name: &[u8], out: &mut Vec<u8>) -> Result<(), Memory>
    ensures { OnOk result (out.new.items ≡ out.old.items ++ event_line number name.now) }
{
    out.extend_from_slice(b"$var event 1 ")?;
    put_code(number, out)?;
    out.push(b' ')?;
    out.extend_from_slice(name)?;
    out.extend_from_slice(b" $end\n")?;
    Ok(())
}

fn put_events(events: &[Event], out: &mut Vec<u8>) -> Result<(), Memory>
    requires few { length events.now ≤ MAX_CLOCKS }
    ensures { OnOk result (out.new.items ≡ out.old.items ++ event_lines 0 (names_of events.now)) }
{
    let mut number = 0;
    for event in events {
        put_event(number, event.name.as_slice(), out)?;
        number += 1;
    }
    Ok(())
}

/// The header of a trace of these events, and with the time scale of the dump.
pub fn header_text(
    alloc: Global,
    timescale: Option<&[u8]>,
    events: &[Event],
) -> Result<Vec<u8>, Memory>
    requires few { length events.now ≤ MAX_CLOCKS }
    ensures { IfOk result (λ text. text.items
        ≡ header_text (option_copied timescale.entry) (names_of events.now)) }
{
    let mut out = Vec::new(alloc);
    put_timescale(timescale, &mut out)?;
    out.extend_from_slice(b"$scope module events $end\n")?;
    put_events(events, &mut out)?;
    out.extend_from_slice(b"$upscope $end\n$enddefinitions $end\n")?;
    Ok(out)
}
