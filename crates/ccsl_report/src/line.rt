//! Lines of pieces.

ghost use Rattle.std.specs.Prelude.{◌≡◌, ◌+◌, ◌<◌, ◌≤◌, ◌++◌, OnOk, OnErr, IfOk, length, vec_len, vec_capacity};
ghost use Rattle.ccsl_report.specs.Line.{line};
ghost use Rattle.std.specs.List.{concat};
ghost use Rattle.ccsl_report.specs.Parts.{part_text, part_texts};

use ccsl_base::Memory;
use itoa::Buffer;
use std::alloc::{AllocError, Global};

/// A piece of a line.
#[derive(Clone, Copy)]
pub(crate) enum Part<'a> {
    Text(&'a str),
    Name(&'a [u8]),
    Number(u64),
}

// Fails only where the room is not there.
fn append(out: &mut Vec<u8>, part: &Part<'_>) -> Result<(), AllocError>
    ensures text { OnOk result (out.new.items ≡ out.old.items ++ part_text part.now) }
    ensures full { OnErr result (vec_capacity out.old
        < vec_len out.old + length (part_text part.now)) }
    ensures len { OnOk result (vec_len out.new ≡ vec_len out.old + length (part_text part.now)) }
    ensures capacity { vec_capacity out.old ≤ vec_capacity out.new }
{
    match part {
        Part::Text(text) => out.extend_from_slice(text.as_bytes()),
        Part::Name(name) => out.extend_from_slice(name),
        Part::Number(number) => out.extend_from_slice(Buffer::new().format(*number).as_bytes()),
    }
}

fn append_all(out: &mut Vec<u8>, parts: &[Part<'_>]) -> Result<(), AllocError>
    ensures text { OnOk result (out.new.items ≡ out.old.items ++ concat (part_texts parts.now)) }
    ensures full { OnErr result (vec_capacity out.old
        < vec_len out.old + length (concat (part_texts parts.now))) }
    ensures len { OnOk result (vec_len out.new
        ≡ vec_len out.old + length (concat (part_texts parts.now))) }
    ensures capacity { vec_capacity out.old ≤ vec_capacity out.new }
{
    for part in parts {
        append(out, part)?;
    }
    Ok(())
}

fn append_line(out: &mut Vec<u8>, parts: &[Part<'_>]) -> Result<(), AllocError>
    ensures text { OnOk result (out.new.items ≡ out.old.items ++ line (part_texts parts.now)) }
    ensures full { OnErr result (vec_capacity out.old
        < vec_len out.old + length (line (part_texts parts.now))) }
{
    append_all(out, parts)?;
    out.extend_from_slice(b"\n")
}

/// A line of these pieces.
pub(crate) fn line(alloc: Global, parts: &[Part<'_>]) -> Result<Vec<u8>, Memory>
    ensures { IfOk result (λ text. text.items ≡ line (part_texts parts.now)) }
{
    let mut out = Vec::new(alloc);
    append_line(&mut out, parts)?;
    Ok(out)
}

/// Appends a line for which there is room.
pub(crate) fn put_line(out: &mut Vec<u8>, parts: &[Part<'_>])
    requires { vec_len out.old + length (line (part_texts parts.now)) ≤ vec_capacity out.old }
    ensures { out.new.items ≡ out.old.items ++ line (part_texts parts.now) }
{
    let there_was_room = append_line(out, parts).is_ok();
    prove!(there_was_room);
}
