//! What a report said, read back from its text.

use ccsl_base::decimal;

/// An item by the name that reports give it.
#[derive(Clone, Copy)]
pub enum Named<'a> {
    Definition(&'a [u8]),
    Constraint(u32),
}

/// A report.
#[derive(Clone, Copy)]
pub enum Said<'a> {
    /// a run of so many steps
    Run(u64),
    /// no run: the first step at which an item is violated, from 0, its time in the trace's own unit, and the item
    Broken {
        step: u64,
        time: u64,
        item: Named<'a>,
    },
    /// the trace is refused at a byte
    Trace {
        kind: &'a [u8],
        at: u64,
    },
    Unbound(&'a [u8]),
    Ambiguous(&'a [u8]),
    /// the certificate is refused at a byte
    Cert {
        kind: &'a [u8],
        at: u64,
    },
    /// a line of the certificate, from 1, is not valid
    BadLine(u64),
    /// no step is left after so many, and these lines say which items block it
    Blocked {
        steps: u64,
        lines: &'a [u8],
    },
    /// no step is left after so many
    Deadlock(u64),
    Other,
}

/// What is left of a text behind a front that it has.
pub(crate) fn behind<'a>(text: &'a [u8], front: &[u8]) -> Option<&'a [u8]> {
    if text.len() < front.len() {
        return None;
    }
    let (head, rest) = text.split_at(front.len());
    if head == front { Some(rest) } else { None }
}

/// A text up to the first place of a byte, and behind it.
pub(crate) fn parted(text: &[u8], byte: u8) -> (&[u8], &[u8]) {
    match text.iter().position(|b| *b == byte) {
        Some(at) if at < text.len() => (&text[..at], &text[at + 1..]),
        _ => (text, &text[text.len()..]),
    }
}

/// The number at a text's front, and what follows it.
pub(crate) fn number(text: &[u8]) -> Option<(u64, &[u8])> {
    let count = text
        .iter()
        .position(|b| !(*b >= b'0' && *b <= b'9'))
        .unwrap_or(text.len());
    let (digits, rest) = text.split_at(count.min(text.len()));
    let value = decimal(digits, u64::MAX)?;
    Some((value, rest))
}

// The number behind a front.
fn number_behind<'a>(text: &'a [u8], front: &[u8]) -> Option<(u64, &'a [u8])> {
    number(behind(text, front)?)
}

/// The item that a text begins with, as `definition x` or `constraint 3 of ..`.
pub(crate) fn item(text: &[u8]) -> Option<Named<'_>> {
    if let Some(name) = behind(text, b"definition ") {
        let (name, _) = parted(name, b':');
        return Some(Named::Definition(name));
    }
    let (number, _) = number_behind(text, b"constraint ")?;
    match u32::try_from(number) {
        Ok(number) => Some(Named::Constraint(number)),
        Err(_) => None,
    }
}

// `no, step 2, time 35, ITEM`
fn broken(text: &[u8]) -> Option<Said<'_>> {
    let (step, rest) = number_behind(text, b"no, step ")?;
    let (time, rest) = number_behind(rest, b", time ")?;
    let item = item(behind(rest, b", ")?)?;
    Some(Said::Broken { step, time, item })
}

// `KIND at byte 12`
fn place(text: &[u8]) -> Option<(&[u8], u64)> {
    let mark = b" at byte ";
    for i in 0..text.len() {
        if let Some((at, [])) = number_behind(&text[i..], mark) {
            return Some((&text[..i], at));
        }
    }
    None
}

fn of_trace(text: &[u8]) -> Option<Said<'_>> {
    if let Some(name) = behind(text, b"unbound clock ") {
        return Some(Said::Unbound(name));
    }
    if let Some(name) = behind(text, b"ambiguous clock ") {
        return Some(Said::Ambiguous(name));
    }
    let (kind, at) = place(text)?;
    Some(Said::Trace { kind, at })
}

fn of_cert(text: &[u8]) -> Option<Said<'_>> {
    if let Some((steps, _)) = number_behind(text, b"valid, ") {
        return Some(Said::Run(steps));
    }
    if let Some((line, _)) = number_behind(text, b"no, line ") {
        return Some(Said::BadLine(line));
    }
    if let Some((kind, at)) = place(text) {
        return Some(Said::Cert { kind, at });
    }
    broken(text)
}

fn of_run(text: &[u8]) -> Option<Said<'_>> {
    match number_behind(text, b"yes, ") {
        Some((steps, _)) => Some(Said::Run(steps)),
        None => broken(text),
    }
}

fn of_line<'a>(line: &'a [u8], rest: &'a [u8]) -> Option<Said<'a>> {
    if let Some(text) = behind(line, b"run: ") {
        return of_run(text);
    }
    if let Some(text) = behind(line, b"certificate: ") {
        return of_cert(text);
    }
    if let Some(text) = behind(line, b"trace: ") {
        return of_trace(text);
    }
    if let Some((steps, _)) = number_behind(line, b"simulate: deadlock after ") {
        return Some(Said::Deadlock(steps));
    }
    let text = behind(line, b"explain: ")?;
    if let Some((steps, _)) = number_behind(text, b"blocked after ") {
        return Some(Said::Blocked { steps, lines: rest });
    }
    broken(text)
}

/// What a report said.
pub fn read_report(report: &[u8]) -> Said<'_> {
    let (line, rest) = parted(report, b'\n');
    of_line(line, rest).unwrap_or(Said::Other)
}
