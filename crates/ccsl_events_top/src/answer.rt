//! What is reported.

ghost use Rattle.std.specs.Prelude.{◌≡◌, ◌≢◌, [], ◌∷◌, ◌++◌, OnOk, OnErr, decimal};
ghost use Rattle.ccsl_page.specs.Pieces.{line};
ghost use Rattle.ccsl_events_top.specs.Report.{usage_line, events_line, trace_line, whole_line, status_of, line_of, IsAnswer};

use crate::stop::Stop;
use crate::words::Usage;
use ccsl_base::Memory;
use ccsl_event_file::EventFault;
use ccsl_page::{Page, Piece};
use ccsl_vcd::VcdFault;
use std::alloc::Global;

/// The exit status, the line of report, and what is said beside it.
#[derive(Drop)]
pub struct Answer {
    pub status: u8,
    pub line: Page,
    pub hint: Vec<u8>,
}

// A text and a number behind it.
fn put_counted(page: &mut Page, text: &str, n: u64) -> Result<(), Memory>
    ensures { OnOk result (page.new ≡ page.old ++ line (text.now ∷ decimal n ∷ [])) }
{
    page.put_line(&[Piece::Text(text), Piece::Number(n)])
}

fn put_usage(page: &mut Page, fault: Usage) -> Result<(), Memory>
    ensures { OnOk result (page.new ≡ page.old ++ usage_line fault) }
{
    match fault {
        Usage::NotPair(i) => page.put_line(&[
            Piece::Text("words: word "),
            Piece::Number(i as u64),
            Piece::Text(" is no pair"),
        ]),
        Usage::UnknownKey(i) => put_counted(page, "words: unknown key in word ", i as u64),
        Usage::Repeated(i) => put_counted(page, "words: repeated key in word ", i as u64),
        Usage::BadValue(i) => put_counted(page, "words: bad value in word ", i as u64),
        Usage::Missing(key) => page.put_line(&[
            Piece::Text("words: missing "),
            Piece::Text(key.text()),
        ]),
        Usage::SameName => page.put_line(&[Piece::Text("words: same name")]),
    }
}

fn put_events(page: &mut Page, fault: EventFault) -> Result<(), Memory>
    ensures { OnOk result (page.new ≡ page.old ++ events_line fault) }
{
    match fault {
        EventFault::Syntax { at } => put_counted(page, "events: syntax at byte ", at),
        EventFault::Duplicate { at } => put_counted(page, "events: duplicate name at byte ", at),
        EventFault::Unknown { at } => put_counted(page, "events: unknown path at byte ", at),
        EventFault::Ambiguous { at } => put_counted(page, "events: ambiguous path at byte ", at),
        EventFault::NotOneBit { at } => put_counted(page, "events: not one bit at byte ", at),
        EventFault::NoEvent { at } => put_counted(page, "events: no event at byte ", at),
        EventFault::TooWide { at } => put_counted(page, "events: value too wide at byte ", at),
        EventFault::TooLong => page.put_line(&[Piece::Text("events: more than 1048576 bytes")]),
        EventFault::Memory => Ok(()),
    }
}

fn put_trace(page: &mut Page, fault: VcdFault) -> Result<(), Memory>
    ensures { OnOk result (page.new ≡ page.old ++ trace_line fault) }
{
    match fault {
        VcdFault::TokenTooLong { at } => put_counted(page, "trace: token too long at byte ", at),
        VcdFault::BadHeader { at } => put_counted(page, "trace: bad header at byte ", at),
        VcdFault::TooManyVars { at } => put_counted(page, "trace: too many variables at byte ", at),
        VcdFault::TooDeep { at } => put_counted(page, "trace: scopes too deep at byte ", at),
        VcdFault::BadTime { at } => put_counted(page, "trace: bad time at byte ", at),
        VcdFault::BadChange { at } => put_counted(page, "trace: bad change at byte ", at),
        VcdFault::UnknownCode { at } => put_counted(page, "trace: unknown code at byte ", at),
        VcdFault::UnknownCommand { at } => put_counted(page, "trace: unknown command at byte ", at),
        VcdFault::Gap { at } => put_counted(page, "trace: gap at byte ", at),
        VcdFault::Truncated { at } => put_counted(page, "trace: truncated at byte ", at),
        VcdFault::TooLong { at } => put_counted(page, "trace: too long at byte ", at),
        VcdFault::TimeBack { at, present, time } => page.put_line(&[
            Piece::Text("trace: time goes back from "),
            Piece::Number(present),
            Piece::Text(" to "),
            Piece::Number(time),
            Piece::Text(" at byte "),
            Piece::Number(at),
        ]),
        VcdFault::Unbound { .. } | VcdFault::Ambiguous { .. } | VcdFault::Memory => {
            page.put_line(&[Piece::Text("trace: refused")])
        }
    }
}

/// The line on a whole trace.
fn put_whole(page: &mut Page, names: usize, times: u64) -> Result<(), Memory>
    ensures { OnOk result (page.new ≡ page.old ++ whole_line names times) }
{
    page.put_line(&[
        Piece::Text("events: "),
        Piece::Number(names as u64),
        Piece::Text(" names, "),
        Piece::Number(times),
        Piece::Text(" times"),
    ])
}

fn put_line(page: &mut Page, done: &Result<(usize, u64), Stop>) -> Result<(), Memory>
    ensures line { OnOk result (page.new ≡ page.old ++ line_of done.now) }
    ensures fault { OnErr result (status_of done.now ≢ 5) }
{
    match done {
        Ok((names, times)) => put_whole(page, *names, *times),
        Err(Stop::Words(fault)) => put_usage(page, *fault),
        Err(Stop::Events(fault, _near)) => put_events(page, *fault),
        Err(Stop::Trace(fault)) => put_trace(page, *fault),
        Err(Stop::Fault | Stop::Memory) => Ok(()),
    }
}

fn status_of(done: &Result<(usize, u64), Stop>) -> u8
    ensures { result ≡ status_of done.now }
{
    match done {
        Ok(_counts) => 0,
        Err(Stop::Words(_fault)) => 2,
        Err(Stop::Events(EventFault::Memory, _near)) => 6,
        Err(Stop::Events(_fault, _near)) => 3,
        Err(Stop::Trace(_fault)) => 4,
        Err(Stop::Fault) => 5,
        Err(Stop::Memory) => 6,
    }
}

// The variables that a path may mean which is refused.
fn hint_of(alloc: Global, done: Result<(usize, u64), Stop>) -> Vec<u8> {
    match done {
        Err(Stop::Events(_fault, near)) => near,
        _ => Vec::new(alloc),
    }
}

/// The answer where so many names and times were written, or where none or not all were.
pub(crate) fn answer_to(alloc: Global, done: Result<(usize, u64), Stop>) -> Answer
    ensures { IsAnswer result done }
{
    let mut line = Page::new(alloc);
    let mut status = status_of(&done);
    if put_line(&mut line, &done).is_err() {
        status = 6;
        line.clear();
    }
    Answer {
        status,
        line,
        hint: hint_of(alloc, done),
    }
}
