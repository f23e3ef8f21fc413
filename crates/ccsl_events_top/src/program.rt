//! The program's one call.

ghost use Rattle.std.specs.Prelude.{◌≡◌, ◌≤◌, ℕ, List, length, map, IfOk};
ghost use Rattle.ccsl_edge.specs.World.{State};
ghost use Rattle.ccsl_event_file.specs.Parsing.{event_in};
ghost use Rattle.ccsl_scopes.specs.Headings.{Heading};
ghost use Rattle.ccsl_scopes.specs.Standing.{IsHeaderOf};
ghost use Rattle.ccsl_events.specs.Standing.{are_skipped};
ghost use Rattle.ccsl_events.specs.Binding.{bound};
ghost use Rattle.ccsl_events.specs.Dump.{Plan};
ghost use Rattle.ccsl_events.specs.Written.{header_text, names_of};
ghost use Rattle.ccsl_edge.specs.declared.slot.Slot.{Slot};
ghost use Rattle.ccsl_edge.specs.declared.slot.Slot.TheVariants.{TraceOut};
ghost use Rattle.ccsl_events_top.specs.Words.{named_by};
ghost use Rattle.ccsl_events_top.specs.Passing.{Begins};
ghost use Rattle.ccsl_events_top.specs.Stages.{SaysEvents, IsBodyFor, is_written, WritesFile};
ghost use Rattle.ccsl_events_top.specs.Outcome.{IsOutcome};
ghost use Rattle.ccsl_events_top.specs.Headline.{out_of, IsReported, Headline};

use crate::answer::{Answer, answer_to};
use crate::files::read_event_file;
use crate::pass::Pass;
use crate::sink::Sink;
use crate::stop::Stop;
use crate::words::{Command, Key, meaning, value_of};
use ccsl_base::{CommandWord, HashKeys, MAX_CLOCKS, Memory};
use ccsl_edge::{Slot, World, write_all};
use ccsl_event_file::{Event, EventFault, read_events};
use ccsl_events::{Body, bind, header_text};
use ccsl_scopes::Header;
use std::alloc::Global;

fn events_of(alloc: Global, keys: HashKeys, text: &[u8]) -> Result<Vec<Event>, Stop>
    ensures says { SaysEvents text.now result }
    ensures few { IfOk result (λ es. length es.items ≤ MAX_CLOCKS) }
{
    match read_events(alloc, keys, text) {
        Ok(events) => Ok(events),
        Err(fault) => Err(Stop::Events(fault, Vec::new(alloc))),
    }
}

// The names of events, in their order.
fn text_of_header(alloc: Global, events: &[Event], header: &Header) -> Result<Vec<u8>, Memory>
    requires few { length events.now ≤ MAX_CLOCKS }
    ensures { IfOk result (λ text. (h : Heading) → IsHeaderOf h header.now →
        text.items ≡ header_text h.timescale (names_of events.now)) }
{
    let timescale = match &header.timescale {
        Some(scale) => Some(scale.as_slice()),
        None => None,
    };
    header_text(alloc, timescale, events)
}

fn body_of(
    alloc: Global,
    command: Command<'_>,
    events: &[Event],
    header: Header,
) -> Result<Body, Stop>
    requires few { length events.now ≤ MAX_CLOCKS }
    ensures { IsBodyFor (bound (map event_in events.now) header.variables.items header.codes
        (are_skipped command.entry.gaps)) result }
{
    match bind(alloc, events, header, command.gaps) {
        Ok(body) => Ok(body),
        Err(refused) => Err(Stop::Events(refused.fault, refused.candidates)),
    }
}

// Whether all was written that a body says, up to its end or to its first fault.
fn is_written(ended: &Result<u64, Stop>) -> bool
    ensures { result ≡ is_written ended.now }
{
    matches!(ended, Ok(_) | Err(Stop::Trace(_)))
}

// The body, written to a file, which is put in place behind a fault of the dump too. It answers how many times have
// a row.
fn write_file<W: World>(world: &mut W, pass: &mut Pass, name: &str) -> Result<u64, Stop>
    requires allowed { W.allows TraceOut name.now }
    requires begins { (start : State) × (plan : Plan) × (head : List ℕ) × (text : List ℕ)
        × Begins W.told Sink.File start (W.state world.old) plan head text pass.old }
    ensures { (start : State) (plan : Plan) (head text : List ℕ) →
        Begins W.told Sink.File start (W.state world.old) plan head text pass.old →
        WritesFile W.told name.now start (W.state world.old) (W.state world.new) plan head text
        result }
{
    world.open_out(Slot::TraceOut, name)?;
    let ended = pass.body(world, Sink::File);
    if is_written(&ended) {
        world.close_out(Slot::TraceOut)?;
    }
    ended
}

fn make<W: World>(
    alloc: Global,
    keys: HashKeys,
    command: Command<'_>,
    world: &mut W,
) -> Result<(usize, u64), Stop>
    requires allowed { (slot : Slot) (name : List ℕ) → W.allows slot name }
    ensures { IsOutcome W.told (named_by command.entry)
        (W.state world.old) (W.state world.new) result }
{
    let text = read_event_file(alloc, world, command.events)?;
    let events = events_of(alloc, keys, text.as_slice())?;
    world.open_in(Slot::Trace, command.trace)?;
    let mut pass = Pass::new(alloc, keys)?;
    let header = pass.header(world)?;
    let text = text_of_header(alloc, events.as_slice(), &header)?;
    let body = body_of(alloc, command, events.as_slice(), header)?;
    pass.begin(body, text)?;
    let times = match command.out {
        Some(name) => write_file(world, &mut pass, name)?,
        None => pass.body(world, Sink::Standard)?,
    };
    Ok((events.len(), times))
}

// The report goes to standard output where that is no trace.
fn report<W: World>(world: &mut W, words: &[CommandWord], mut answer: Answer) -> Answer
    ensures { IsReported W.told (out_of words.now) answer result
        (W.state world.old) (W.state world.new) }
{
    if value_of(Key::Out, words).is_some() {
        if write_all(world, Slot::Report, answer.line.bytes()).is_err() {
            answer.status = 5;
        }
        answer.line.clear();
    }
    answer
}

/// Makes a trace of events of a dump, as the words say. What the answer has is for standard error.
pub fn run<W: World>(alloc: Global, keys: HashKeys, words: &[CommandWord], world: &mut W) -> Answer
    requires allowed { (slot : Slot) (name : List ℕ) → W.allows slot name }
    ensures { Headline W.told words.now result.status result.line
        (W.state world.old) (W.state world.new) }
{
    let done = match meaning(words) {
        Ok(command) => make(alloc, keys, command, world),
        Err(fault) => Err(Stop::Words(fault)),
    };
    report(world, words, answer_to(alloc, done))
}
