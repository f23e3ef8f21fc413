//! Binding the paths of a file of events to the variables of a dump.

ghost use Rattle.std.specs.Prelude.{◌≡◌, ◌≤◌, ◌⊎◌, length, map, true, IfOk};
ghost use Rattle.ccsl_event_file.specs.Parsing.{event_in};
ghost use Rattle.ccsl_events.specs.Dump.{begin};
ghost use Rattle.ccsl_events.specs.Standing.{are_skipped, Stands};
ghost use Rattle.ccsl_events.specs.Binding.{bound};
ghost use Rattle.ccsl_events.specs.Links.{are_coded, are_within};
ghost use Rattle.ccsl_events.specs.Begun.{plan_of, Begins, IsBegun};
ghost use Rattle.ccsl_scopes.specs.Codes.{are_declared};

use crate::binder::{Binder, Source};
use crate::body::{Body, Gaps};
use crate::codes::Codes;
use crate::links::{Links, link, sole_names, users};
use crate::values::Values;
use ccsl_base::{ClockSet, HashKeys, MAX_CLOCKS, Memory, Names};
use ccsl_event_file::{Condition, Event, EventFault, Located, Trigger as Wanted};
use ccsl_scopes::{Header, Variable, put_candidates};
use ccsl_triggers::Watch;
use std::alloc::Global;

/// A file of events that is refused, and the variables that a path of it may mean.
#[derive(Drop)]
pub struct Refused {
    pub fault: EventFault,
    pub candidates: Vec<u8>,
}

// The path that stands at a place, among those of an event.
fn path_at(event: &Event, at: u64) -> Option<&Located> {
    let first = match &event.trigger {
        Wanted::Rise(path) | Wanted::Fall(path) | Wanted::Change(path) | Wanted::Record(path) => {
            path
        }
        Wanted::Becomes(condition) => &condition.path,
    };
    if first.at == at {
        return Some(first);
    }
    for condition in event.conditions.as_slice() {
        if condition.path.at == at {
            return Some(&condition.path);
        }
    }
    None
}

// The variables that a path may mean which is refused.
fn put_near(
    fault: EventFault,
    events: &[Event],
    variables: &[Variable],
    out: &mut Vec<u8>,
) -> Result<(), Memory> {
    let (EventFault::Unknown { at } | EventFault::Ambiguous { at }) = fault else {
        return Ok(());
    };
    for event in events {
        if let Some(path) = path_at(event, at) {
            put_candidates(&path.path, variables, out)?;
        }
    }
    Ok(())
}

fn refusal(alloc: Global, fault: EventFault, events: &[Event], variables: &[Variable]) -> Refused
    ensures { (result.fault ≡ fault) ⊎ (result.fault ≡ EventFault.Memory) }
{
    let mut candidates = Vec::new(alloc);
    let fault = match put_near(fault, events, variables, &mut candidates) {
        Ok(()) => fault,
        Err(Memory) => EventFault::Memory,
    };
    Refused { fault, candidates }
}

// The body for what each event waits for, by the variables that are read.
fn body(
    alloc: Global,
    sources: &[Source],
    watches: Vec<Watch>,
    codes: Names<HashKeys>,
    gaps: Gaps,
) -> Result<Body, Memory>
    requires few { length watches.items ≤ MAX_CLOCKS }
    requires coded { are_coded (length codes) sources.now ≡ true }
    requires within { are_within (length sources.now) watches.items ≡ true }
    ensures { IfOk result (Stands (plan_of codes sources.now watches gaps) begin) }
{
    codes.are_distinct();
    let Links { signals, entries } = link(alloc, sources, codes.len())?;
    let users = users(alloc, watches.as_slice(), sources.len())?;
    let values = Values {
        codes: Codes::new(alloc, codes, entries)?,
        sole_names: sole_names(alloc, users.as_slice(), watches.as_slice())?,
        users,
        signals,
        watches,
        touched: Vec::with_capacity(alloc, sources.len())?,
        names: ClockSet::empty(),
        none: ClockSet::empty(),
    };
    let body = Body::new(alloc, values, gaps)?;
    Ok(body)
}

// The body for events, or their first fault.
fn bound(
    alloc: Global,
    events: &[Event],
    variables: &[Variable],
    codes: Names<HashKeys>,
    gaps: Gaps,
) -> Result<Body, EventFault>
    requires few { length events.now ≤ MAX_CLOCKS }
    requires coded { are_declared (length codes) variables.now ≡ true }
    ensures { Begins result
        (bound (map event_in events.now) variables.now codes (are_skipped gaps)) }
{
    let mut binder = Binder::new(alloc);
    let watches = binder.watches(events, variables)?;
    let body = body(alloc, binder.sources.as_slice(), watches, codes, gaps)?;
    Ok(body)
}

/// The body of a dump with this header, for these events, or why a path is refused.
pub fn bind(alloc: Global, events: &[Event], header: Header, gaps: Gaps) -> Result<Body, Refused>
    requires few { length events.now ≤ MAX_CLOCKS }
    ensures { IsBegun result
        (bound (map event_in events.now) header.variables.items header.codes (are_skipped gaps)) }
{
    let Header {
        variables,
        codes,
        timescale: _timescale,
    } = header;
    match bound(alloc, events, variables.as_slice(), codes, gaps) {
        Ok(body) => Ok(body),
        Err(fault) => Err(refusal(alloc, fault, events, variables.as_slice())),
    }
}
