//! Which parts of the work run, and that two of them run side by side, through the whole program.

use crate::answered::{Answer, Looked, NO_CALL, answer_in};
use ccsl_edge::Slot;
use ccsl_pool::Gate;
use std::alloc::Global;
use std::sync::atomic::{AtomicU64, Ordering};
use std::test::*;
use std::thread::Threads;

const HEADER: &str = "$var event 1 ! a $end $var event 1 \" b $end $enddefinitions $end\n";

const SPEC: &str = "ccsl 1; system { clock a, b; a precedes b; a excludes b; }";

// What is reported over a trace, through a gate.
fn reported<R: Threads + Sync, G: Gate>(
    rt: &R,
    alloc: Global,
    line: &str,
    trace: &str,
    gate: &G,
) -> Result<Answer, Fail> {
    let texts = [SPEC, trace, "", ""];
    let report = Looked::Written(Slot::Report);
    answer_in(rt, alloc, line, texts, NO_CALL, 4096, report, gate)
}

/// Holds each of the parts 0 and 1 until the other has entered, and says so where it gave up.
#[derive(Drop)]
struct Held {
    entered: [AtomicU64; 2],
    gave_up: AtomicU64,
}

impl Gate for Held {
    fn enter(&self, part: u32) {
        let own = if part == 0 { 0 } else { 1 };
        self.entered[own].store(1, Ordering::SeqCst);
        for _ in 0..1_000_000_000u64 {
            if self.entered[1 - own].load(Ordering::SeqCst) == 1 {
                return;
            }
        }
        self.gave_up.store(1, Ordering::SeqCst);
    }
}

#[test]
fn two_workers_run_side_by_side(rt: HostRuntime) -> Result<(), Fail> {
    let trace = format!(in rt.alloc(); "{HEADER}#0 1! #5 1\"\n")?;
    let gate = Held {
        entered: [AtomicU64::new(0), AtomicU64::new(0)],
        gave_up: AtomicU64::new(0),
    };
    let line = "judge spec=s trace=t workers=2";
    let found = reported(&rt, rt.alloc(), line, trace.as_str(), &gate)?;
    assert_eq!(rt;
        (found.status, found.text.as_str()),
        (0, "run: yes, 2 steps\n")
    );
    assert_eq!(rt; gate.entered[1].load(Ordering::SeqCst), 1);
    assert_eq!(rt; gate.gave_up.load(Ordering::SeqCst), 0);
    Ok(())
}

/// Counts how often each of the first two parts enters, and all others together.
#[derive(Drop)]
struct Counted {
    entered: [AtomicU64; 3],
}

impl Counted {
    fn new() -> Counted {
        Counted {
            entered: [AtomicU64::new(0), AtomicU64::new(0), AtomicU64::new(0)],
        }
    }

    fn seen(&self) -> (u64, u64, u64) {
        (
            self.entered[0].load(Ordering::SeqCst),
            self.entered[1].load(Ordering::SeqCst),
            self.entered[2].load(Ordering::SeqCst),
        )
    }
}

impl Gate for Counted {
    fn enter(&self, part: u32) {
        let place = if part < 2 { part as usize } else { 2 };
        self.entered[place].fetch_add(1, Ordering::SeqCst);
    }
}

/// A trace of three blocks of rows.
fn long_trace(alloc: Global) -> Result<String, Fail> {
    let mut trace = String::from_str(alloc, HEADER)?;
    for row in 0..9000u64 {
        write!(trace, "#{row} 1!\n")?;
    }
    Ok(trace)
}

// Two constraints are no more than two parts.
#[test]
fn each_part_enters_once_for_each_block(rt: HostRuntime) -> Result<(), Fail> {
    let trace = long_trace(rt.alloc())?;
    for (line, seen) in [
        ("judge spec=s trace=t", (3, 0, 0)),
        ("judge spec=s trace=t workers=2", (3, 3, 0)),
        ("judge spec=s trace=t workers=16", (3, 3, 0)),
    ] {
        let gate = Counted::new();
        let found = reported(&rt, rt.alloc(), line, trace.as_str(), &gate)?;
        assert_eq!(rt; found.text.as_str(), "run: yes, 9000 steps\n");
        assert_eq!(rt; gate.seen(), seen, "{line}");
    }
    Ok(())
}

// A trial judges its trace in blocks as well.
#[test]
fn each_part_enters_for_each_block_of_a_trial(rt: HostRuntime) -> Result<(), Fail> {
    let gate = Counted::new();
    let line = "trial clocks=2 steps=8193 seed=1 workers=2";
    let found = reported(&rt, rt.alloc(), line, "", &gate)?;
    assert_eq!(rt;
        (found.status, found.text.as_str()),
        (0, "trial: clocks 2, steps 8193, ticks 8193, run: yes\n")
    );
    assert_eq!(rt; gate.seen(), (3, 3, 0));
    Ok(())
}
