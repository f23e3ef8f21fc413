//! Simulations in a world whose calls fail, one at a time.

ghost use Rattle.std.specs.Prelude.{◌≤◌};

use crate::answered::{Answer, Looked, answer_in};
use crate::failing::meets_failure;
use ccsl_edge::{CallKind, Slot};
use ccsl_pool::NoGate;
use std::alloc::Global;
use std::process::Abort;
use std::test::*;
use std::thread::Threads;

const LINE: &str = "simulate spec=s trace=x cert=y policy=min seed=42 steps=2";

const TEXTS: [&str; 4] = [
    "ccsl 1; system { clock a, b; alternates(a, b); }",
    "",
    "",
    "",
];

const TRACE: &str =
    "$version ccsl $end\n$timescale 1 ns $end\n$scope module ccsl $end\n$var event 1 ! a $end\n$var event 1 \" b $end\n$upscope $end\n$enddefinitions $end\n#0\n1!\n#1\n1\"\n";

// What is looked at where one call fails.
fn seen<R: Threads + Sync>(
    rt: &R,
    alloc: Global,
    failing: (CallKind, u64),
    piece: usize,
    looked: Looked<'_>,
) -> Result<Answer, Fail>
    requires { 1 ≤ piece }
{
    answer_in(rt, alloc, LINE, TEXTS, failing, piece, looked, &NoGate)
}

// Asserts that what was put out are fronts, that each file is whole or not there, and whole where no call failed.
fn leaves_fronts<R: Threads + Sync + Abort>(
    rt: &R,
    alloc: Global,
    failing: (CallKind, u64),
    piece: usize,
    failed: bool,
) -> Result<(), Fail>
    requires { 1 ≤ piece }
{
    let put = seen(rt, alloc, failing, piece, Looked::Written(Slot::TraceOut))?;
    assert!(rt; TRACE.starts_with(put.text.as_str()));
    let file = seen(rt, alloc, failing, piece, Looked::File("x"))?;
    let whole = file.text.as_str() == TRACE;
    assert!(rt; whole || failed && file.text.as_str() == "no file");
    let cert = seen(rt, alloc, failing, piece, Looked::Written(Slot::CertOut))?;
    assert!(rt; cert.text.is_empty());
    Ok(())
}

// Lets each call of a kind fail, until one does not.
fn each_call<R: Threads + Sync + Abort>(
    rt: &R,
    alloc: Global,
    kind: CallKind,
    piece: usize,
) -> Result<(), Fail>
    requires { 1 ≤ piece }
{
    let report = "simulate: done, 2 steps\n";
    for number in 1..400 {
        let failing = (kind, number);
        let failed = meets_failure(rt, alloc, LINE, TEXTS, report, failing, piece)?;
        leaves_fronts(rt, alloc, failing, piece, failed)?;
        if !failed {
            break;
        }
    }
    Ok(())
}

/// What is left behind a run in which one call fails: the status, the report, the trace and the certificate.
type Row = ((CallKind, u64), u8, [&'static str; 3]);

const NOTHING: [&str; 3] = ["", "no file", "no file"];

const DONE: [&str; 3] = ["simulate: done, 2 steps\n", TRACE, ""];

// The calls of a simulation, in their order: each once, and none more. The specification is opened and read; the trace
// and then the certificate are opened; the header and each step are one write; the trace and then the certificate are
// closed; the report is one write.
const ROWS: &[Row] = &[
    ((CallKind::OpenIn, 1), 5, NOTHING),
    ((CallKind::OpenIn, 2), 0, DONE),
    ((CallKind::OpenOut, 1), 5, NOTHING),
    ((CallKind::OpenOut, 2), 5, NOTHING),
    ((CallKind::OpenOut, 3), 0, DONE),
    ((CallKind::Write, 1), 5, NOTHING),
    ((CallKind::Write, 2), 5, NOTHING),
    ((CallKind::Write, 3), 5, NOTHING),
    ((CallKind::CloseOut, 1), 5, NOTHING),
    ((CallKind::CloseOut, 2), 5, ["", TRACE, "no file"]),
    ((CallKind::CloseOut, 3), 0, DONE),
    ((CallKind::Write, 4), 5, ["", TRACE, ""]),
    ((CallKind::Write, 5), 0, DONE),
];

// Asserts one row.
fn leaves_row<R: Threads + Sync + Abort>(rt: &R, alloc: Global, row: &Row) -> Result<(), Fail> {
    let (failing, status, texts) = *row;
    for (looked, text) in [
        (Looked::Written(Slot::Report), texts[0]),
        (Looked::File("x"), texts[1]),
        (Looked::File("y"), texts[2]),
    ] {
        let found = seen(rt, alloc, failing, 4096, looked)?;
        assert_eq!(rt; (found.status, found.text.as_str()), (status, text));
    }
    Ok(())
}

#[test]
fn each_call_is_made_once_in_its_order(rt: HostRuntime) -> Result<(), Fail> {
    for row in ROWS {
        leaves_row(&rt, rt.alloc(), row)?;
    }
    Ok(())
}

#[test]
fn each_call_that_fails_is_told(rt: HostRuntime) -> Result<(), Fail> {
    for kind in [
        CallKind::OpenIn,
        CallKind::OpenOut,
        CallKind::Read,
        CallKind::Write,
        CallKind::CloseOut,
    ] {
        for piece in [1, 4096] {
            each_call(&rt, rt.alloc(), kind, piece)?;
        }
    }
    Ok(())
}
