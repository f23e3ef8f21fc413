//! Calls of the world that fail, one at a time.

ghost use Rattle.std.specs.Prelude.{◌≤◌};

use crate::answered::{Looked, answer_in};
use ccsl_edge::{CallKind, Slot};
use ccsl_pool::NoGate;
use std::alloc::Global;
use std::process::Abort;
use std::test::*;
use std::thread::Threads;

const TWO_CLOCKS: &str = "ccsl 1; system { clock a, b; a precedes b; }";

const DEADLOCK: &str = "ccsl 1; system { clock a; a precedes a; }";

const CERTIFICATE: &str = "n\ni 0 -a\nr from 1 2\n";

/// Whether the program answers 5 where one call fails, behind a front of its report; or answers the report.
pub(crate) fn meets_failure<R: Threads + Sync + Abort>(
    rt: &R,
    alloc: Global,
    line: &str,
    texts: [&str; 4],
    report: &str,
    failing: (CallKind, u64),
    piece: usize,
) -> Result<bool, Fail>
    requires { 1 ≤ piece }
{
    let looked = Looked::Written(Slot::Report);
    let found = answer_in(rt, alloc, line, texts, failing, piece, looked, &NoGate)?;
    assert!(rt; report.starts_with(found.text.as_str()));
    assert!(rt; found.status == 5 || found.status == 0 && found.text.as_str() == report);
    Ok(found.status == 5)
}

// Lets each call of each kind fail, until one does not.
fn each_call<R: Threads + Sync + Abort>(
    rt: &R,
    alloc: Global,
    line: &str,
    texts: [&str; 4],
    report: &str,
) -> Result<(), Fail> {
    for kind in [
        CallKind::OpenIn,
        CallKind::OpenOut,
        CallKind::Read,
        CallKind::Write,
        CallKind::CloseOut,
    ] {
        for piece in [1, 4096] {
            for number in 1..300 {
                if !meets_failure(rt, alloc, line, texts, report, (kind, number), piece)? {
                    break;
                }
            }
        }
    }
    Ok(())
}

#[test]
fn each_call_that_fails_is_told(rt: HostRuntime) -> Result<(), Fail> {
    let blocked = "$var event 1 ! a $end\n$enddefinitions $end\n";
    for (line, texts, report) in [
        (
            "judge spec=s trace=t",
            [
                TWO_CLOCKS,
                "$var event 1 ! a $end\n$var event 1 \" b $end\n$enddefinitions $end\n#0 1! #5 1\"\n",
                "",
                "",
            ],
            "run: yes, 2 steps\n",
        ),
        (
            "certify spec=s trace=t cert=c",
            [DEADLOCK, blocked, CERTIFICATE, ""],
            "certificate: valid, 0 steps\n",
        ),
        (
            "explain spec=s trace=t cert=c",
            [DEADLOCK, blocked, "", ""],
            "explain: blocked after 0 steps by 1 items\nconstraint 0: a\n",
        ),
        (
            "session spec=s seed=42 policy=min",
            [
                "ccsl 1; system { clock a, b; alternates(a, b); }",
                "",
                "",
                "step\nfire b\nback\nquit\n",
            ],
            "step 1: a\nok 2\nok 1\nbye\n",
        ),
    ] {
        each_call(&rt, rt.alloc(), line, texts, report)?;
    }
    Ok(())
}
