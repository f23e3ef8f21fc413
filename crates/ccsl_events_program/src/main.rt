//! The program `ccsl-events`: it hands the real words and the real files to `run`, and says on standard error why there
//! is no answer.
//!
//!     $ ccsl-events events=bus.events trace=both.vcd out=bus.vcd
//!     events: 8 names, 502 times
//!     $ ccsl-events events=bus.events trace=both.vcd | ccsl judge spec=bus.ccsl trace=/dev/stdin
//!
//! In go a file of events and a dump. Out come a trace, in the file `out` or else on standard output, and one line, on
//! standard error where the trace is on standard output. Behind a path that is refused, a line on standard error lists
//! the variables that it may mean. The status is 0, or 2 to 6, as the manual page says.
//!
//! Nothing is proved of `main`. What it calls is: `run` of ccsl_events_top keeps `Headline` over every world, and
//! `FileWorld` of ccsl_files is trusted. `tests/random_events` tries the built program beside a plain model.
#![tactic(auto)]

use ccsl_events_top::{Answer, run};
use ccsl_files::{FileWorld, NoAnswer, command_words, random_keys};
use std::io::Write;
use std::process::ExitCode;

// On standard error.
fn say(rt: &HostRuntime, bytes: &[u8]) {
    let _ = rt.stderr().write_all(bytes);
}

fn say_answer(rt: &HostRuntime, answer: &Answer) {
    say(rt, answer.line.bytes());
    if !answer.hint.is_empty() {
        let _ = eprint!(rt; "candidates:");
        say(rt, answer.hint.as_slice());
        let _ = eprintln!(rt; "");
    }
}

fn status_of(rt: &HostRuntime) -> Result<u8, NoAnswer> {
    let words = command_words(rt)?;
    let keys = random_keys(rt)?;
    let mut world = FileWorld::new(rt, rt.alloc());
    let answer = run(rt.alloc(), keys, words.as_slice(), &mut world);
    say_answer(rt, &answer);
    if answer.status == 6 {
        return Err(NoAnswer::NoMemory);
    }
    // A reader that has gone, as `head`, wants to hear no more.
    if answer.status == 5 && !world.has_lost_reader() {
        return Err(NoAnswer::FileFailed);
    }
    Ok(answer.status)
}

fn main(rt: HostRuntime) -> ExitCode {
    match status_of(&rt) {
        Ok(status) => ExitCode::from(status),
        Err(fault) => {
            let _ = eprintln!(rt; "ccsl-events: {fault}");
            ExitCode::from(fault.status())
        }
    }
}
