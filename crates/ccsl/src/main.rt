//! The program `ccsl`: it hands the real words and the real files to `run`, and says on standard error why there is no
//! answer.
//!
//!     $ ccsl judge spec=handshake.ccsl trace=held.vcd
//!     run: no, step 2, time 35, constraint 0 of alternates@1
//!     $ echo $?
//!     1
//!
//! In go the words behind the program's name and the files that they name; out come the report on standard output, the
//! files that `simulate` and `explain` write, and the status. Where there is no answer a line on standard error says
//! so: a word is not UTF-8 (status 2), a file failed or no random numbers were to be had (5), no memory (6).
//!
//! Nothing is proved of `main`. What it calls is: `run` of ccsl_top keeps `Headline` over every world. The world here
//! is `FileWorld` of ccsl_files, which is trusted. Stored runs try the built program.
#![tactic(auto)]

use ccsl_base::{CommandWord, HashKeys};
use ccsl_files::{FileWorld, NoAnswer, command_words, random_keys};
use ccsl_pool::NoGate;
use ccsl_top::run;
use std::process::ExitCode;

fn words_and_keys(rt: &HostRuntime) -> Result<(Vec<CommandWord>, HashKeys), NoAnswer> {
    Ok((command_words(rt)?, random_keys(rt)?))
}

fn end_without_answer(rt: &HostRuntime, fault: NoAnswer) -> ExitCode {
    let _ = eprintln!(rt; "ccsl: {fault}");
    ExitCode::from(fault.status())
}

fn main(rt: HostRuntime) -> ExitCode {
    let (words, keys) = match words_and_keys(&rt) {
        Ok(found) => found,
        Err(fault) => return end_without_answer(&rt, fault),
    };
    let mut world = FileWorld::new(&rt, rt.alloc());
    let status = run(&rt, rt.alloc(), keys, words.as_slice(), &mut world, &NoGate);
    if status == 6 {
        return end_without_answer(&rt, NoAnswer::NoMemory);
    }
    // A reader that has gone, as `head`, wants to hear no more.
    if status == 5 && !world.has_lost_reader() {
        return end_without_answer(&rt, NoAnswer::FileFailed);
    }
    ExitCode::from(status)
}
