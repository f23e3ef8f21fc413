//! The program `ccsl-show`: it hands the real words and the real files to `run`, which reports and shows.
//!
//!     $ ccsl-show judge spec=handshake.ccsl trace=held.vcd
//!     run: no, step 2, time 35, constraint 0 of alternates@1
//!     handshake.ccsl:5:3
//!       5 |   alternates(req, ack);
//!         |   ^^^^^^^^^^^^^^^^^^^^
//!
//! The words are those of `ccsl`, and `waves`, `picture` and `color` of its own. What only the system knows is asked
//! here: whether a file can be read twice, whether two names are one file, whether standard output is a terminal, what
//! time it is. On standard error it says how far it is, from two seconds on, and which file failed. The status is that
//! of `ccsl`.
//!
//! Nothing is proved of `main`. `run` of ccsl_show_top is proved, and so are the choices that stand there: in which
//! colours, when and what is told, which files are read again. `FileWorld` of ccsl_files is trusted.
#![tactic(auto)]

use ccsl_base::CommandWord;
use ccsl_edge::Slot;
use ccsl_files::{FileWorld, NoAnswer, command_words, random_keys};
use ccsl_pool::NoGate;
use ccsl_show::Again;
use ccsl_show_top::files::{
    FILE_KEYS, Found, Identity, are_one, command_of, folder_of, is_read_again, is_session,
    is_written, steps_of, value_of,
};
use ccsl_show_top::{
    Asked, Colour, Gauge, Heard, Listen, Outcome, SESSION, Share, begins_step, is_unknown, run,
    told,
};
use std::io::{IsTerminal, Read};
use std::os::unix::fs::MetadataExt;
use std::process::ExitCode;
use std::time::Instant;
use std::{env, fs};

/// Says on standard error how far the reading of a trace is, or a simulation, once that has taken two seconds; and what
/// the lines of a session are, behind one that it does not know.
#[derive(Drop)]
struct Progress<'a> {
    rt: &'a HostRuntime,
    start: Option<Instant>,
    gauge: Gauge,
    is_session: bool,
}

impl Progress<'_> {
    // How many seconds are gone, where it is time to speak.
    fn due(&mut self) -> Option<u64> {
        let gone = self.start?.elapsed(self.rt).ok()?;
        let seconds = gone.as_secs();
        self.gauge.is_due(seconds).then_some(seconds)
    }

    fn say_read(&self, seconds: u64) {
        let Share { percent, left } = self.gauge.share_read(seconds);
        let again = if self.gauge.is_again() {
            " once more"
        } else {
            ""
        };
        let _ = eprintln!(self.rt; "ccsl-show: {percent}% read{again}, about {left} s to go");
    }

    fn say_made(&self, seconds: u64) {
        let Share { percent, left } = self.gauge.share_made(seconds);
        let _ = eprintln!(self.rt; "ccsl-show: {percent}% of the steps made, about {left} s to go");
    }
}

impl Listen for Progress<'_> {
    fn read(&mut self, slot: Slot, count: usize) {
        if slot != Slot::Trace {
            return;
        }
        self.gauge.hear_read(count);
        if let Some(seconds) = self.due() {
            self.say_read(seconds);
        }
    }

    fn wrote(&mut self, slot: Slot, bytes: &[u8]) {
        if self.is_session && is_unknown(slot, bytes) {
            put_lines(self.rt);
        }
        if slot == Slot::TraceOut
            && self.gauge.hear_written(bytes.len(), begins_step(bytes))
            && let Some(seconds) = self.due()
        {
            self.say_made(seconds);
        }
    }
}

// The words behind the program's name.
fn asked_words(rt: &HostRuntime) -> Result<Asked, NoAnswer> {
    let mut asked = Asked::new(rt.alloc());
    for word in command_words(rt)? {
        if asked.add(rt.alloc(), word).is_err() {
            return Err(NoAnswer::NoMemory);
        }
    }
    Ok(asked)
}

// What a file's name leads to.
fn found_of(rt: &HostRuntime, name: &str) -> Found {
    match fs::metadata(rt, name) {
        Ok(found) if found.is_file() => Found::File,
        Ok(_) => Found::Other,
        Err(_) => Found::Nothing,
    }
}

// Whether the file of a key can be read once more.
fn is_again(rt: &HostRuntime, words: &[CommandWord], key: &str) -> bool {
    match value_of(words, key) {
        Some(name) => is_read_again(name, found_of(rt, name)),
        None => true,
    }
}

// Says on standard error why not all was done.
fn complain(rt: &HostRuntime, words: &[CommandWord], outcome: Outcome) {
    if outcome.is_failed() {
        put_failure(rt, words);
    }
    if outcome.wants_memory() {
        let _ = eprintln!(rt; "ccsl-show: no memory");
    }
    if outcome.is_cut() {
        let _ = eprintln!(rt; "ccsl-show: a file failed, or is another than before");
    }
}

// How many bytes the file of a key has.
fn size_of_file(rt: &HostRuntime, words: &[CommandWord], key: &str) -> u64 {
    match value_of(words, key) {
        Some(name) => match fs::metadata(rt, name) {
            Ok(found) => found.len(),
            Err(_) => 0,
        },
        None => 0,
    }
}

// What the system knows a file by, where it is there.
fn identity_of(rt: &HostRuntime, name: &str) -> Option<Identity> {
    match fs::metadata(rt, name) {
        Ok(found) => Some(Identity {
            device: found.dev(),
            number: found.ino(),
        }),
        Err(_) => None,
    }
}

// Whether two names lead to one file.
fn is_one_file(rt: &HostRuntime, one: &str, other: &str) -> bool {
    are_one(one, other, identity_of(rt, one), identity_of(rt, other))
}

// Whether a file that is to be written beside the answer is one of the others.
fn is_taken(rt: &HostRuntime, words: &[CommandWord], file: Option<&str>) -> bool {
    let Some(file) = file else {
        return false;
    };
    for key in FILE_KEYS {
        if let Some(name) = value_of(words, key)
            && is_one_file(rt, name, file)
        {
            return true;
        }
    }
    false
}

// Says what the system says of a file that is to be read, if it says something.
fn put_unread(rt: &HostRuntime, key: &str, name: &str) -> bool {
    let mut file = match fs::open(rt, name) {
        Ok(file) => file,
        Err(error) => {
            let _ = eprintln!(rt; "ccsl-show: {key}={name}: opening failed: {error}");
            return true;
        }
    };
    let mut piece = [0u8; 1];
    match file.read(&mut piece) {
        Ok(_) => false,
        Err(error) => {
            let _ = eprintln!(rt; "ccsl-show: {key}={name}: reading failed: {error}");
            true
        }
    }
}

// Says what the system says of a file that is to be written, if it says something.
fn put_unwritten(rt: &HostRuntime, key: &str, name: &str) -> bool {
    if let Err(error) = fs::metadata(rt, folder_of(name)) {
        let _ = eprintln!(rt; "ccsl-show: {key}={name}: its folder: {error}");
        return true;
    }
    match fs::metadata(rt, name) {
        Ok(found) => {
            if found.is_dir() {
                let _ = eprintln!(rt; "ccsl-show: {key}={name}: writing failed: it is a folder");
                return true;
            }
            false
        }
        Err(_) => false,
    }
}

// Says which file failed, where the system still says so.
fn put_failure(rt: &HostRuntime, words: &[CommandWord]) {
    let command = command_of(words);
    let mut is_said = false;
    for key in FILE_KEYS {
        if let Some(name) = value_of(words, key) {
            let says = if is_written(command, key) {
                put_unwritten(rt, key, name)
            } else {
                put_unread(rt, key, name)
            };
            is_said = is_said || says;
        }
    }
    if !is_said {
        let _ = eprintln!(rt; "ccsl-show: a file failed");
    }
}

// Says on standard error what the lines of a session are.
fn put_lines(rt: &HostRuntime) {
    let _ = eprintln!(rt; "{SESSION}");
}

// What is told before an answer: in a session at a terminal what it takes.
fn greet(rt: &HostRuntime, words: &[CommandWord]) {
    if is_session(words) && rt.stdin().is_terminal() {
        put_lines(rt);
    }
}

// Which of the files can be read once more.
fn again_of(rt: &HostRuntime, words: &[CommandWord]) -> Again {
    Again {
        spec: is_again(rt, words, "spec"),
        trace: is_again(rt, words, "trace"),
    }
}

// What says how far the reading of the trace is, or the simulation.
fn listener<'a>(rt: &'a HostRuntime, words: &[CommandWord]) -> Progress<'a> {
    Progress {
        rt,
        start: Instant::now(rt).ok(),
        gauge: Gauge::new(size_of_file(rt, words, "trace"), steps_of(words)),
        is_session: is_session(words),
    }
}

// Whether colours are shown: by the words, by NO_COLOR, and where standard output is a terminal.
fn is_coloured(rt: &HostRuntime, colour: Colour) -> bool {
    let is_refused = match env::var(rt, "NO_COLOR") {
        Ok(text) => !text.is_empty(),
        Err(_) => false,
    };
    colour.is_shown(is_refused, rt.stdout().is_terminal())
}

// The status where the words ask for no answer.
fn told_or_refused(rt: &HostRuntime, asked: &Asked) -> Option<u8> {
    let words = asked.words.as_slice();
    if let Some(text) = told(words) {
        let _ = rt.print(text);
        return Some(0);
    }
    let own = asked.own(false);
    if is_taken(rt, words, own.waves) || is_taken(rt, words, own.picture) {
        let _ = eprintln!(rt; "ccsl-show: waves= or picture= names a file of the other words");
        return Some(2);
    }
    None
}

fn end_without_answer(rt: &HostRuntime, fault: NoAnswer) -> ExitCode {
    let _ = eprintln!(rt; "ccsl-show: {fault}");
    ExitCode::from(fault.status())
}

fn main(rt: HostRuntime) -> ExitCode {
    let asked = match asked_words(&rt) {
        Ok(asked) => asked,
        Err(fault) => return end_without_answer(&rt, fault),
    };
    if let Some(status) = told_or_refused(&rt, &asked) {
        return ExitCode::from(status);
    }
    let keys = match random_keys(&rt) {
        Ok(keys) => keys,
        Err(fault) => return end_without_answer(&rt, fault),
    };
    let (words, alloc) = (asked.words.as_slice(), rt.alloc());
    greet(&rt, words);
    let mut out = FileWorld::new(&rt, alloc);
    let mut world = Heard::new(alloc, FileWorld::new(&rt, alloc), listener(&rt, words));
    let outcome = run(
        &rt,
        alloc,
        keys,
        words,
        asked.own(is_coloured(&rt, asked.colour())),
        again_of(&rt, words),
        &mut world,
        &mut out,
        &NoGate,
    );
    // A reader that has gone, as `head`, wants to hear no more.
    if !world.world.has_lost_reader() {
        complain(&rt, words, outcome);
    }
    ExitCode::from(outcome.status)
}
