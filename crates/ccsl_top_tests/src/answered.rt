//! The program, run over a world that holds a specification `s`, a trace `t` and a certificate `c`.

ghost use Rattle.std.specs.Prelude.{◌≤◌};

use ccsl_base::{CommandWord, HashKeys};
use ccsl_edge::{CallKind, HeldFile, MemoryWorld, Slot};
use ccsl_pool::Gate;
use ccsl_top::run;
use std::alloc::Global;
use std::test::*;
use std::thread::Threads;

/// Any keys: no answer depends on them.
const KEYS: HashKeys = HashKeys {
    first: 1,
    second: 2,
};

/// No call: they are counted from 1.
pub(crate) const NO_CALL: (CallKind, u64) = (CallKind::Read, 0);

/// What is looked at behind a run.
#[derive(Clone, Copy)]
pub(crate) enum Looked<'a> {
    /// What was written to a slot.
    Written(Slot),
    /// The file of a name.
    File(&'a str),
}

/// The program's status, and what was looked at.
#[derive(Drop)]
pub(crate) struct Answer {
    pub status: u8,
    pub text: String,
}

// The bytes that are looked at, or `no file`.
fn bytes_of<'a>(world: &'a MemoryWorld, looked: Looked<'_>) -> &'a [u8] {
    match looked {
        Looked::Written(slot) => world.written(slot),
        Looked::File(name) => match world.file(name) {
            Some(bytes) => bytes,
            None => "no file".as_bytes(),
        },
    }
}

// The status, and what is looked at in a world.
fn seen(
    alloc: Global,
    status: u8,
    world: &MemoryWorld,
    looked: Looked<'_>,
) -> Result<Answer, Fail> {
    let bytes = Vec::from_slice(alloc, bytes_of(world, looked))?;
    Ok(Answer {
        status,
        text: String::from_utf8(bytes)?,
    })
}

// A file of a name.
fn held(alloc: Global, name: &str, content: &str) -> Result<HeldFile, Fail> {
    let name = String::from_str(alloc, name)?;
    let content = Vec::from_slice(alloc, content.as_bytes())?;
    Ok(HeldFile::new(name, content))
}

// The files `s`, `t` and `c` with these texts.
fn files_of(alloc: Global, texts: [&str; 4]) -> Result<Vec<HeldFile>, Fail> {
    let mut files = Vec::new(alloc);
    for (name, content) in [("s", texts[0]), ("t", texts[1]), ("c", texts[2])] {
        files.push(held(alloc, name, content)?)?;
    }
    Ok(files)
}

// A world of these files and this input, in which one call fails, and each moves at most so many bytes.
fn world_of(
    alloc: Global,
    texts: [&str; 4],
    failing: (CallKind, u64),
    piece: usize,
) -> Result<MemoryWorld, Fail>
    requires { 1 ≤ piece }
{
    let failing = vec![in alloc; failing]?;
    let input = Vec::from_slice(alloc, texts[3].as_bytes())?;
    let files = files_of(alloc, texts)?;
    Ok(MemoryWorld::new(alloc, files, failing, piece).with_input(input))
}

// The words of a command line that are written with blanks between them.
fn words_of(alloc: Global, line: &str) -> Result<Vec<CommandWord>, Fail> {
    let mut words = Vec::new(alloc);
    for word in line.split(' ') {
        if !word.is_empty() {
            words.push(CommandWord::new(String::from_str(alloc, word)?))?;
        }
    }
    Ok(words)
}

/// The program's answer over `s`, `t`, `c` and standard input with these texts, where one call fails, through a gate.
pub(crate) fn answer_in<R: Threads + Sync, G: Gate>(
    rt: &R,
    alloc: Global,
    line: &str,
    texts: [&str; 4],
    failing: (CallKind, u64),
    piece: usize,
    looked: Looked<'_>,
    gate: &G,
) -> Result<Answer, Fail>
    requires { 1 ≤ piece }
{
    let words = words_of(alloc, line)?;
    let mut world = world_of(alloc, texts, failing, piece)?;
    let status = run(rt, alloc, KEYS, words.as_slice(), &mut world, gate);
    seen(alloc, status, &world, looked)
}
