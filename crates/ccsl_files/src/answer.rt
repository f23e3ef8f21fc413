//! What the system hands to a program, and why a program gives no answer.

use ccsl_base::{CommandWord, HashKeys};
use std::env::Env;
use std::fmt::{self, Display, Formatter};
use std::random::RandomSource;
use std::{env, io};

/// Why a program gives no answer.
#[derive(Clone, Copy)]
pub enum NoAnswer {
    WordNotUtf8,
    NoRandomNumbers,
    FileFailed,
    NoMemory,
}

impl NoAnswer {
    /// The exit status: 2, 5 or 6.
    pub fn status(self) -> u8 {
        match self {
            NoAnswer::WordNotUtf8 => 2,
            NoAnswer::NoRandomNumbers | NoAnswer::FileFailed => 5,
            NoAnswer::NoMemory => 6,
        }
    }
}

impl Display for NoAnswer {
    fn fmt<W: fmt::Write>(&self, f: &mut Formatter<W>) -> fmt::Result {
        f.write_str(match self {
            NoAnswer::WordNotUtf8 => "a word is not UTF-8",
            NoAnswer::NoRandomNumbers => "no random numbers",
            NoAnswer::FileFailed => "a file failed",
            NoAnswer::NoMemory => "no memory",
        })
    }
}

fn words_refused(error: &io::Error) -> NoAnswer {
    if error.kind() == io::ErrorKind::OutOfMemory {
        NoAnswer::NoMemory
    } else {
        NoAnswer::WordNotUtf8
    }
}

/// The words behind the program's name.
pub fn command_words<R: Env + AllocGlobal>(rt: &R) -> Result<Vec<CommandWord>, NoAnswer> {
    let words = match env::args(rt) {
        Ok(words) => words,
        Err(error) => return Err(words_refused(&error)),
    };
    let mut command_words = Vec::new(rt.alloc());
    for word in words.skip(1) {
        if command_words.push(CommandWord::new(word)).is_err() {
            return Err(NoAnswer::NoMemory);
        }
    }
    Ok(command_words)
}

fn random_word<R: RandomSource>(rt: &R) -> Result<u64, NoAnswer> {
    let mut bytes = [0; 8];
    match rt.fill_bytes(&mut bytes) {
        Ok(()) => Ok(u64::from_le_bytes(bytes)),
        Err(_) => Err(NoAnswer::NoRandomNumbers),
    }
}

/// Keys that no file can be made for.
pub fn random_keys<R: RandomSource>(rt: &R) -> Result<HashKeys, NoAnswer> {
    Ok(HashKeys {
        first: random_word(rt)?,
        second: random_word(rt)?,
    })
}
