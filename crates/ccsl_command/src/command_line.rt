//! The meaning of a command line.

ghost use Rattle.std.specs.Prelude.{◌^◌, ◌≡◌, ◌≢◌, ◌+◌, ◌<◌, [], IfOk, IfErr, Ok, Err, None, length, find, not};
ghost use Rattle.ccsl_command.specs.Meaning.{meaning, command_named, key_fault, word_fault, first_fault, first_missing, has_same_name, have_same_value};
ghost use Rattle.ccsl_command.specs.Infinite.{HasInfiniteWords};
ghost use Rattle.ccsl_command.specs.Pairs.{key_part, value_part, key_of, is_given};

use crate::build::command_of;
use crate::pair::{Pair, is_given, key_named, split, value_of};
use crate::value::is_value;
use crate::{Command, CommandName, Key, Usage};
use ccsl_base::{CommandWord, Memory};
use std::alloc::Global;

const COMMANDS: [CommandName; 8] = [
    CommandName::Check,
    CommandName::Simulate,
    CommandName::Judge,
    CommandName::Certify,
    CommandName::Trial,
    CommandName::Periodic,
    CommandName::Explain,
    CommandName::Session,
];

/// The command of a list of words, or what is wrong with them: the first word at fault, then a missing key, then equal
/// file names.
pub fn words(alloc: Global, list: &[CommandWord]) -> Result<Command, Usage>
    ensures meant { IfOk result (λ command. meaning list.now ≡ Ok command) }
    ensures infinite { IfOk result (λ command. HasInfiniteWords command) }
    ensures refused { IfErr result (λ fault. fault ≢ Usage.Memory → meaning list.now ≡ Err fault) }
{
    let [first, pairs @ ..] = list else {
        return Err(Usage::NoCommand);
    };
    let Some(name) = command_named(first.as_str()) else {
        return Err(Usage::UnknownCommand);
    };
    match first_fault(alloc, name, pairs) {
        Ok(None) => {}
        Ok(Some(fault)) => return Err(fault),
        Err(Memory) => return Err(Usage::Memory),
    }
    if let Some(key) = first_missing(name, pairs) {
        return Err(Usage::Missing(key));
    }
    if has_same_name(pairs) {
        return Err(Usage::SameName);
    }
    match command_of(alloc, name, pairs) {
        Ok(command) => Ok(command),
        Err(Memory) => Err(Usage::Memory),
    }
}

fn command_named(word: &str) -> Option<CommandName>
    ensures { result ≡ command_named word.now }
{
    COMMANDS.iter().copied().find(|name| name.text() == word)
}

// What is wrong with a pair of word number `i`, behind the earlier pairs.
fn key_fault(
    alloc: Global,
    name: CommandName,
    earlier: &[CommandWord],
    i: usize,
    word: &CommandWord,
    pair: Pair<'_>,
) -> Result<Option<Usage>, Memory>
    requires key { pair.key.now ≡ key_part word.now }
    requires value { pair.value.now ≡ value_part word.now }
    ensures { IfOk result (λ fault. fault
        ≡ key_fault name earlier.now i word.now (key_of name word.now)) }
{
    let Some(key) = key_named(name, pair.key) else {
        return Ok(Some(Usage::UnknownKey(i)));
    };
    if is_given(key, earlier) {
        return Ok(Some(Usage::Repeated(i)));
    }
    if !is_value(alloc, name, key, pair.value)? {
        return Ok(Some(Usage::BadValue(i)));
    }
    Ok(None)
}

fn word_fault(
    alloc: Global,
    name: CommandName,
    earlier: &[CommandWord],
    i: usize,
    word: &CommandWord,
) -> Result<Option<Usage>, Memory>
    ensures { IfOk result (λ fault. fault ≡ word_fault name earlier.now i word.now) }
{
    match split(word) {
        Some(pair) => key_fault(alloc, name, earlier, i, word, pair),
        None => Ok(Some(Usage::NotPair(i))),
    }
}

// At most as many keys stand apart as the command has, so each word looks back over a few others only.
fn first_fault(
    alloc: Global,
    name: CommandName,
    pairs: &[CommandWord],
) -> Result<Option<Usage>, Memory>
    requires { length pairs.now + 1 < 2 ^ 64 }
    ensures { IfOk result (λ fault. fault ≡ first_fault name [] 1 pairs.now) }
{
    for (i, word) in pairs.iter().enumerate() {
        let fault = word_fault(alloc, name, &pairs[..i], i + 1, word)?;
        if fault.is_some() {
            return Ok(fault);
        }
    }
    Ok(None)
}

fn first_missing(name: CommandName, pairs: &[CommandWord]) -> Option<Key>
    ensures { result ≡ first_missing name pairs.now }
{
    name.required_keys()
        .iter()
        .copied()
        .find(|key| !is_given(*key, pairs))
}

fn have_same_value(key: Key, other: Key, pairs: &[CommandWord]) -> bool
    ensures { result ≡ have_same_value key other pairs.now }
{
    is_given(key, pairs) && is_given(other, pairs) && value_of(key, pairs) == value_of(other, pairs)
}

fn has_same_name(pairs: &[CommandWord]) -> bool
    ensures { result ≡ has_same_name pairs.now }
{
    have_same_value(Key::Spec, Key::Trace, pairs)
        || have_same_value(Key::Spec, Key::Cert, pairs)
        || have_same_value(Key::Trace, Key::Cert, pairs)
}
