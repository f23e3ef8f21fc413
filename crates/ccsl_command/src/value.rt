//! The values of keys.

ghost use Rattle.std.specs.Prelude.{◌≡◌, ◌≤◌, IfOk, IfSome, Some};
ghost use Rattle.ccsl_command.specs.Values.{is_file_name, policy_of, relation_of, only_infinite, infinite_word, range_of, number_in, is_value};

use crate::{CommandName, Key, PolicyName, RelationName};
use ccsl_base::{
    MAX_DIGITS, MAX_FILE_NAME, MAX_STEPS, MAX_TRIAL_CLOCKS, MAX_TRIAL_STEPS, MAX_WORKERS,
    MIN_TRIAL_CLOCKS, Memory, decimal,
};
use ccsl_words::{Word, WordFault};
use std::alloc::Global;

const RELATIONS: [RelationName; 4] = [
    RelationName::Precedes,
    RelationName::Subclock,
    RelationName::Excludes,
    RelationName::On,
];

/// The numbers that a key may have, both ends among them.
#[derive(Clone, Copy)]
struct Range {
    least: u64,
    most: u64,
}

fn is_file_name(text: &str) -> bool
    ensures { result ≡ is_file_name text.now }
{
    !text.is_empty() && text.len() <= MAX_FILE_NAME
}

/// The policy of a name.
pub(crate) fn policy_of(text: &str) -> Option<PolicyName>
    ensures { result ≡ policy_of text.now }
{
    match text {
        "min" => Some(PolicyName::Min),
        "max" => Some(PolicyName::Max),
        "seeded" => Some(PolicyName::Seeded),
        _ => None,
    }
}

/// The relation of a name.
pub(crate) fn relation_of(text: &str) -> Option<RelationName>
    ensures { result ≡ relation_of text.now }
{
    RELATIONS.iter().copied().find(|name| name.text() == text)
}

/// The word of a text, where it has a period.
pub(crate) fn infinite_word(alloc: Global, text: &str) -> Result<Option<Word>, Memory>
    ensures { IfOk result (λ word. word ≡ infinite_word text.now) }
{
    match Word::read(alloc, text.as_bytes()) {
        Ok(word) => Ok(only_infinite(word)),
        Err(fault) => {
            if matches!(fault, WordFault::Memory) {
                Err(Memory)
            } else {
                Ok(None)
            }
        }
    }
}

fn only_infinite(word: Word) -> Option<Word>
    ensures { result ≡ only_infinite (Some word) }
{
    if word.is_finite() { None } else { Some(word) }
}

fn range_of(name: CommandName, key: Key) -> Range
    ensures least { result.least ≡ (range_of name key).least }
    ensures most { result.most ≡ (range_of name key).most }
{
    let (least, most) = match (name, key) {
        (_, Key::Seed) => (0, u64::MAX),
        (CommandName::Trial, Key::Steps) => (0, MAX_TRIAL_STEPS),
        (_, Key::Steps) => (0, MAX_STEPS),
        (_, Key::Workers) => (1, u64::from(MAX_WORKERS)),
        (_, Key::Clocks) => (MIN_TRIAL_CLOCKS, MAX_TRIAL_CLOCKS),
        _ => (0, 0),
    };
    Range { least, most }
}

/// The number of a text, where it is one of the key's range.
pub(crate) fn number(name: CommandName, key: Key, text: &str) -> Option<u64>
    ensures number { result ≡ number_in (range_of name key) text.now }
    ensures most { IfSome result (λ n. n ≤ (range_of name key).most) }
{
    let range = range_of(name, key);
    if text.len() > MAX_DIGITS {
        return None;
    }
    let number = decimal(text.as_bytes(), range.most)?;
    if number < range.least {
        None
    } else {
        Some(number)
    }
}

/// Whether a text may be the value of a key.
pub(crate) fn is_value(
    alloc: Global,
    name: CommandName,
    key: Key,
    text: &str,
) -> Result<bool, Memory>
    ensures { IfOk result (λ fits. fits ≡ is_value name key text.now) }
{
    match key {
        Key::Spec | Key::Trace | Key::Cert => Ok(is_file_name(text)),
        Key::Policy => Ok(policy_of(text).is_some()),
        Key::Left | Key::Right => Ok(infinite_word(alloc, text)?.is_some()),
        Key::Relation => Ok(relation_of(text).is_some()),
        _ => Ok(number(name, key, text).is_some()),
    }
}
