//! The words behind the command, as pairs of a key and a value.

ghost use Rattle.std.specs.Prelude.{◌≡◌, true, false, MatchOption, find};
ghost use Rattle.std.specs.Str.{bytes_eq};
ghost use Rattle.ccsl_command.specs.Pairs.{is_pair, key_part, value_part, key_of, has_key, is_given, value_of};
ghost use Rattle.ccsl_command.specs.Table.{key_text, keys_of};

use crate::{CommandName, Key};
use ccsl_base::CommandWord;

/// A word that was split at its first `=`.
#[derive(Clone, Copy)]
pub(crate) struct Pair<'a> {
    pub key: &'a str,
    pub value: &'a str,
}

/// The pair of a word, or `None` where it has no `=`.
pub(crate) fn split(word: &CommandWord) -> Option<Pair<'_>>
    ensures { MatchOption result (is_pair word.now ≡ false) (λ pair.
        (is_pair word.now ≡ true) × (pair.key.now ≡ key_part word.now)
        × (pair.value.now ≡ value_part word.now)) }
{
    match word.as_str().split_once('=') {
        Some((key, value)) => Some(Pair { key, value }),
        None => None,
    }
}

/// The key with this text, among those of the command.
pub(crate) fn key_named(name: CommandName, text: &str) -> Option<Key>
    ensures { result ≡ find (λ k. bytes_eq (key_text k) text.now) (keys_of name) }
{
    name.keys().iter().copied().find(|key| key.text() == text)
}

fn has_key(key: Key, word: &CommandWord) -> bool
    ensures { result ≡ has_key key word.now }
{
    match split(word) {
        Some(pair) => key.text() == pair.key,
        None => false,
    }
}

/// Whether a key stands among the words.
pub(crate) fn is_given(key: Key, words: &[CommandWord]) -> bool
    ensures { result ≡ is_given key words.now }
{
    words.iter().any(|word| has_key(key, word))
}

/// The value of the first word with this key, and nothing where there is none.
pub(crate) fn value_of(key: Key, words: &[CommandWord]) -> &str
    ensures { result.now ≡ value_of key words.now }
{
    for word in words {
        if let Some(pair) = split(word) {
            if key.text() == pair.key {
                return pair.value;
            }
        }
    }
    ""
}
