//! The words of a command line.

ghost use Rattle.std.specs.Prelude.{◌≡◌, ◌+◌, [], Option, Ok, Err, IfOk, IfErr, MatchOption, true, false, length};
ghost use Rattle.std.specs.Option.{option_copied};
ghost use Rattle.ccsl_events_top.specs.Words.{key_text, is_pair, key_part, value_part, key_named, allows, has_key, value_of, word_fault, first_fault, meaning};
ghost use Rattle.ccsl_events_top.specs.Words.{named_by};

use ccsl_base::CommandWord;
use ccsl_events::Gaps;

/// What the words name.
#[derive(Clone, Copy)]
pub struct Command<'a> {
    pub events: &'a str,
    pub trace: &'a str,
    pub out: Option<&'a str>,
    pub gaps: Gaps,
}

/// What a word may be a value of.
#[derive(Clone, Copy)]
pub enum Key {
    Events,
    Trace,
    Out,
    Gaps,
}

/// What is wrong with the words. A word is named by its number, from 1.
#[derive(Clone, Copy)]
pub enum Usage {
    NotPair(usize),
    UnknownKey(usize),
    Repeated(usize),
    BadValue(usize),
    Missing(Key),
    SameName,
}

impl Key {
    /// The key as it stands in a word in front of `=`.
    pub fn text(self) -> &'static str
        ensures { result.now ≡ key_text self }
    {
        match self {
            Key::Events => "events",
            Key::Trace => "trace",
            Key::Out => "out",
            Key::Gaps => "gaps",
        }
    }

    fn named(text: &str) -> Option<Key>
        ensures { result ≡ key_named text.now }
    {
        [Key::Events, Key::Trace, Key::Out, Key::Gaps]
            .iter()
            .copied()
            .find(|key| key.text() == text)
    }

    fn allows(self, value: &str) -> bool
        ensures { result ≡ allows self value.now }
    {
        match self {
            Key::Gaps => value == "skip",
            Key::Events | Key::Trace | Key::Out => !value.is_empty(),
        }
    }
}

// A word that was split at its first `=`.
#[derive(Clone, Copy)]
struct Pair<'a> {
    key: &'a str,
    value: &'a str,
}

fn split(word: &CommandWord) -> Option<Pair<'_>>
    ensures { MatchOption result (is_pair word.now ≡ false) (λ pair.
        (is_pair word.now ≡ true) × (pair.key.now ≡ key_part word.now)
        × (pair.value.now ≡ value_part word.now)) }
{
    match word.as_str().split_once('=') {
        Some((key, value)) => Some(Pair { key, value }),
        None => None,
    }
}

/// The value of a key, in the first word that has it.
pub(crate) fn value_of<'a>(key: Key, words: &'a [CommandWord]) -> Option<&'a str>
    ensures { option_copied result ≡ value_of key words.now }
{
    for word in words {
        if let Some(pair) = split(word) {
            if pair.key == key.text() {
                return Some(pair.value);
            }
        }
    }
    None
}

// What is wrong with word number `i`, behind the earlier ones.
fn word_fault(earlier: &[CommandWord], i: usize, word: &CommandWord) -> Option<Usage>
    ensures { result ≡ word_fault earlier.now i word.now }
{
    let Some(pair) = split(word) else {
        return Some(Usage::NotPair(i));
    };
    let Some(key) = Key::named(pair.key) else {
        return Some(Usage::UnknownKey(i));
    };
    if value_of(key, earlier).is_some() {
        return Some(Usage::Repeated(i));
    }
    if !key.allows(pair.value) {
        return Some(Usage::BadValue(i));
    }
    None
}

fn first_fault(words: &[CommandWord]) -> Option<Usage>
    ensures { result ≡ first_fault [] words.now }
{
    for i in 0..words.len() {
        let fault = word_fault(&words[..i], i + 1, &words[i]);
        if fault.is_some() {
            return fault;
        }
    }
    None
}

/// What a list of words means, or what is wrong with it: the first word at fault, then a missing key, then equal file
/// names.
pub fn meaning(words: &[CommandWord]) -> Result<Command<'_>, Usage>
    ensures meant { IfOk result (λ command. meaning words.now ≡ Ok (named_by command)) }
    ensures refused { IfErr result (λ fault. meaning words.now ≡ Err fault) }
{
    if let Some(fault) = first_fault(words) {
        return Err(fault);
    }
    let Some(events) = value_of(Key::Events, words) else {
        return Err(Usage::Missing(Key::Events));
    };
    let Some(trace) = value_of(Key::Trace, words) else {
        return Err(Usage::Missing(Key::Trace));
    };
    let out = value_of(Key::Out, words);
    if events == trace || out == Some(events) || out == Some(trace) {
        return Err(Usage::SameName);
    }
    let gaps = match value_of(Key::Gaps, words) {
        Some(_) => Gaps::Skip,
        None => Gaps::Refuse,
    };
    Ok(Command {
        events,
        trace,
        out,
        gaps,
    })
}
