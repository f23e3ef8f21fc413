//! References of variables.

ghost use Rattle.std.specs.Prelude.{◌≡◌, ◌≤◌, ◌<◌, IfSome, length, take, drop};
ghost use Rattle.ccsl_scopes.specs.References.{selected, last_bracket, whole, ending, is_escaped, named, reference_of};

use crate::select::{Select, select_of};

/// How many bytes of a reference are its name, and what stands in brackets behind.
#[derive(Clone, Copy)]
pub(crate) struct Reference {
    pub bare: usize,
    pub range: Select,
}

// Where the last opening bracket stands.
fn last_bracket(text: &[u8]) -> Option<usize>
    ensures value { result ≡ last_bracket text.now }
    ensures within { IfSome result (λ at. at < length text.now) }
{
    let mut found = None;
    for i in 0..text.len() {
        if text[i] == b'[' {
            found = Some(i);
        }
    }
    found
}

fn whole(reference: &[u8]) -> Reference
    ensures { result ≡ whole reference.now }
{
    Reference {
        bare: reference.len(),
        range: Select::Whole,
    }
}

// A reference whose brackets begin at a place, if they mean something.
fn ending(reference: &[u8], at: usize) -> Reference
    requires { at ≤ length reference.now }
    ensures { result ≡ ending reference.now at (selected (drop at reference.now)) }
{
    match select_of(&reference[at..]) {
        Some(range) => Reference { bare: at, range },
        None => whole(reference),
    }
}

// A name in one token.
fn named(text: &[u8]) -> Reference
    ensures { result ≡ named text.now (last_bracket text.now) }
{
    let Some(at) = last_bracket(text) else {
        return whole(text);
    };
    if at == 0 {
        return whole(text);
    }
    ending(text, at)
}

fn is_escaped(text: &[u8]) -> bool
    ensures { result ≡ is_escaped text.now }
{
    match text {
        [first, ..] => *first == b'\\',
        [] => false,
    }
}

/// A reference of which so many bytes are its first word.
pub(crate) fn split(reference: &[u8], first: usize) -> Reference
    requires { first ≤ length reference.now }
    ensures { result ≡ reference_of (take first reference.now) (drop first reference.now) }
{
    if first < reference.len() {
        return ending(reference, first);
    }
    if is_escaped(reference) {
        return whole(reference);
    }
    named(reference)
}
