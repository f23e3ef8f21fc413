//! Looking a path up in a header.

ghost use Rattle.std.specs.Prelude.{◌≡◌, bytes_eq, take};
ghost use Rattle.ccsl_scopes.specs.Paths.{ends_in, is_or_ends_in, has_letters, with_bits, target_of, is_same, joined, only, resolved};

use crate::path::Path;
use crate::select::{Bits, Select, bits_of};
use crate::variable::{Kind, Variable};

/// Bits of a variable: the number of its code, its size and what its values are, and which of its bits.
#[derive(Clone, Copy)]
pub struct Target {
    pub code: u32,
    pub size: u32,
    pub kind: Kind,
    pub bits: Bits,
}

/// What a path means.
#[derive(Clone, Copy)]
pub enum Resolution {
    Found(Target),
    Unknown,
    Ambiguous,
}

/// What variables have in common.
#[derive(Clone, Copy)]
pub(crate) enum Agreed {
    Nothing,
    One(Target),
    Several,
}

/// Whether names are these parts, or end with them.
pub(crate) fn ends_in(text: &[u8], parts: &[u8]) -> bool
    ensures { result ≡ ends_in text.now parts.now }
{
    if text == parts {
        return true;
    }
    if parts.len() >= text.len() {
        return false;
    }
    let at = text.len() - parts.len();
    text[at - 1] == b' ' && &text[at..] == parts
}

fn is_or_ends_in(exact: bool, text: &[u8], parts: &[u8]) -> bool
    ensures { result ≡ is_or_ends_in exact text.now parts.now }
{
    if exact {
        text == parts
    } else {
        ends_in(text, parts)
    }
}

fn has_letters(kind: Kind) -> bool
    ensures { result ≡ has_letters kind }
{
    match kind {
        Kind::Bits | Kind::Event => true,
        Kind::Other => false,
    }
}

fn with_bits(variable: &Variable, bits: Option<Bits>) -> Option<Target>
    ensures { result ≡ with_bits variable.now bits }
{
    match bits {
        Some(bits) => Some(Target {
            code: variable.code,
            size: variable.size,
            kind: variable.kind,
            bits,
        }),
        None => None,
    }
}

fn target_of(exact: bool, path: &Path, variable: &Variable) -> Option<Target>
    ensures { result ≡ target_of exact path.now.parts.items path.now.select variable.now }
{
    let parts = path.parts.as_slice();
    if !has_letters(variable.kind) {
        return None;
    }
    if is_or_ends_in(exact, variable.bare_path(), parts) {
        return with_bits(
            variable,
            bits_of(variable.range, variable.size, path.select),
        );
    }
    if is_or_ends_in(exact, variable.path.as_slice(), parts) {
        return with_bits(variable, bits_of(Select::Whole, variable.size, path.select));
    }
    None
}

fn is_same(a: Target, b: Target) -> bool
    ensures { result ≡ is_same a b }
{
    a.code == b.code
        && (a.size == b.size && (a.bits.low == b.bits.low && a.bits.width == b.bits.width))
}

fn joined(found: Agreed, target: Option<Target>) -> Agreed
    ensures { result ≡ joined found target }
{
    let Some(target) = target else {
        return found;
    };
    match found {
        Agreed::Nothing => Agreed::One(target),
        Agreed::One(first) => {
            if is_same(first, target) {
                found
            } else {
                Agreed::Several
            }
        }
        Agreed::Several => Agreed::Several,
    }
}

fn only(exact: bool, path: &Path, variables: &[Variable]) -> Agreed
    ensures { result ≡ only exact path.now.parts.items path.now.select variables.now }
{
    let mut found = Agreed::Nothing;
    for variable in variables {
        found = joined(found, target_of(exact, path, variable));
    }
    found
}

/// What a path means among variables.
#[tactic(auto, unfolding(crate::specs::Paths::resolved))]
pub fn resolve(path: &Path, variables: &[Variable]) -> Resolution
    ensures { result ≡ resolved path.now.parts.items path.now.select variables.now }
{
    match only(false, path, variables) {
        Agreed::Nothing => Resolution::Unknown,
        Agreed::One(target) => Resolution::Found(target),
        Agreed::Several => match only(true, path, variables) {
            Agreed::One(target) => Resolution::Found(target),
            Agreed::Nothing | Agreed::Several => Resolution::Ambiguous,
        },
    }
}
