//! The values of the arguments of a relation's call.

ghost use Rattle.std.specs.Prelude.{◌≡◌, ◌+◌, length, IfOk, OnOk};
ghost use Rattle.std.specs.Option.{option_map};
ghost use Rattle.ccsl_rules.specs.Texts.{argument_texts};
ghost use Rattle.ccsl_rules.specs.Settings.{atom_of, number_in, prim_number, resolve_sign, sum_from, tail_of};
ghost use Rattle.ccsl_kernel.specs.Actuals.{signed};
ghost use Rattle.ccsl_rules.specs.Settings.{argument_atom};
ghost use Rattle.ccsl_expand.specs.Seen.{seen_atom, atom_or_zero};

use crate::atom::Atom;
use crate::expression::single;
use crate::setting::Setting;
use crate::tables::next_offset;
use crate::term::take_text;
use ccsl_ast::{Argument, Primary, Sign, Spot, Term};
use ccsl_base::{Memory, Text};
use ccsl_words::Word;
use std::alloc::Global;

fn named_number(setting: &Setting, name: &Spot) -> u32
    ensures { result ≡ number_in (atom_of setting.now name.now.name) }
{
    match setting.find(name.name.bytes()) {
        Some(Atom::Number(n)) => *n,
        _ => 0,
    }
}

fn number(setting: &Setting, primary: &Primary) -> u32
    ensures { result ≡ prim_number setting.now primary.now }
{
    match primary {
        Primary::Num(_, n) => *n,
        Primary::Name(name) => named_number(setting, name),
    }
}

fn signed(sign: Sign, left: u32, right: u32) -> u32
    ensures { result ≡ signed (resolve_sign sign) left right }
{
    match sign {
        Sign::Plus => left.saturating_add(right),
        Sign::Minus => left.saturating_sub(right),
    }
}

/// The value of a sum, from the left.
fn sum(setting: &Setting, term: &Term) -> u32
    ensures { result ≡ sum_from setting.now (prim_number setting.now term.now.first) term.now.rest }
{
    let mut total = number(setting, &term.first);
    for part in term.rest.members() {
        total = signed(part.0, total, number(setting, &part.1));
    }
    total
}

fn copy(alloc: Global, atom: Option<&Atom>) -> Result<Atom, Memory>
    ensures { IfOk result (λ a. seen_atom a
        ≡ atom_or_zero (option_map (λ b. seen_atom b.now) atom.entry)) }
{
    match atom {
        Some(Atom::Clock(whole)) => {
            let bytes = Vec::from_slice(alloc, whole.bytes())?;
            Ok(Atom::Clock(Text::new(bytes)))
        }
        Some(Atom::Number(n)) => Ok(Atom::Number(*n)),
        Some(Atom::Word(word, offset)) => Ok(Atom::Word(*word, *offset)),
        Some(Atom::Param(i, kind)) => Ok(Atom::Param(*i, *kind)),
        None => Ok(Atom::Number(0)),
    }
}

/// The value of an argument that is a name alone.
fn named(alloc: Global, setting: &Setting, name: &Spot) -> Result<Atom, Memory>
    ensures { IfOk result (λ a. seen_atom a ≡ atom_of setting.now name.now.name) }
{
    copy(alloc, setting.find(name.name.bytes()))
}

/// The value of an argument that is a word's tail.
fn tail(alloc: Global, words: &[Word], setting: &Setting, name: &Spot) -> Result<Atom, Memory>
    ensures { IfOk result (λ a.
        seen_atom a ≡ tail_of words.now (atom_of setting.now name.now.name)) }
{
    match setting.find(name.name.bytes()) {
        Some(Atom::Word(word, offset)) => {
            let next = next_offset(words, *word, *offset)?;
            Ok(Atom::Word(*word, next))
        }
        other => copy(alloc, other),
    }
}

/// The value of an argument. `next` is the number of its text before, where it is one, and of the text behind it after.
pub fn value(
    alloc: Global,
    words: &[Word],
    setting: &Setting,
    next: &mut u32,
    argument: &Argument,
) -> Result<Atom, Memory>
    ensures value { IfOk result (λ a.
        seen_atom a ≡ argument_atom words.now setting.now next.old argument.now) }
    ensures next { OnOk result (next.new ≡ next.old + length (argument_texts argument.now)) }
{
    match argument {
        Argument::Term(term) => match single(term) {
            Some(name) => named(alloc, setting, name),
            None => Ok(Atom::Number(sum(setting, term))),
        },
        Argument::Text(_, _) => Ok(Atom::Word(take_text(next)?, 0)),
        Argument::Tail(name) => tail(alloc, words, setting, name),
    }
}
