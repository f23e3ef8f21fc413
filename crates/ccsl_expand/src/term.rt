//! Clocks, numbers, words and tests under a setting.

ghost use Rattle.std.specs.Prelude.{◌≡◌, ◌+◌, ◌++◌, length, map, IfOk, OnOk};
ghost use Rattle.ccsl_rules.specs.Texts.{word_texts};
ghost use Rattle.ccsl_rules.specs.Settings.{atom_of};
ghost use Rattle.ccsl_rules.specs.Resolved.{atom_place, atom_prim, atom_word, atom_tail};
ghost use Rattle.ccsl_rules.specs.Resolved.{resolve_prim, resolve_term, resolve_word, resolve_test};
ghost use Rattle.ccsl_rules.specs.Settings.{resolve_sign};
ghost use Rattle.ccsl_expand.specs.Seen.{seen_tables};

use crate::atom::Atom;
use crate::setting::Setting;
use crate::tables::{Tables, clock_number, next_offset};
use ccsl_ast::{Primary, Sign, Spot, Term, Test, WordTerm};
use ccsl_base::{Memory, Seq};
use ccsl_kernel::{ExprTest, NumPrim, NumSign, NumTerm, Place, WordPlace};
use std::alloc::Global;

/// The number of the text that comes next. A text is read once, and so each has a number of its own.
pub fn take_text(next: &mut u32) -> Result<u32, Memory>
    ensures number { IfOk result (λ number. number ≡ next.old) }
    ensures next { OnOk result (next.new ≡ next.old + 1) }
{
    let number = *next;
    *next = number.checked_add(1).ok_or(Memory)?;
    Ok(number)
}

/// The clock of a name, or the parameter.
pub fn place(tables: &Tables<'_, '_>, setting: &Setting, name: &Spot) -> Place
    ensures { result ≡ atom_place (seen_tables tables.now) (atom_of setting.now name.now.name) }
{
    match setting.find(name.name.bytes()) {
        Some(Atom::Clock(whole)) => Place::Clock(clock_number(tables.names, whole.bytes())),
        Some(Atom::Param(i, _)) => Place::Param(*i),
        _ => Place::Clock(0),
    }
}

fn number(setting: &Setting, name: &Spot) -> NumPrim
    ensures { result ≡ atom_prim (atom_of setting.now name.now.name) }
{
    match setting.find(name.name.bytes()) {
        Some(Atom::Number(n)) => NumPrim::Num(*n),
        Some(Atom::Param(i, _)) => NumPrim::Param(*i),
        _ => NumPrim::Num(0),
    }
}

fn named_word(setting: &Setting, name: &Spot) -> WordPlace
    ensures { result ≡ atom_word (atom_of setting.now name.now.name) }
{
    match setting.find(name.name.bytes()) {
        Some(Atom::Word(word, offset)) => WordPlace::Word(*word, *offset),
        Some(Atom::Param(i, _)) => WordPlace::Param(*i),
        _ => WordPlace::Word(0, 0),
    }
}

/// The word of a name without its letter at the offset.
pub fn tail(tables: &Tables<'_, '_>, setting: &Setting, name: &Spot) -> Result<WordPlace, Memory>
    ensures { IfOk result (λ w.
        w ≡ atom_tail (seen_tables tables.now) (atom_of setting.now name.now.name)) }
{
    match setting.find(name.name.bytes()) {
        Some(Atom::Word(word, offset)) => {
            let next = next_offset(tables.words, *word, *offset)?;
            Ok(WordPlace::Word(*word, next))
        }
        Some(Atom::Param(i, _)) => Ok(WordPlace::Tail(*i)),
        _ => Ok(WordPlace::Word(0, 0)),
    }
}

fn prim(setting: &Setting, primary: &Primary) -> NumPrim
    ensures { result ≡ resolve_prim setting.now primary.now }
{
    match primary {
        Primary::Num(_, n) => NumPrim::Num(*n),
        Primary::Name(name) => number(setting, name),
    }
}

fn sign(sign: Sign) -> NumSign
    ensures { result ≡ resolve_sign sign }
{
    match sign {
        Sign::Plus => NumSign::Plus,
        Sign::Minus => NumSign::Minus,
    }
}

/// A sum.
pub fn term(alloc: Global, setting: &Setting, term: &Term) -> Result<NumTerm, Memory>
    ensures { IfOk result (λ t. t ≡ resolve_term setting.now term.now) }
{
    let first = prim(setting, &term.first);
    let mut rest = Vec::new(alloc);
    for part in term.rest.members() {
        rest.push((sign(part.0), prim(setting, &part.1)))?;
    }
    Ok(NumTerm {
        first,
        rest: Seq::new(rest),
    })
}

/// What a filter goes by.
pub fn word(
    tables: &Tables<'_, '_>,
    setting: &Setting,
    next: &mut u32,
    term: &WordTerm,
) -> Result<WordPlace, Memory>
    ensures word { IfOk result (λ w.
        w ≡ resolve_word (seen_tables tables.now) setting.now next.old term.now) }
    ensures next { OnOk result (next.new ≡ next.old + length (word_texts term.now)) }
{
    match term {
        WordTerm::Text(_, _) => Ok(WordPlace::Word(take_text(next)?, 0)),
        WordTerm::Name(name) => Ok(named_word(setting, name)),
        WordTerm::Tail(name) => tail(tables, setting, name),
    }
}

/// What an `if` asks.
pub fn test(alloc: Global, setting: &Setting, test: &Test) -> Result<ExprTest, Memory>
    ensures { IfOk result (λ q. q ≡ resolve_test setting.now test.now) }
{
    match test {
        Test::Equal(a, b) => Ok(ExprTest::Equal(
            term(alloc, setting, a)?,
            term(alloc, setting, b)?,
        )),
        Test::Less(a, b) => Ok(ExprTest::Less(term(alloc, setting, a)?, term(alloc, setting, b)?)),
        Test::Head(name) => Ok(ExprTest::Head(named_word(setting, name))),
        Test::Ended(name) => Ok(ExprTest::Ended(named_word(setting, name))),
    }
}
