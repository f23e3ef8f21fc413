//! Whether what an expression names is there, and of the right kind.

ghost use Rattle.std.specs.Prelude.{◌≡◌, ◌↔◌, IsTrue, map, slice_get};
ghost use Rattle.std.specs.Option.{option_map};
ghost use Rattle.ccsl_kernel.specs.Syntax.{body_of};
ghost use Rattle.ccsl_kernel.specs.Plain.{plain_expr, plain_group, plain_body};
ghost use Rattle.ccsl_kernel.specs.Accepted.{IsOffset, IsClock, IsNumber, AreNumbers, IsWord};
ghost use Rattle.ccsl_kernel.specs.Accepted.{IsTest, IsArgument, AreArguments, IsKnown};

use crate::expr::{Expr, ExprTest, NumPrim, NumTerm, Place, Value, WordPlace};
use crate::group::{Body, Group, ParamKind};
use ccsl_words::Word;

/// What an expression may name: groups, words, the clocks below a number, and parameters.
#[derive(Clone, Copy)]
pub struct Nameable<'a> {
    pub groups: &'a [Group],
    pub words: &'a [Word],
    pub clocks: u32,
    pub params: &'a [ParamKind],
}

/// Whether parameter number `i` is there and of a kind.
fn has_kind(params: &[ParamKind], i: u32, kind: ParamKind) -> bool
    ensures { IsTrue result ↔ (slice_get params.now i ≡ Some kind) }
{
    match params.get(i as usize) {
        Some(own) => *own == kind,
        None => false,
    }
}

fn is_clock(here: &Nameable<'_>, place: Place) -> bool
    ensures { let groups = map plain_group here.now.groups.now in
        IsTrue result ↔
        IsClock groups here.now.words.now here.now.clocks here.now.params.now place }
{
    match place {
        Place::Clock(x) => x < here.clocks,
        Place::Param(i) => has_kind(here.params, i, ParamKind::Clock),
    }
}

fn is_number(here: &Nameable<'_>, number: NumPrim) -> bool
    ensures { let groups = map plain_group here.now.groups.now in
        IsTrue result ↔
        IsNumber groups here.now.words.now here.now.clocks here.now.params.now number }
{
    match number {
        NumPrim::Num(_) => true,
        NumPrim::Param(i) => has_kind(here.params, i, ParamKind::Number),
    }
}

fn are_numbers(here: &Nameable<'_>, term: &NumTerm) -> bool
    ensures { let groups = map plain_group here.now.groups.now in
        IsTrue result ↔
        AreNumbers groups here.now.words.now here.now.clocks here.now.params.now term.now }
{
    is_number(here, term.first)
        && term
            .rest
            .members()
            .iter()
            .all(|part| is_number(here, part.1))
}

/// Whether an offset is at most the length of a finite word, and below that of an infinite one.
fn is_offset(word: &Word, offset: u64) -> bool
    ensures { IsTrue result ↔ IsOffset word.now offset }
{
    offset < word.len() || offset == word.len() && word.is_finite()
}

fn is_word(here: &Nameable<'_>, word: WordPlace) -> bool
    ensures { let groups = map plain_group here.now.groups.now in
        IsTrue result ↔ IsWord groups here.now.words.now here.now.clocks here.now.params.now word }
{
    match word {
        WordPlace::Word(i, offset) => match here.words.get(i as usize) {
            Some(word) => is_offset(word, offset),
            None => false,
        },
        WordPlace::Param(i) | WordPlace::Tail(i) => has_kind(here.params, i, ParamKind::Word),
    }
}

fn is_test(here: &Nameable<'_>, test: &ExprTest) -> bool
    ensures { let groups = map plain_group here.now.groups.now in
        IsTrue result ↔
        IsTest groups here.now.words.now here.now.clocks here.now.params.now test.now }
{
    match test {
        ExprTest::Equal(t, u) | ExprTest::Less(t, u) => are_numbers(here, t)
            && are_numbers(here, u),
        ExprTest::Head(word) | ExprTest::Ended(word) => is_word(here, *word),
    }
}

/// Whether an argument is there and of its parameter's kind.
fn is_argument(here: &Nameable<'_>, kind: ParamKind, argument: &Value) -> bool
    ensures { let groups = map plain_group here.now.groups.now in
        IsTrue result ↔
        IsArgument groups here.now.words.now here.now.clocks here.now.params.now kind argument.now }
{
    match (kind, argument) {
        (ParamKind::Clock, Value::Clock(place)) => is_clock(here, *place),
        (ParamKind::Number, Value::Number(term)) => are_numbers(here, term),
        (ParamKind::Word, Value::Word(word)) => is_word(here, *word),
        _ => false,
    }
}

/// Whether arguments have the number and the kinds of parameters.
fn are_arguments(here: &Nameable<'_>, params: &[ParamKind], arguments: &[Value]) -> bool
    ensures { let groups = map plain_group here.now.groups.now in
        IsTrue result ↔
        AreArguments groups here.now.words.now here.now.clocks here.now.params.now
        params.now arguments.now }
{
    if params.len() != arguments.len() {
        return false;
    }
    for (i, kind) in params.iter().enumerate() {
        if !is_argument(here, *kind, &arguments[i]) {
            return false;
        }
    }
    true
}

/// The member of a group.
fn body_at(groups: &[Group], group: u32, member: u32) -> Option<&Body>
    ensures { body_of (map plain_group groups.now) group member ≡
        option_map (λ b. plain_body b.now) result }
{
    groups
        .get(group as usize)?
        .members
        .members()
        .get(member as usize)
}

/// Whether all that an expression names is there.
pub fn is_known(here: &Nameable<'_>, e: &Expr) -> bool
    ensures { let groups = map plain_group here.now.groups.now in
        IsTrue result ↔
        IsKnown groups here.now.words.now here.now.clocks here.now.params.now (plain_expr e.now) }
{
    match e {
        Expr::Name(place) => is_clock(here, *place),
        Expr::Call {
            group,
            member,
            args,
        } => match body_at(here.groups, *group, *member) {
            Some(body) => are_arguments(here, body.params.members(), args.members()),
            None => false,
        },
        Expr::Never => true,
        Expr::Binary(_, a, d) | Expr::Delayed(a, _, d) => is_known(here, a) && is_known(here, d),
        Expr::Delay(a, number) | Expr::Await(a, number) => is_known(here, a)
            && are_numbers(here, number),
        Expr::Filter(a, word) => is_known(here, a) && is_word(here, *word),
        Expr::If(test, a, d) => is_test(here, test) && is_known(here, a) && is_known(here, d),
    }
}
