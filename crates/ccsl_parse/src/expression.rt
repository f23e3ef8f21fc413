//! Expressions.

ghost use Rattle.std.specs.Prelude.{◌≡◌};
ghost use Rattle.ccsl_ast.specs.Trees.{EIf};
ghost use Rattle.ccsl_ast.specs.Plain.{plain};
ghost use Rattle.ccsl_grammar.specs.Terminals.{terminals};
ghost use Rattle.ccsl_grammar.specs.Reader.{took, begins};
ghost use Rattle.ccsl_grammar.specs.Parser.{named_at, parens_at, operand_at, second_at, delayed_at, delay_at, await_at, filter_at, rest_at, branches_at};
ghost use Rattle.ccsl_grammar.specs.Parser.{choice_at, expr_with, is_expr, no_room, expr_at};
ghost use Rattle.ccsl_parse.specs.Reads.{ReadsAs};

use crate::leaf::{
    before_symbol, begins_name, begins_symbol, begins_word, behind_symbol, behind_word, num_at,
    some_name_at, symbol_at, word_at,
};
use crate::list::list_at;
use crate::operator::some_binop_at;
use crate::room::Room;
use crate::stop::Stop;
use crate::term::{term_at, wterm_at};
use crate::test::test_at;
use ccsl_ast::{BinaryOp, Spot, Test, Tree};
use ccsl_lex::{Reserved, Token};
use std::alloc::Global;

/// What stands behind an operand's name.
#[tactic(auto, unfolding(ccsl_grammar::specs::Parser::named_at))]
fn named_at<'a>(
    alloc: Global,
    name: Spot,
    tokens: &'a [Token],
) -> Result<(Tree, &'a [Token]), Stop<'a>>
    ensures { ReadsAs plain result (named_at name) tokens.now }
{
    match behind_symbol(tokens, b'(') {
        Some(rest) => {
            let (args, rest) = list_at(alloc, rest)?;
            Ok((Tree::Call(name, args), rest))
        }
        None => Ok((Tree::Name(name), tokens)),
    }
}

/// What stands behind an operand and `delay`.
#[tactic(auto, unfolding(ccsl_grammar::specs::Parser::delay_at))]
fn delay_at<'a>(
    alloc: Global,
    operand: Tree,
    tokens: &'a [Token],
) -> Result<(Tree, &'a [Token]), Stop<'a>>
    ensures { ReadsAs plain result (delay_at (plain operand)) tokens.now }
{
    let operand = Box::new(alloc, operand)?;
    let (term, rest) = term_at(alloc, tokens)?;
    Ok((Tree::Delay(operand, term), rest))
}

/// What stands behind an operand and `await`.
#[tactic(auto, unfolding(ccsl_grammar::specs::Parser::await_at))]
fn await_at<'a>(
    alloc: Global,
    operand: Tree,
    tokens: &'a [Token],
) -> Result<(Tree, &'a [Token]), Stop<'a>>
    ensures { ReadsAs plain result (await_at (plain operand)) tokens.now }
{
    let operand = Box::new(alloc, operand)?;
    let (term, rest) = term_at(alloc, tokens)?;
    Ok((Tree::Await(operand, term), rest))
}

/// What stands behind an operand and `filter`.
#[tactic(auto, unfolding(ccsl_grammar::specs::Parser::filter_at))]
fn filter_at<'a>(
    alloc: Global,
    operand: Tree,
    tokens: &'a [Token],
) -> Result<(Tree, &'a [Token]), Stop<'a>>
    ensures { ReadsAs plain result (filter_at (plain operand)) tokens.now }
{
    let operand = Box::new(alloc, operand)?;
    let (word, rest) = wterm_at(alloc, tokens)?;
    Ok((Tree::Filter(operand, word), rest))
}

fn begins_expr(tokens: &[Token]) -> bool
    ensures { result ≡ begins is_expr (terminals tokens.now) }
{
    begins_name(tokens)
        || begins_word(tokens, Reserved::Never)
        || begins_symbol(tokens, b'(')
        || begins_word(tokens, Reserved::If)
}

/// Why there is no expression where no level is left.
#[tactic(auto, unfolding(ccsl_grammar::specs::Parser::no_room))]
fn no_room<'a>(tokens: &'a [Token]) -> Result<(Tree, &'a [Token]), Stop<'a>>
    ensures { ReadsAs plain result no_room tokens.now }
{
    if begins_expr(tokens) {
        Err(Stop::TooDeep(tokens))
    } else {
        Err(Stop::Syntax(tokens))
    }
}

/// An expression, where so many levels are left.
#[cycle(expr)]
#[tactic(auto, unfolding(ccsl_grammar::specs::Parser::expr_at))]
pub fn expr_at<'a>(
    alloc: Global,
    room: Room,
    tokens: &'a [Token],
) -> Result<(Tree, &'a [Token]), Stop<'a>>
    ensures { ReadsAs plain result (expr_at room.two room.levels) tokens.now }
{
    if room.levels == 0 {
        no_room(tokens)
    } else {
        let inner = Room {
            levels: room.levels - 1,
            two: room.two,
        };
        expr_with(alloc, inner, tokens)
    }
}

#[cycle(expr)]
#[tactic(auto, unfolding(ccsl_grammar::specs::Parser::expr_with))]
fn expr_with<'a>(
    alloc: Global,
    room: Room,
    tokens: &'a [Token],
) -> Result<(Tree, &'a [Token]), Stop<'a>>
    ensures { ReadsAs plain result (expr_with (expr_at room.two room.levels) room.two) tokens.now }
{
    match behind_word(tokens, Reserved::If) {
        Some(rest) => choice_at(alloc, room, rest),
        None => {
            let (operand, rest) = operand_at(alloc, room, tokens)?;
            rest_at(alloc, room, operand, rest)
        }
    }
}

/// What stands behind `if`.
#[cycle(expr)]
#[tactic(auto, unfolding(ccsl_grammar::specs::Parser::choice_at))]
fn choice_at<'a>(
    alloc: Global,
    room: Room,
    tokens: &'a [Token],
) -> Result<(Tree, &'a [Token]), Stop<'a>>
    ensures { ReadsAs plain result (choice_at (expr_at room.two room.levels)) tokens.now }
{
    let (test, rest) = test_at(alloc, tokens)?;
    let ((yes, no), rest) = branches_at(alloc, room, rest)?;
    Ok((Tree::If(test, yes, no), rest))
}

/// The two branches behind the test of an `if`.
#[cycle(expr)]
#[tactic(auto, unfolding(ccsl_grammar::specs::Parser::branches_at))]
fn branches_at<'a>(
    alloc: Global,
    room: Room,
    tokens: &'a [Token],
) -> Result<((Box<Tree>, Box<Tree>), &'a [Token]), Stop<'a>>
    ensures { (test : Test) → ReadsAs (λ x. EIf test (plain x.0.value) (plain x.1.value)) result
        (branches_at (expr_at room.two room.levels) test) tokens.now }
{
    let rest = word_at(tokens, Reserved::Use)?;
    let (yes, rest) = expr_at(alloc, room, rest)?;
    let yes = Box::new(alloc, yes)?;
    let rest = word_at(rest, Reserved::Else)?;
    let (no, rest) = expr_at(alloc, room, rest)?;
    let no = Box::new(alloc, no)?;
    Ok(((yes, no), rest))
}

/// What stands behind the first operand.
#[cycle(expr)]
#[tactic(auto, unfolding(ccsl_grammar::specs::Parser::rest_at, ccsl_grammar::specs::Parser::binary_at))]
fn rest_at<'a>(
    alloc: Global,
    room: Room,
    operand: Tree,
    tokens: &'a [Token],
) -> Result<(Tree, &'a [Token]), Stop<'a>>
    ensures { ReadsAs plain result
        (rest_at (expr_at room.two room.levels) room.two (plain operand)) tokens.now }
{
    match some_binop_at(room, tokens)? {
        Some((op, rest)) => return second_at(alloc, room, op, operand, rest),
        None => {}
    }
    match behind_word(tokens, Reserved::Delay) {
        Some(rest) => return delay_at(alloc, operand, rest),
        None => {}
    }
    match behind_word(tokens, Reserved::Await) {
        Some(rest) => return await_at(alloc, operand, rest),
        None => {}
    }
    match behind_word(tokens, Reserved::Filter) {
        Some(rest) => return filter_at(alloc, operand, rest),
        None => {}
    }
    match behind_word(tokens, Reserved::Delayed) {
        Some(rest) => delayed_at(alloc, room, operand, rest),
        None => Ok((operand, tokens)),
    }
}

/// The second operand.
#[cycle(expr)]
#[tactic(auto, unfolding(ccsl_grammar::specs::Parser::second_at))]
fn second_at<'a>(
    alloc: Global,
    room: Room,
    op: BinaryOp,
    operand: Tree,
    tokens: &'a [Token],
) -> Result<(Tree, &'a [Token]), Stop<'a>>
    ensures { ReadsAs plain result
        (second_at (expr_at room.two room.levels) op (plain operand)) tokens.now }
{
    let operand = Box::new(alloc, operand)?;
    let (other, rest) = operand_at(alloc, room, tokens)?;
    let other = Box::new(alloc, other)?;
    Ok((Tree::Binary(op, operand, other), rest))
}

/// What stands behind an operand and `delayed`.
#[cycle(expr)]
#[tactic(auto, unfolding(ccsl_grammar::specs::Parser::delayed_at))]
fn delayed_at<'a>(
    alloc: Global,
    room: Room,
    operand: Tree,
    tokens: &'a [Token],
) -> Result<(Tree, &'a [Token]), Stop<'a>>
    ensures { ReadsAs plain result
        (delayed_at (expr_at room.two room.levels) (plain operand)) tokens.now }
{
    let operand = Box::new(alloc, operand)?;
    let ((at, number), rest) = num_at(tokens)?;
    let rest = word_at(rest, Reserved::On)?;
    let (base, rest) = operand_at(alloc, room, rest)?;
    let base = Box::new(alloc, base)?;
    Ok((Tree::Delayed(operand, at, number, base), rest))
}

/// A name, a call, `never`, or an expression in parentheses.
#[cycle(expr)]
#[tactic(auto, unfolding(ccsl_grammar::specs::Parser::operand_at))]
fn operand_at<'a>(
    alloc: Global,
    room: Room,
    tokens: &'a [Token],
) -> Result<(Tree, &'a [Token]), Stop<'a>>
    ensures { ReadsAs plain result (operand_at (expr_at room.two room.levels)) tokens.now }
{
    match some_name_at(alloc, tokens)? {
        Some((name, rest)) => return named_at(alloc, name, rest),
        None => {}
    }
    match behind_word(tokens, Reserved::Never) {
        Some(rest) => Ok((Tree::Never, rest)),
        None => parens_at(alloc, room, tokens),
    }
}

#[cycle(expr)]
#[tactic(auto, unfolding(ccsl_grammar::specs::Parser::parens_at))]
fn parens_at<'a>(
    alloc: Global,
    room: Room,
    tokens: &'a [Token],
) -> Result<(Tree, &'a [Token]), Stop<'a>>
    ensures { ReadsAs plain result (parens_at (expr_at room.two room.levels)) tokens.now }
{
    let rest = symbol_at(tokens, b'(')?;
    let (tree, rest) = expr_at(alloc, room, rest)?;
    before_symbol(tree, rest, b')')
}
