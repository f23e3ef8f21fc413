//! Expressions.

ghost use Rattle.std.specs.Prelude.{◌≡◌, ◌∷◌, ◌++◌, [], OnOk};
ghost use Rattle.ccsl_ast.specs.Trees.{EIf};
ghost use Rattle.ccsl_ast.specs.Plain.{plain};
ghost use Rattle.ccsl_grammar.specs.Terminals as t;
ghost use Rattle.ccsl_grammar.specs.Grammar.{opening, closing, args_spelled, binop_spelled};
ghost use Rattle.ccsl_grammar.specs.Canonical.{expr_tokens, operand_tokens};
ghost use Rattle.ccsl_print.specs.Pages.{after};

use crate::list::put_list;
use crate::page::Page;
use crate::term::{put_term, put_test, put_wterm};
use ccsl_ast::{Argument, BinaryOp, Spot, Test, Tree};
use ccsl_base::{Memory, Seq};
use ccsl_lex::Reserved;

/// A name and its arguments, in parentheses also where there are none.
#[tactic(auto, using(crate::proofs::Steps::after_append))]
pub fn put_call(page: &mut Page, name: &Spot, args: &Seq<Argument>) -> Result<(), Memory>
    ensures { OnOk result (page.new ≡ after page.old
        (t.name name.now ∷ opening ∷ (args_spelled args.now ++ closing ∷ []))) }
{
    page.name(name)?;
    page.symbol(b'(')?;
    put_list(page, args.members())?;
    page.symbol(b')')
}

fn put_binop(page: &mut Page, op: BinaryOp) -> Result<(), Memory>
    ensures { OnOk result (page.new ≡ after page.old (binop_spelled op)) }
{
    match op {
        BinaryOp::Union => page.word(Reserved::Union),
        BinaryOp::Inter => page.word(Reserved::Inter),
        BinaryOp::Minus => page.word(Reserved::Minus),
        BinaryOp::Inf => page.word(Reserved::Inf),
        BinaryOp::Sup => page.word(Reserved::Sup),
        BinaryOp::Upto => page.word(Reserved::Upto),
        BinaryOp::UptoWeakly => {
            page.word(Reserved::Upto)?;
            page.word(Reserved::Weakly)
        }
        BinaryOp::Then => page.word(Reserved::Then),
        BinaryOp::Sampled => {
            page.word(Reserved::Sampled)?;
            page.word(Reserved::On)
        }
        BinaryOp::SampledWeakly => {
            page.word(Reserved::Sampled)?;
            page.word(Reserved::Weakly)?;
            page.word(Reserved::On)
        }
    }
}

#[cycle(expression)]
#[tactic(auto, using(crate::proofs::Steps::after_append, crate::proofs::Steps::in_parens, crate::proofs::Steps::without_parens))]
fn put_operand(page: &mut Page, tree: &Tree) -> Result<(), Memory>
    ensures { OnOk result (page.new ≡ after page.old
        (operand_tokens (plain tree.now) (expr_tokens (plain tree.now)))) }
{
    if tree.stands_in_parens() {
        page.symbol(b'(')?;
        put_expression(page, tree)?;
        page.symbol(b')')
    } else {
        put_expression(page, tree)
    }
}

/// Puts an expression, in parentheses where the grammar asks for them.
#[cycle(expression)]
#[tactic(auto, using(crate::proofs::Steps::after_append, crate::proofs::Steps::number_step))]
pub fn put_expression(page: &mut Page, tree: &Tree) -> Result<(), Memory>
    ensures { OnOk result (page.new ≡ after page.old (expr_tokens (plain tree.now))) }
{
    match tree {
        Tree::Name(name) => page.name(name),
        Tree::Call(name, args) => put_call(page, name, args),
        Tree::Never => page.word(Reserved::Never),
        Tree::Binary(op, left, right) => {
            put_operand(page, left)?;
            put_binop(page, *op)?;
            put_operand(page, right)
        }
        Tree::Delay(operand, times) => {
            put_operand(page, operand)?;
            page.word(Reserved::Delay)?;
            put_term(page, times)
        }
        Tree::Await(operand, times) => {
            put_operand(page, operand)?;
            page.word(Reserved::Await)?;
            put_term(page, times)
        }
        Tree::Filter(operand, word) => {
            put_operand(page, operand)?;
            page.word(Reserved::Filter)?;
            put_wterm(page, word)
        }
        Tree::Delayed(operand, _, times, base) => {
            put_operand(page, operand)?;
            page.word(Reserved::Delayed)?;
            page.number(*times)?;
            page.word(Reserved::On)?;
            put_operand(page, base)
        }
        Tree::If(test, first, second) => put_choice(page, test, first, second),
    }
}

#[cycle(expression)]
#[tactic(auto, using(crate::proofs::Steps::after_append))]
fn put_choice(page: &mut Page, test: &Test, first: &Tree, second: &Tree) -> Result<(), Memory>
    ensures { OnOk result (page.new ≡ after page.old
        (expr_tokens (EIf test.now (plain first.now) (plain second.now)))) }
{
    page.word(Reserved::If)?;
    put_test(page, test)?;
    page.word(Reserved::Use)?;
    put_expression(page, first)?;
    page.word(Reserved::Else)?;
    put_expression(page, second)
}
