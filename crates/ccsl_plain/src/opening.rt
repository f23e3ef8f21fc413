//! The course of an expression at its birth.

ghost use Rattle.std.specs.Prelude.{◌≡◌, ◌≤◌, suc, List, [], IfOk, map, option_map};
ghost use Rattle.ccsl_words.specs.Word.{BinaryWord};
ghost use Rattle.ccsl_kernel.specs.Plain.{plain_expr};
ghost use Rattle.ccsl_kernel.specs.Deep.{deep};
ghost use Rattle.ccsl_kernel.specs.Actuals.{value_of, word_of};
ghost use Rattle.ccsl_plain.specs.Operators.{unary_row, binary_row};
ghost use Rattle.ccsl_kernel.specs.Table.{filter_row};
ghost use Rattle.ccsl_plain.specs.Course.{CUnary, CBinary, leaf, operator_row, open_with, open_bodies};
ghost use Rattle.ccsl_plain.specs.Held.{held, IsReady};
ghost use Rattle.ccsl_kernel.specs.Fit.{ActualsFit, SuffixFits};
ghost use Rattle.ccsl_kernel.specs.Fitting.{ValuesFit, ExprFits};

use crate::course::Course;
use crate::operator::{Binary, Unary};
use ccsl_base::{MAX_LEVELS, Memory};
use ccsl_kernel::{Actual, Expr, ExprOp, Suffix, System, Value};
use ccsl_words::Word;
use std::alloc::Global;

// The row of an operator; a then has none.
fn operator_row(op: ExprOp) -> Option<Binary>
    ensures { option_map binary_row result ≡ operator_row op }
{
    match op {
        ExprOp::Union => Some(Binary::Union),
        ExprOp::Inter => Some(Binary::Inter),
        ExprOp::Minus => Some(Binary::Minus),
        ExprOp::Inf => Some(Binary::Inf),
        ExprOp::Sup => Some(Binary::Sup),
        ExprOp::Upto => Some(Binary::Upto),
        ExprOp::UptoWeakly => Some(Binary::UptoWeakly),
        ExprOp::Then => None,
        ExprOp::Sampled => Some(Binary::Sampled),
        ExprOp::SampledWeakly => Some(Binary::SampledWeakly),
    }
}

// A name: a clock, and never where a parameter is none.
fn leaf<'s>(actual: Actual) -> Course<'s>
    ensures { (words : List BinaryWord) → held words result ≡ leaf actual }
{
    match actual {
        Actual::Clock(x) => Course::Name(x),
        Actual::Number(_) | Actual::Word(_, _) => Course::Never,
    }
}

// A filter from a suffix on, which is no further than the word's end.
fn filter_row(words: &[Word], suffix: Suffix) -> Unary
    requires { SuffixFits words.now suffix }
    ensures { unary_row words.now result ≡
        filter_row (word_of words.now suffix.word) suffix.offset }
{
    let offset = match words.get(suffix.word as usize) {
        Some(word) => {
            prove!(suffix.offset <= word.len());
            suffix.offset as u32
        }
        None => 0,
    };
    Unary::Filter(suffix.word, offset)
}

// What the arguments of a call stand for.
fn all_actuals(
    alloc: Global,
    args: &[Value],
    words: &[Word],
    actuals: &[Actual],
) -> Result<Vec<Actual>, Memory>
    requires values { ValuesFit words.now args.now }
    requires actuals { ActualsFit words.now actuals.now }
    ensures values { IfOk result (λ v. v.items ≡ map (value_of words.now actuals.now) args.now) }
    ensures fit { IfOk result (λ v. ActualsFit words.now v.items) }
{
    let mut all = Vec::with_capacity(alloc, args.len())?;
    for arg in args {
        all.push(arg.actual(words, actuals))?;
    }
    Ok(all)
}

// An operator of one operand that has not ticked yet.
fn over_one<'s>(alloc: Global, row: Unary, a: Course<'s>) -> Result<Course<'s>, Memory>
    ensures { IfOk result (λ c. (words : List BinaryWord) →
        held words c ≡ CUnary (unary_row words row) (held words a.entry) []) }
{
    Ok(Course::Unary(row, Box::new(alloc, a)?, Vec::new(alloc)))
}

// An operator of two operands that have not ticked yet. The left one is boxed where it is made: to the prover, an early
// return then drops it by a single call.
fn over_two<'s>(
    alloc: Global,
    row: Binary,
    a: Box<Course<'s>>,
    d: Course<'s>,
) -> Result<Course<'s>, Memory>
    ensures { IfOk result (λ c. (words : List BinaryWord) →
        held words c ≡
        CBinary (binary_row row) (held words a.entry.value) (held words d.entry) [] []) }
{
    let d = Box::new(alloc, d)?;
    Ok(Course::Binary(row, a, Vec::new(alloc), d, Vec::new(alloc)))
}

/// The course of an expression under actual parameters, through at most `level` calls one in another.
pub fn opened<'s>(
    alloc: Global,
    system: &'s System,
    level: usize,
    e: &'s Expr,
    actuals: &[Actual],
) -> Result<Course<'s>, Memory>
    requires shallow { deep (plain_expr e.now) ≤ suc MAX_LEVELS }
    requires offsets { ExprFits system.now.words (plain_expr e.now) }
    requires actuals { ActualsFit system.now.words actuals.now }
    ensures course { IfOk result (λ c. held system.now.words c ≡
        open_with system.now (open_bodies system.now level) (plain_expr e.now) actuals.now) }
    ensures ready { IfOk result (λ c. IsReady system.now.words (held system.now.words c)) }
{
    match e {
        Expr::Name(place) => Ok(leaf(place.actual(actuals))),
        Expr::Call {
            group,
            member,
            args,
        } => {
            if level == 0 {
                return Ok(Course::Never);
            }
            match system.body(*group, *member) {
                Some(body) => {
                    let actuals = all_actuals(alloc, args.members(), system.words(), actuals)?;
                    opened(alloc, system, level - 1, &body.root, &actuals)
                }
                None => Ok(Course::Never),
            }
        }
        Expr::Never => Ok(Course::Never),
        Expr::Binary(op, a, d) => {
            let left = Box::new(alloc, opened(alloc, system, level, a, actuals)?)?;
            match operator_row(*op) {
                Some(row) => {
                    let right = opened(alloc, system, level, d, actuals)?;
                    over_two(alloc, row, left, right)
                }
                None => {
                    let values = Vec::from_slice(alloc, actuals)?;
                    Ok(Course::Then(left, d, values))
                }
            }
        }
        Expr::Delay(a, m) => {
            let row = Unary::Delay(m.number(actuals));
            over_one(alloc, row, opened(alloc, system, level, a, actuals)?)
        }
        Expr::Await(a, m) => {
            let row = Unary::Await(m.number(actuals));
            over_one(alloc, row, opened(alloc, system, level, a, actuals)?)
        }
        Expr::Filter(a, word) => {
            let row = filter_row(system.words(), word.suffix(system.words(), actuals));
            over_one(alloc, row, opened(alloc, system, level, a, actuals)?)
        }
        Expr::Delayed(a, m, d) => {
            let left = Box::new(alloc, opened(alloc, system, level, a, actuals)?)?;
            let right = opened(alloc, system, level, d, actuals)?;
            over_two(alloc, Binary::Delayed(*m), left, right)
        }
        Expr::If(test, a, d) => {
            if test.holds(system.words(), actuals) {
                opened(alloc, system, level, a, actuals)
            } else {
                opened(alloc, system, level, d, actuals)
            }
        }
    }
}
