//! What is kept of an expression from step to step: its operands, and at which steps since its birth each of them
//! ticked.

ghost use Rattle.std.specs.Prelude.{◌≡◌, ℕ, Bool, IfOk};
ghost use Rattle.ccsl_formula.specs.Plain.{plain};
ghost use Rattle.ccsl_plain.specs.Course.{now_of};
ghost use Rattle.ccsl_plain.specs.Held.{held, gone_in};

use crate::deaths::Deaths;
use crate::operator::{Binary, Connective, Unary};
use ccsl_base::Memory;
use ccsl_formula::Formula;
use ccsl_kernel::{Actual, Expr};
use ccsl_words::Word;
use std::alloc::Global;

/// The course of an expression so far. A call and a choice have none of their own, and a `then` whose left side has
/// died is its right side.
#[derive(Drop)]
pub enum Course<'s> {
    Name(u32),
    Never,
    Unary(Unary, Box<Course<'s>>, Vec<bool>),
    Binary(Binary, Box<Course<'s>>, Vec<bool>, Box<Course<'s>>, Vec<bool>),
    Then(Box<Course<'s>>, &'s Expr, Vec<Actual>),
}

impl<'s> Course<'s> {
    /// The formula at the present step.
    pub fn formula(&self, alloc: Global, words: &[Word]) -> Result<Formula, Memory>
        ensures { IfOk result (λ f. (gone : ℕ → Bool) →
            plain f ≡ (now_of gone (held words.now self.now)).formula) }
    {
        match self {
            Course::Name(x) => Ok(Formula::Var(*x)),
            Course::Never => Ok(Formula::False),
            Course::Unary(row, a, ticks) => {
                if row.is_open(words, ticks) {
                    a.formula(alloc, words)
                } else {
                    Ok(Formula::False)
                }
            }
            Course::Binary(row, a, p, d, q) => match row.connective(p, q) {
                Connective::Left => a.formula(alloc, words),
                Connective::Right => d.formula(alloc, words),
                Connective::False => Ok(Formula::False),
                Connective::Or => Ok(Formula::Or(
                    Box::new(alloc, a.formula(alloc, words)?)?,
                    Box::new(alloc, d.formula(alloc, words)?)?,
                )),
                Connective::And => Ok(Formula::And(
                    Box::new(alloc, a.formula(alloc, words)?)?,
                    Box::new(alloc, d.formula(alloc, words)?)?,
                )),
                Connective::RightAndLeft => Ok(Formula::And(
                    Box::new(alloc, d.formula(alloc, words)?)?,
                    Box::new(alloc, a.formula(alloc, words)?)?,
                )),
                Connective::AndNot => {
                    let left = Box::new(alloc, a.formula(alloc, words)?)?;
                    let right = Box::new(alloc, d.formula(alloc, words)?)?;
                    Ok(Formula::And(left, Box::new(alloc, Formula::Not(right))?))
                }
            },
            Course::Then(a, _, _) => a.formula(alloc, words),
        }
    }

    /// Whether the expression is dead at a position, by the deaths of the clocks there.
    pub fn is_dead(&self, words: &[Word], deaths: &Deaths, at: usize) -> bool
        ensures { result ≡ (now_of (gone_in deaths.now at) (held words.now self.now)).dead }
    {
        match self {
            Course::Name(x) => deaths.is_gone(at, *x),
            Course::Never => false,
            Course::Unary(row, a, ticks) => row.is_dead(words, a.is_dead(words, deaths, at), ticks),
            Course::Binary(row, a, p, d, q) => {
                let left = a.is_dead(words, deaths, at);
                row.is_dead(left, p, d.is_dead(words, deaths, at), q)
            }
            Course::Then(_, _, _) => false,
        }
    }
}
