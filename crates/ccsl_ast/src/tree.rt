//! Expressions.

ghost use Rattle.std.specs.Prelude.{◌≡◌};

use crate::spot::Spot;
use crate::term::{Argument, Term, Test, WordTerm};
use ccsl_base::seq::Seq;

/// An operator between two operands; `UptoWeakly` is `upto weakly`, `Sampled` is `sampled on`, `SampledWeakly` is
/// `sampled weakly on`.
#[derive(Clone, Copy)]
pub enum BinaryOp {
    Union,
    Inter,
    Minus,
    Inf,
    Sup,
    Upto,
    UptoWeakly,
    Then,
    Sampled,
    SampledWeakly,
}

/// An expression. Parentheses leave no trace in it: `(a)` has the tree of `a`.
pub enum Tree {
    Name(Spot),
    Call(Spot, Seq<Argument>),
    Never,
    Binary(BinaryOp, Box<Tree>, Box<Tree>),
    Delay(Box<Tree>, Term),
    Await(Box<Tree>, Term),
    Filter(Box<Tree>, WordTerm),
    /// The operand, the offset of the number's first digit, the number, the base.
    Delayed(Box<Tree>, usize, u32, Box<Tree>),
    If(Test, Box<Tree>, Box<Tree>),
}

// By hand and not derived: to the prover, an early return then drops one by a single call.
impl Drop for Tree {
    #[cycle(trees)]
    fn drop(self) {
        match self {
            Tree::Name(_name) => {}
            Tree::Call(_name, _args) => {}
            Tree::Never => {}
            Tree::Binary(_, _left, _right) => {}
            Tree::Delay(_operand, _number) => {}
            Tree::Await(_operand, _number) => {}
            Tree::Filter(_operand, _word) => {}
            Tree::Delayed(_operand, _, _, _base) => {}
            Tree::If(_test, _yes, _no) => {}
        }
    }
}

impl Tree {
    ghost use Rattle.ccsl_ast.specs.Plain.{plain};
    ghost use Rattle.ccsl_ast.specs.Depth.{stands_in_parens};

    /// Whether it stands in parentheses where it is an operand: an operator does, and an `if`.
    pub fn stands_in_parens(&self) -> bool
        ensures { result ≡ stands_in_parens (plain self.now) }
    {
        !matches!(self, Tree::Name(_) | Tree::Call(_, _) | Tree::Never)
    }
}
