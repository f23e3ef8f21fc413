//! The expressions of clocks, with names resolved to numbers.

use ccsl_base::Seq;

/// A clock, or a clock parameter.
#[derive(Clone, Copy)]
pub enum Place {
    Clock(u32),
    Param(u32),
}

/// A number, or a number parameter.
#[derive(Clone, Copy)]
pub enum NumPrim {
    Num(u32),
    Param(u32),
}

/// How a number of a sum is taken.
#[derive(Clone, Copy)]
pub enum NumSign {
    Plus,
    Minus,
}

/// A sum of numbers, taken from the left. Each partial value is cut at 0 and at 4,294,967,295.
#[derive(Drop)]
pub struct NumTerm {
    pub first: NumPrim,
    pub rest: Seq<(NumSign, NumPrim)>,
}

/// A word of the system's table with an offset, a word parameter, or the tail of one.
#[derive(Clone, Copy)]
pub enum WordPlace {
    Word(u32, u64),
    Param(u32),
    Tail(u32),
}

/// An argument of a call.
#[derive(Drop)]
pub enum Value {
    Clock(Place),
    Number(NumTerm),
    Word(WordPlace),
}

/// The test of a choice. `Head` holds where the letter at the word's offset is 1, `Ended` where the offset is the
/// end of a finite word.
#[derive(Drop)]
pub enum ExprTest {
    Equal(NumTerm, NumTerm),
    Less(NumTerm, NumTerm),
    Head(WordPlace),
    Ended(WordPlace),
}

/// An operator between two expressions.
#[derive(Clone, Copy)]
pub enum ExprOp {
    Union,
    Inter,
    Minus,
    Inf,
    Sup,
    Upto,
    UptoWeakly,
    Then,
    Sampled,
    SampledWeakly,
}

/// An expression: which clock it defines, from its birth on (CCSL, MARTE Annex C; in outline INRIA RR-6925).
pub enum Expr {
    Name(Place),
    Call {
        group: u32,
        member: u32,
        args: Seq<Value>,
    },
    Never,
    Binary(ExprOp, Box<Expr>, Box<Expr>),
    Delay(Box<Expr>, NumTerm),
    Await(Box<Expr>, NumTerm),
    Filter(Box<Expr>, WordPlace),
    Delayed(Box<Expr>, u32, Box<Expr>),
    If(ExprTest, Box<Expr>, Box<Expr>),
}

// By hand and not derived: to the prover, an early return then drops one by a single call.
impl Drop for Expr {
    #[cycle(expressions)]
    fn drop(self) {
        match self {
            Expr::Name(_) => {}
            Expr::Call {
                group: _,
                member: _,
                args: _args,
            } => {}
            Expr::Never => {}
            Expr::Binary(_, _left, _right) => {}
            Expr::Delay(_operand, _number) => {}
            Expr::Await(_operand, _number) => {}
            Expr::Filter(_operand, _) => {}
            Expr::Delayed(_operand, _, _base) => {}
            Expr::If(_test, _yes, _no) => {}
        }
    }
}
