//! Sums, words, tests and arguments: the parts of a tree that hold no expression.

use crate::spot::Spot;
use ccsl_base::seq::Seq;
use ccsl_base::text::Text;

/// The sign before a primary of a sum.
#[derive(Clone, Copy)]
pub enum Sign {
    Plus,
    Minus,
}

/// A number with the offset of its first digit, or a name.
#[derive(Drop)]
pub enum Primary {
    Num(usize, u32),
    Name(Spot),
}

/// The public name of a primary. A type of the name itself stops each crate above, since antt has a module of that
/// name.
pub type Prim = Primary;

/// A sum, taken from the left.
#[derive(Drop)]
pub struct Term {
    pub first: Primary,
    pub rest: Seq<(Sign, Primary)>,
}

/// What a filter goes by. A text has the offset of its opening quote, and the bytes between the quotes.
#[derive(Drop)]
pub enum WordTerm {
    Text(usize, Text),
    Name(Spot),
    Tail(Spot),
}

/// What an `if` asks.
pub enum Test {
    Equal(Term, Term),
    Less(Term, Term),
    Head(Spot),
    Ended(Spot),
}

// By hand and not derived: to the prover, an early return then drops one by a single call.
impl Drop for Test {
    fn drop(self) {
        match self {
            Test::Equal(_left, _right) => {}
            Test::Less(_left, _right) => {}
            Test::Head(_word) => {}
            Test::Ended(_word) => {}
        }
    }
}

/// An argument of a call. A text has the offset of its opening quote, and the bytes between the quotes.
#[derive(Drop)]
pub enum Argument {
    Term(Term),
    Text(usize, Text),
    Tail(Spot),
}
