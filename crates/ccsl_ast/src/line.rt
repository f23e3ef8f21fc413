//! The lines of a system and of a relation's body.

use crate::spot::Spot;
use crate::term::Argument;
use crate::tree::Tree;
use ccsl_base::seq::Seq;

/// A relation of the language between two clocks.
#[derive(Clone, Copy)]
pub enum Relation {
    Subclock,
    Coincides,
    Excludes,
    Precedes,
    PrecedesWeakly,
    /// The offset of the number's first digit, and the number.
    PrecedesWithin(usize, u32),
}

/// A line of a relation's body or of the system: a defined clock, a constraint, or a call of a relation.
#[derive(Drop)]
pub enum RelationLine {
    Define(Spot, Tree),
    Constraint(Spot, Relation, Spot),
    Call(Spot, Seq<Argument>),
}

/// A line of the system: declared clocks, at least one, or a line as in a relation's body.
#[derive(Drop)]
pub enum SystemLine {
    Clocks(Seq<Spot>),
    Line(RelationLine),
}
