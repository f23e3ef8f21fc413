//! Constraints between two clocks.

use ccsl_base::Text;

/// A relation between clocks (CCSL, MARTE Annex C). `PrecedesWithin(m)` is precedence in which the left clock is at
/// most `m` ticks ahead, a form of this project's own.
#[derive(Clone, Copy)]
pub enum RelationKind {
    Subclock,
    Coincides,
    Excludes,
    Precedes,
    PrecedesWeakly,
    PrecedesWithin(u32),
}

/// A relation that holds between two clocks at every step. The label is the path of the relation call that it comes
/// from, and empty where it stands in the system itself.
#[derive(Drop)]
pub struct Constraint {
    pub kind: RelationKind,
    pub left: u32,
    pub right: u32,
    pub label: Text,
}
