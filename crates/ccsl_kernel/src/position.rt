//! The places of calls in a body.

ghost use Rattle.std.specs.Prelude.{◌≡◌};
ghost use Rattle.ccsl_kernel.specs.Guarded.{right_of};
ghost use Rattle.ccsl_kernel.specs.Positions.{guarded};

use crate::expr::ExprOp;

/// A place in the body of a group's member: inside an operator, in tail position, or in tail position and within the
/// right operand of a `then` in tail position.
#[derive(Clone, Copy)]
pub enum Position {
    Inner,
    Tail,
    Guarded,
}

impl Position {
    /// The place of an operator's right operand.
    pub fn right_of(self, op: ExprOp) -> Position
        ensures { result ≡ right_of op self }
    {
        match (op, self) {
            (ExprOp::Then, Position::Tail | Position::Guarded) => Position::Guarded,
            _ => Position::Inner,
        }
    }
}
