//! Which calls an expression may make.

ghost use Rattle.std.specs.Prelude.{◌≡◌, ◌↔◌, IsTrue};
ghost use Rattle.ccsl_kernel.specs.Plain.{plain_expr};
ghost use Rattle.ccsl_kernel.specs.Guarded.{Allowed};

use crate::expr::Expr;
use crate::position::Position;
use ccsl_base::MAX_DELAY;

/// Whether an expression at a place of a body of group number `group` calls earlier groups alone, and its own in
/// guarded tail positions.
pub fn is_allowed(e: &Expr, group: usize, place: Position) -> bool
    ensures { IsTrue result ↔ Allowed group place (plain_expr e.now) }
{
    match e {
        Expr::Name(_) | Expr::Never => true,
        Expr::Call { group: called, .. } => {
            let called = *called as usize;
            called < group || called == group && place == Position::Guarded
        }
        Expr::Binary(op, a, d) => {
            is_allowed(a, group, Position::Inner) && is_allowed(d, group, place.right_of(*op))
        }
        Expr::Delay(a, _) | Expr::Await(a, _) | Expr::Filter(a, _) => {
            is_allowed(a, group, Position::Inner)
        }
        Expr::Delayed(a, m, d) => {
            (1..=MAX_DELAY).contains(m)
                && is_allowed(a, group, Position::Inner)
                && is_allowed(d, group, Position::Inner)
        }
        Expr::If(_, a, d) => is_allowed(a, group, place) && is_allowed(d, group, place),
    }
}
