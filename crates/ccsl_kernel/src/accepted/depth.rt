//! How deep an expression is.

ghost use Rattle.std.specs.Prelude.{◌≤◌, ◌↔◌, IsTrue};
ghost use Rattle.ccsl_kernel.specs.Plain.{plain_expr};
ghost use Rattle.ccsl_kernel.specs.Accepted.{nesting, depth};

use crate::expr::Expr;

/// Whether an expression has at most a depth.
pub fn is_shallow(e: &Expr, limit: u32) -> bool
    ensures { IsTrue result ↔ (depth (plain_expr e.now) ≤ limit) }
{
    1 <= limit && is_nested(e, limit)
}

/// Whether at most so many operators and choices stand one in another. It goes no deeper than that itself.
fn is_nested(e: &Expr, limit: u32) -> bool
    ensures { IsTrue result ↔ (nesting (plain_expr e.now) ≤ limit) }
{
    match e {
        Expr::Name(_) | Expr::Call { .. } | Expr::Never => true,
        Expr::Delay(a, _) | Expr::Await(a, _) | Expr::Filter(a, _) => {
            1 <= limit && is_nested(a, limit - 1)
        }
        Expr::Binary(_, a, d) | Expr::Delayed(a, _, d) => {
            1 <= limit && is_nested(a, limit - 1) && is_nested(d, limit - 1)
        }
        Expr::If(_, a, d) => { 2 <= limit && is_nested(a, limit - 1) && is_nested(d, limit - 1) }
    }
}
