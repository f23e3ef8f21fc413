//! Tail calls.

ghost use Rattle.std.specs.Prelude.{◌≡◌, ◌<◌, false, true, length, IfSome, None};
ghost use Rattle.ccsl_kernel.specs.Plain.{plain_expr};
ghost use Rattle.ccsl_state.specs.Standing.{is_own};
ghost use Rattle.ccsl_state.specs.Moves.{IsTail};
ghost use Rattle.ccsl_state.specs.Regions.{newborn, MayStand, WordsFit, ParamsFit};

use crate::layout::Layout;
use crate::moved::TailCall;
use ccsl_kernel::{Actual, Expr};

/// The call of the own group that an expression comes to by its choices.
pub fn own_call<'s>(lay: &Layout<'s>, e: &'s Expr, actuals: &[Actual]) -> Option<TailCall<'s>>
    requires offsets { WordsFit lay.now e.now }
    requires stands { MayStand lay.now false e.now }
    requires actuals { ParamsFit lay.now actuals.now }
    ensures none { result ≡ None → is_own lay.now.system.now.words (length lay.now.earlier.now)
        (plain_expr e.now) actuals.now ≡ false }
    ensures call { IfSome result (λ call. IsTail lay.now.system.now
        (length lay.now.earlier.now) actuals.now (newborn lay.now e.now actuals.now) call) }
    ensures inner { MayStand lay.now true e.now → result ≡ None }
{
    match e {
        Expr::Call {
            group,
            member,
            args,
        } => {
            if (*group as usize) < lay.earlier.len() {
                None
            } else {
                Some(TailCall {
                    member: *member,
                    args: args.members(),
                })
            }
        }
        Expr::If(test, a, d) => {
            if test.holds(lay.system.words(), actuals) {
                own_call(lay, a, actuals)
            } else {
                own_call(lay, d, actuals)
            }
        }
        _ => None,
    }
}
