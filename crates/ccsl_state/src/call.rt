//! The region of a call: its member, the cells of its parameters, and the region of its body.

ghost use Rattle.std.specs.Prelude.{◌≡◌, take, IfSome, IfNone};
ghost use Rattle.ccsl_state.specs.Tree.{TNever};
ghost use Rattle.ccsl_state.specs.Regions.{call_tree};
ghost use Rattle.ccsl_state.specs.Ready.{IsCallReady, IsCallBody};

use crate::layout::Layout;
use crate::params::actuals_at;
use ccsl_kernel::{Actual, Expr};

/// The expression of a call's member, and how many parameters it has.
#[derive(Clone, Copy)]
pub struct CallBody<'s> {
    pub root: &'s Expr,
    pub count: usize,
}

/// The body in the region of a call to the group behind all that `lay` has, and what its parameters stand for.
#[inline(always)]
pub fn call_body<'s>(
    lay: &Layout<'s>,
    group: u32,
    row: &[u64],
    actuals: &mut [Actual; 8],
) -> Option<CallBody<'s>>
    requires { IsCallReady lay.now group row.now }
    ensures body { IfSome result (λ b. IsCallBody lay.now group b.root.now b.count
        (take b.count actuals.new) row.now) }
    ensures none { IfNone result (call_tree lay.now row.now ≡ TNever) }
{
    let (first, rest) = row.split_at(1);
    let body = lay.system.body(group, (first[0] % (1 << 32)) as u32)?;
    let count = body.params.members().len();
    let (cells, _) = rest.split_at(count);
    let (params, _) = actuals.split_at_mut(count);
    actuals_at(lay.system.words(), cells, params);
    Some(CallBody {
        root: &body.root,
        count,
    })
}
