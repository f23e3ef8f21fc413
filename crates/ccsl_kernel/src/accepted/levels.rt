//! How high groups of expressions stand on one another.

ghost use Rattle.std.specs.Prelude.{◌≡◌, ◌≤◌, ◌↔◌, ◌<◌, IsTrue, All, [], map, IfOk};
ghost use Rattle.ccsl_kernel.specs.Plain.{plain_expr, plain_group, plain_body};
ghost use Rattle.ccsl_kernel.specs.Cells.{greatest};
ghost use Rattle.ccsl_kernel.specs.Accepted.{height, group_levels};

use crate::expr::Expr;
use crate::group::{Body, Group};
use ccsl_base::{MAX_CALL_LEVELS, Memory};
use std::alloc::Global;

/// The highest level of the groups that an expression calls.
fn height(e: &Expr, levels: &[u32]) -> u32
    ensures { result ≡ height levels.now (plain_expr e.now) }
{
    match e {
        Expr::Name(_) | Expr::Never => 0,
        Expr::Call { group, .. } => levels.get(*group as usize).copied().unwrap_or(0),
        Expr::Delay(a, _) | Expr::Await(a, _) | Expr::Filter(a, _) => height(a, levels),
        Expr::Binary(_, a, d) | Expr::Delayed(a, _, d) | Expr::If(_, a, d) => {
            height(a, levels).max(height(d, levels))
        }
    }
}

/// The highest level of the groups that the members of a group call.
fn members_height(members: &[Body], levels: &[u32]) -> u32
    ensures { result ≡ greatest (map (λ b. height levels.now b.root) (map plain_body members.now)) }
{
    let mut highest: u32 = 0;
    for member in members {
        highest = highest.max(height(&member.root, levels));
    }
    highest
}

/// Whether no group stands on a level above the limit.
pub fn are_low(alloc: Global, groups: &[Group]) -> Result<bool, Memory>
    ensures { IfOk result (λ low. IsTrue low ↔
        All (λ n. n ≤ MAX_CALL_LEVELS) (group_levels [] (map plain_group groups.now))) }
{
    let mut levels = Vec::new(alloc);
    for group in groups {
        let level = members_height(group.members.members(), levels.as_slice());
        if level >= MAX_CALL_LEVELS {
            return Ok(false);
        }
        levels.push(level + 1)?;
    }
    Ok(true)
}
