//! How many cells the states of a system have. A count that doesn't fit 32 bits is taken as the greatest number that
//! does.

ghost use Rattle.std.specs.Prelude.{◌≡◌, [], map, length, sum, IfOk};
ghost use Rattle.ccsl_kernel.specs.Plain.{plain_expr, plain_group, plain_body, plain_system};
ghost use Rattle.ccsl_kernel.specs.Cells.{saturated, greatest, cells_of_two, cells_in, group_cells, groups_cells, cells};

use crate::expr::{Expr, ExprOp};
use crate::group::{Body, Group};
use crate::parts::Parts;
use ccsl_base::Memory;
use std::alloc::Global;

/// A count, or the greatest number of 32 bits where it is above it.
fn saturated(count: u64) -> u32
    ensures { result ≡ saturated count }
{
    count.min(u64::from(u32::MAX)) as u32
}

/// The cells of an expression, from those of a call to each earlier group.
fn cells_in(e: &Expr, earlier: &[u32]) -> u32
    ensures { result ≡ saturated (cells_in earlier.now (plain_expr e.now)) }
{
    match e {
        Expr::Name(_) | Expr::Never => 1,
        Expr::Call { group, .. } => { earlier.get(*group as usize).copied().unwrap_or(0) }
        Expr::Binary(op, a, d) => cells_of_two(*op, cells_in(a, earlier), cells_in(d, earlier)),
        Expr::Delay(a, _) | Expr::Await(a, _) | Expr::Filter(a, _) => {
            saturated(1 + u64::from(cells_in(a, earlier)))
        }
        Expr::Delayed(a, m, d) => {
            let sides = u64::from(cells_in(a, earlier)) + u64::from(cells_in(d, earlier));
            saturated(2 + u64::from(*m).div_ceil(64) + sides)
        }
        Expr::If(_, a, d) => saturated(
            1 + u64::from(cells_in(a, earlier).max(cells_in(d, earlier))),
        ),
    }
}

/// The cells of an operator, from those of its operands.
fn cells_of_two(op: ExprOp, left: u32, right: u32) -> u32
    ensures { result ≡ saturated (cells_of_two op left right) }
{
    let sides = u64::from(left) + u64::from(right);
    match op {
        ExprOp::Inf | ExprOp::Sup => saturated(2 + sides),
        ExprOp::Then => saturated(1 + u64::from(left.max(right))),
        _ => saturated(1 + sides),
    }
}

/// The greatest number of parameters of the members of a group.
fn most_params(members: &[Body]) -> u32
    ensures { result ≡
        saturated (greatest (map (λ b. length b.params) (map plain_body members.now))) }
{
    let mut most: u32 = 0;
    for member in members {
        most = most.max(saturated(member.params.members().len() as u64));
    }
    most
}

/// The greatest count of the bodies of a group.
fn most_cells(members: &[Body], earlier: &[u32]) -> u32
    ensures { result ≡
        saturated (greatest (map (λ b. cells_in earlier.now b.root) (map plain_body members.now))) }
{
    let mut most: u32 = 0;
    for member in members {
        most = most.max(cells_in(&member.root, earlier));
    }
    most
}

/// The cells of a call to a group.
fn group_cells(group: &Group, earlier: &[u32]) -> u32
    ensures { result ≡ saturated (group_cells earlier.now (plain_group group.now)) }
{
    let members = group.members.members();
    saturated(1 + u64::from(most_params(members)) + u64::from(most_cells(members, earlier)))
}

/// The cells of a call to each group.
pub fn groups_cells(alloc: Global, groups: &[Group]) -> Result<Vec<u32>, Memory>
    ensures { IfOk result (λ v. v.items ≡
        map saturated (groups_cells [] (map plain_group groups.now))) }
{
    let mut earlier = Vec::new(alloc);
    for group in groups {
        earlier.push(group_cells(group, earlier.as_slice()))?;
    }
    Ok(earlier)
}

/// The cells of all definitions.
fn definitions_cells(definitions: &[Expr], earlier: &[u32]) -> u32
    ensures { result ≡
        saturated (sum (map (cells_in earlier.now) (map plain_expr definitions.now))) }
{
    let mut total: u32 = 0;
    for definition in definitions {
        total = saturated(u64::from(total) + u64::from(cells_in(definition, earlier)));
    }
    total
}

impl Parts {
    /// The cells of the states of a system of these parts, or 4,294,967,295 where there are more.
    pub fn cells(&self, alloc: Global) -> Result<u32, Memory>
        ensures { IfOk result (λ n. n ≡ saturated (cells (plain_system self.now))) }
    {
        let earlier = groups_cells(alloc, self.groups.members())?;
        let definitions = definitions_cells(self.definitions.members(), earlier.as_slice());
        let constraints = saturated(self.constraints.members().len() as u64);
        Ok(saturated(u64::from(definitions) + 2 * u64::from(constraints)))
    }
}
