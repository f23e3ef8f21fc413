//! The cells of expressions and groups as their text has them. What names stand for doesn't change them: a call has
//! those of its group, and `delayed` has its number in the text. Counts stop at 4,294,967,295.

ghost use Rattle.std.specs.Prelude.{◌≡◌, length, map, OnOk};
ghost use Rattle.ccsl_ast.specs.Plain.{plain, plain_member, plain_definition};
ghost use Rattle.ccsl_kernel.specs.Cells.{saturated, greatest, cells_of_two};
ghost use Rattle.ccsl_rules.specs.Spaces.{look};
ghost use Rattle.ccsl_rules.specs.Resolved.{resolve_op};
ghost use Rattle.ccsl_spaces.specs.Callees.{seen_call};
ghost use Rattle.ccsl_elaborate.specs.TreeCells.{call_cells, tree_cells, members_cells, groups_before};

use ccsl_ast::{BinaryOp, Definition, Member, Spot, Tree};
use ccsl_base::Memory;
use ccsl_spaces::{Callee, Role, Space, find_call};

// The cells of a call. A name that is no expression's calls nothing.
fn call_cells(calls: &Space<'_, Callee<'_>>, groups: &[u32], name: &Spot) -> u32
    ensures { result ≡ saturated
        (call_cells groups.now (look name.now.name (map seen_call calls.now))) }
{
    match find_call(calls, name.name.bytes()) {
        None => 1,
        Some(found) => match found.what.role {
            Role::Relation => 1,
            Role::Member { group, .. } => groups.get(group).copied().unwrap_or(0),
        },
    }
}

// The cells of an operator, from those of its operands.
fn cells_of_two(op: BinaryOp, left: u32, right: u32) -> u32
    ensures { result ≡ saturated (cells_of_two (resolve_op op) left right) }
{
    let sides = left.saturating_add(right);
    match op {
        BinaryOp::Inf | BinaryOp::Sup => sides.saturating_add(2),
        BinaryOp::Then => left.max(right).saturating_add(1),
        _ => sides.saturating_add(1),
    }
}

/// The cells of an expression, from those of a call to each group.
pub fn tree_cells(calls: &Space<'_, Callee<'_>>, groups: &[u32], tree: &Tree) -> u32
    ensures { result ≡ saturated
        (tree_cells (map seen_call calls.now) groups.now (plain tree.now)) }
{
    match tree {
        Tree::Name(_) | Tree::Never => 1,
        Tree::Call(name, _) => call_cells(calls, groups, name),
        Tree::Binary(op, a, d) => cells_of_two(
            *op,
            tree_cells(calls, groups, a),
            tree_cells(calls, groups, d),
        ),
        Tree::Delay(a, _) | Tree::Await(a, _) | Tree::Filter(a, _) => {
            tree_cells(calls, groups, a).saturating_add(1)
        }
        Tree::Delayed(a, _, m, d) => {
            let sides = tree_cells(calls, groups, a).saturating_add(tree_cells(calls, groups, d));
            sides.saturating_add(m.div_ceil(64) + 2)
        }
        Tree::If(_, a, d) => {
            let most = tree_cells(calls, groups, a).max(tree_cells(calls, groups, d));
            most.saturating_add(1)
        }
    }
}

// The greatest number of parameters of the members of a group.
fn most_params(members: &[Member]) -> u32
    ensures { result ≡
        saturated (greatest (map (λ m. length m.params) (map plain_member members.now))) }
{
    let mut most: u32 = 0;
    for member in members {
        let count = u32::try_from(member.params.members().len()).unwrap_or(u32::MAX);
        most = most.max(count);
    }
    most
}

// The greatest count of the bodies of a group.
fn most_cells(calls: &Space<'_, Callee<'_>>, groups: &[u32], members: &[Member]) -> u32
    ensures { result ≡ saturated
        (greatest (map (λ m. tree_cells (map seen_call calls.now) groups.now m.body)
        (map plain_member members.now))) }
{
    let mut most: u32 = 0;
    for member in members {
        most = most.max(tree_cells(calls, groups, &member.body));
    }
    most
}

// The cells of a call to a group, from those of a call to each group before it.
fn group_cells(calls: &Space<'_, Callee<'_>>, groups: &[u32], members: &[Member]) -> u32
    ensures { result ≡
        members_cells (map seen_call calls.now) groups.now (map plain_member members.now) }
{
    let cells = most_cells(calls, groups, members);
    most_params(members).saturating_add(cells).saturating_add(1)
}

/// Adds the cells of a call to each group among definitions, behind those of the groups before.
pub fn add_groups(
    calls: &Space<'_, Callee<'_>>,
    groups: &mut Vec<u32>,
    definitions: &[Definition],
) -> Result<(), Memory>
    ensures { OnOk result (groups.new.items ≡
        groups_before (map seen_call calls.now) groups.old.items
        (map plain_definition definitions.now)) }
{
    for definition in definitions {
        if let Definition::Group(members) = definition {
            let cells = group_cells(calls, groups.as_slice(), members.members());
            groups.push(cells)?;
        }
    }
    Ok(())
}
