//! The space of relations and expressions.

ghost use Rattle.std.specs.Prelude.{◌≡◌, ◌+◌, ◌^◌, ◌<◌, ◌≤◌, [], ◌∷◌, ◌++◌, IfOk, OnOk, length, map};
ghost use Rattle.ccsl_ast.specs.Plain.{plain_member, plain_definition};
ghost use Rattle.std.specs.Option.{option_map};
ghost use Rattle.ccsl_rules.specs.Spaces.{look, parts_space, calls_space};
ghost use Rattle.ccsl_spaces.specs.Knowns.{known};
ghost use Rattle.ccsl_spaces.specs.Callees.{seen_call, group_after, groups_after};

use crate::callee::{Callee, Role};
use crate::declaration::Declaration;
use crate::space::Space;
use ccsl_ast::{Definition, Member};
use ccsl_base::Memory;
use std::alloc::Global;

fn add_members<'a>(
    space: &mut Space<'a, Callee<'a>>,
    block: usize,
    group: usize,
    members: &'a [Member],
) -> Result<(), Memory>
    requires { block + 1 < 2 ^ 64 }
    ensures { OnOk result (map seen_call space.new ≡
        map seen_call space.old ++ parts_space block group 0 (map plain_member members.now)) }
{
    for (number, member) in members.iter().enumerate() {
        let callee = Callee {
            role: Role::Member { group, number },
            block,
            params: member.params.members(),
        };
        space.add(&member.name, block + 1, callee)?;
    }
    Ok(())
}

/// Adds what a definition declares, and answers the number of the next group.
fn add_definition<'a>(
    space: &mut Space<'a, Callee<'a>>,
    block: usize,
    group: usize,
    definition: &'a Definition,
) -> Result<usize, Memory>
    requires block { block + 1 < 2 ^ 64 }
    requires group { group ≤ block }
    ensures added { OnOk result (map seen_call space.new ≡
        map seen_call space.old ++ calls_space block group (plain_definition definition.now ∷ [])) }
    ensures next { IfOk result (λ next. next
        ≡ group_after group (plain_definition definition.now)) }
{
    match definition {
        Definition::Relation { name, params, .. } => {
            let callee = Callee {
                role: Role::Relation,
                block,
                params: params.members(),
            };
            space.add(name, block + 1, callee)?;
            Ok(group)
        }
        Definition::Group(members) => {
            add_members(space, block, group, members.members())?;
            Ok(group + 1)
        }
    }
}

/// Adds what definitions declare, from definition number `block` and group number `group` on, and answers the number of
/// the next group.
pub fn add_definitions<'a>(
    space: &mut Space<'a, Callee<'a>>,
    block: usize,
    group: usize,
    definitions: &'a [Definition],
) -> Result<usize, Memory>
    requires block { block + length definitions.now < 2 ^ 64 }
    requires group { group ≤ block }
    ensures added { OnOk result (map seen_call space.new ≡
        map seen_call space.old ++ calls_space block group (map plain_definition definitions.now)) }
    ensures next { IfOk result (λ next. next
        ≡ groups_after group (map plain_definition definitions.now)) }
    ensures few { IfOk result (λ next. next ≤ block + length definitions.now) }
{
    let mut next = group;
    for (i, definition) in definitions.iter().enumerate() {
        next = add_definition(space, block + i, next, definition)?;
    }
    Ok(next)
}

/// The space of the relations and expressions of a library and then of a file.
pub fn calls_space<'a>(
    alloc: Global,
    library: &'a [Definition],
    file: &'a [Definition],
) -> Result<Space<'a, Callee<'a>>, Memory>
    ensures { IfOk result (λ space. map seen_call space ≡
        calls_space 0 0 (map plain_definition library.now ++ map plain_definition file.now)) }
{
    let mut space = Space::new(alloc);
    let groups = add_definitions(&mut space, 0, 0, library)?;
    add_definitions(&mut space, library.len(), groups, file)?;
    Ok(space)
}

/// The relation or expression that a name stands for.
pub fn find_call<'s, 'a>(
    calls: &'s Space<'a, Callee<'a>>,
    name: &[u8],
) -> Option<&'s Declaration<'a, Callee<'a>>>
    ensures { option_map (λ d. seen_call (known d.now)) result
        ≡ look name.now (map seen_call calls.now) }
{
    calls.find(name)
}
