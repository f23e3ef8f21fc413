//! Definitions, and the fault of a whole file.
#![tactic(auto, using(crate::proofs::Least::the_least))]

ghost use Rattle.std.specs.Prelude.{◌≡◌, ◌+◌, ◌^◌, ◌<◌, ◌≤◌, ◌++◌, IfOk, length, map, flat_map};
ghost use Rattle.ccsl_ast.specs.Plain.{plain_definition, plain_sline};
ghost use Rattle.ccsl_ast.specs.Files.{plain_file};
ghost use Rattle.ccsl_rules.specs.Faults.{least};
ghost use Rattle.ccsl_rules.specs.Spaces.{calls_space};
ghost use Rattle.ccsl_rules.specs.Blocks as rules;
ghost use Rattle.ccsl_rules.specs.Blocks.{heads, block_faults, blocks_faults};
ghost use Rattle.ccsl_spaces.specs.Callees.{seen_call};
ghost use Rattle.ccsl_faults.specs.Levels.{seen_heights};
ghost use Rattle.ccsl_faults.specs.Parts.{parts_faults, faults_of};

use crate::bodies::{members_faults, relation_body_faults, system_faults};
use crate::declarations::repeated;
use crate::fault::{Fault, earlier};
use crate::levels::{Heights, all_levels};
use crate::scene::Home;
use ccsl_ast::{Definition, File, SystemLine};
use ccsl_base::Memory;
use ccsl_spaces::{Callee, Space, add_definitions};
use std::alloc::Global;

/// A definition, by its number.
fn definition_faults<'a>(
    alloc: Global,
    calls: &Space<'a, Callee<'a>>,
    heights: &Heights,
    number: usize,
    definition: &'a Definition,
) -> Result<Option<Fault>, Memory>
    requires groups { number ≤ length heights.now.groups.items }
    requires relations { number ≤ length heights.now.relations.items }
    ensures { IfOk result (λ fault. fault ≡ least (block_faults (map seen_call calls.now)
        (seen_heights heights.now) number (plain_definition definition.now))) }
{
    match definition {
        Definition::Relation { params, lines, .. } => {
            let home = Home {
                alloc,
                calls,
                number,
                levels: &heights.relations[..number],
            };
            relation_body_faults(&home, params.members(), lines.members())
        }
        Definition::Group(members) => {
            let home = Home {
                alloc,
                calls,
                number,
                levels: &heights.groups[..number],
            };
            members_faults(&home, members.members())
        }
    }
}

/// Definitions, from a number on.
fn definitions_faults<'a>(
    alloc: Global,
    calls: &Space<'a, Callee<'a>>,
    heights: &Heights,
    first: usize,
    definitions: &'a [Definition],
) -> Result<Option<Fault>, Memory>
    requires groups { first + length definitions.now ≤ length heights.now.groups.items }
    requires relations { first + length definitions.now ≤ length heights.now.relations.items }
    ensures { IfOk result (λ fault. fault ≡ least (blocks_faults (map seen_call calls.now)
        (seen_heights heights.now) first (map plain_definition definitions.now))) }
{
    let mut worst = None;
    for (i, definition) in definitions.iter().enumerate() {
        let found = definition_faults(alloc, calls, heights, first + i, definition)?;
        worst = earlier(worst, found);
    }
    Ok(worst)
}

/// The space of the relations and expressions of a library and then of a file, and how many of its names are the
/// library's.
#[derive(Drop)]
struct Calls<'a> {
    space: Space<'a, Callee<'a>>,
    of_library: usize,
}

fn all_calls<'a>(
    alloc: Global,
    library: &'a [Definition],
    file: &'a [Definition],
) -> Result<Calls<'a>, Memory>
    ensures space { IfOk result (λ c. map seen_call c.space ≡
        calls_space 0 0 (map plain_definition library.now ++ map plain_definition file.now)) }
    ensures library { IfOk result (λ c. c.of_library ≡
        length (flat_map heads (map plain_definition library.now))) }
    ensures within { IfOk result (λ c. c.of_library ≤ length c.space) }
{
    let mut space = Space::new(alloc);
    let groups = add_definitions(&mut space, 0, 0, library)?;
    let of_library = space.declared().len();
    add_definitions(&mut space, library.len(), groups, file)?;
    Ok(Calls { space, of_library })
}

/// The names, the definitions and the lines of a file, whose first definition has the number `first`.
fn parts_faults<'a>(
    alloc: Global,
    calls: &Calls<'a>,
    heights: &Heights,
    first: usize,
    own: &'a [Definition],
    lines: &'a [SystemLine],
) -> Result<Option<Fault>, Memory>
    requires names { calls.now.of_library ≤ length calls.now.space }
    requires room { first + length own.now < 2 ^ 64 }
    requires groups { first + length own.now ≤ length heights.now.groups.items }
    requires relations { first + length own.now ≤ length heights.now.relations.items }
    ensures { IfOk result (λ fault. fault
        ≡ least (parts_faults (map seen_call calls.now.space) (seen_heights heights.now)
        calls.now.of_library first (map plain_definition own.now) (map plain_sline lines.now))) }
{
    let declared = repeated(&calls.space, calls.of_library);
    let used = definitions_faults(alloc, &calls.space, heights, first, own)?;
    let home = Home {
        alloc,
        calls: &calls.space,
        number: first + own.len(),
        levels: &[],
    };
    let system = system_faults(&home, lines)?;
    Ok(earlier(earlier(declared, used), system))
}

fn least_fault<'a>(
    alloc: Global,
    library: &'a [Definition],
    own: &'a [Definition],
    lines: &'a [SystemLine],
) -> Result<Option<Fault>, Memory>
    ensures { IfOk result (λ fault. fault ≡ least (faults_of
        (map plain_definition library.now) (map plain_definition own.now)
        (map plain_sline lines.now))) }
{
    let calls = all_calls(alloc, library, own)?;
    let heights = all_levels(alloc, &calls.space, library, own)?;
    parts_faults(alloc, &calls, &heights, library.len(), own, lines)
}

/// The fault of a file behind a library, if it has any: of all faults the one with the least place, and at one place
/// the first in the order of [`Cause`](crate::Cause). The library's own uses and declarations are not looked at.
pub fn first_fault(alloc: Global, file: &File, library: &File) -> Result<Option<Fault>, Memory>
    ensures { IfOk result (λ fault. fault
        ≡ rules.first_fault (plain_file library.now) (plain_file file.now)) }
{
    least_fault(
        alloc,
        library.definitions.members(),
        file.definitions.members(),
        file.lines.members(),
    )
}
