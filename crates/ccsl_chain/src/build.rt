//! The making of a chain.

ghost use Rattle.std.specs.Prelude.{◌≡◌, ◌-◌, ◌*◌, ◌<◌, ◌≤◌, map, IfOk};
ghost use Rattle.ccsl_base.specs.declared.limits.TheConstants.{MIN_TRIAL_CLOCKS, MAX_TRIAL_CLOCKS};
ghost use Rattle.ccsl_kernel.specs.Plain.{plain_group, plain_system};
ghost use Rattle.ccsl_library.specs.Members.{library_groups};
ghost use Rattle.ccsl_chain.specs.Chain.{chain};

use crate::items::{constraints, definitions};
use crate::naming::names;
use ccsl_ast::File;
use ccsl_base::{Memory, Seq};
use ccsl_expand::expand;
use ccsl_kernel::{Group, Parts, System};
use ccsl_library::library;
use std::alloc::Global;

// The groups of the library: those of a file without lines behind it.
fn groups(alloc: Global) -> Result<Seq<Group>, Memory>
    ensures { IfOk result (λ groups. map plain_group groups ≡ library_groups) }
{
    let library = library(alloc)?;
    let file = File {
        version: 1,
        definitions: Seq::new(Vec::new(alloc)),
        lines: Seq::new(Vec::new(alloc)),
    };
    let expanded = expand(alloc, &library, &file);
    drop(library);
    drop(file);
    Ok(expanded?.groups)
}

fn parts(alloc: Global, clocks: u32) -> Result<Parts, Memory>
    requires least { 0 < clocks }
    requires most { clocks ≤ MAX_TRIAL_CLOCKS }
    ensures { IfOk result (λ parts. plain_system parts ≡ chain clocks) }
{
    // the names last, so that nothing fails while they are held
    Ok(Parts {
        declared: clocks,
        written: clocks,
        groups: groups(alloc)?,
        definitions: Seq::new(definitions(alloc, clocks - 1)?),
        constraints: Seq::new(constraints(alloc, clocks)?),
        names: names(alloc, clocks)?,
        words: Seq::new(Vec::new(alloc)),
    })
}

/// The system of so many clocks, named `c0`, `c1` and so on, each of which alternates with the next one.
pub fn chain(alloc: Global, clocks: u32) -> Result<System, Memory>
    requires least { MIN_TRIAL_CLOCKS ≤ clocks }
    requires most { clocks ≤ MAX_TRIAL_CLOCKS }
    ensures { IfOk result (λ system. system ≡ chain clocks) }
{
    // for each call two cells for its hidden clock, and two for each of its two constraints
    let cells = 6 * (clocks - 1);
    Ok(System::assemble(parts(alloc, clocks)?, cells))
}
