//! The totals of what a file expands to, counted definition by definition before anything is expanded: a nest of calls
//! may stand for more than memory holds. Sums stop at 4,294,967,295.

ghost use Rattle.std.specs.Prelude.{◌≡◌, [], length, map, flat_map, IfOk, OnOk};
ghost use Rattle.ccsl_ast.specs.Trees.{SLineOf};
ghost use Rattle.ccsl_ast.specs.Plain.{plain, plain_line, plain_sline, plain_definition};
ghost use Rattle.ccsl_ast.specs.Files.{plain_file};
ghost use Rattle.ccsl_kernel.specs.Cells.{saturated, cells};
ghost use Rattle.ccsl_rules.specs.Expansion.{declared_names, expand};
ghost use Rattle.ccsl_rules.specs.Counts.{cut, count_of, line_count, entry_count, body_count, block_count, counts, count_behind};
ghost use Rattle.ccsl_spaces.specs.Callees.{seen_call};
ghost use Rattle.ccsl_elaborate.specs.TreeCells.{groups_before};
ghost use Rattle.ccsl_elaborate.specs.Weighed.{definition_weight, constraint_weight, weights_of, calls_of};

use crate::cells::{add_groups, tree_cells};
use ccsl_ast::{Definition, File, RelationLine, Spot, SystemLine, Tree};
use ccsl_base::Memory;
use ccsl_rules::laws::counts_are_lengths;
use ccsl_spaces::{Callee, Space, calls_space, find_call};
use std::alloc::Global;

/// What is counted; the cells, from those of a call to each group.
#[derive(Clone, Copy)]
pub enum Total<'a> {
    Clocks,
    Constraints,
    Cells(&'a [u32]),
}

fn definition_weight(total: Total<'_>, calls: &Space<'_, Callee<'_>>, tree: &Tree) -> u32
    ensures { result ≡ cut
        (definition_weight (map seen_call calls.now) total.entry (plain tree.now)) }
{
    match total {
        Total::Clocks => 1,
        Total::Constraints => 0,
        Total::Cells(groups) => tree_cells(calls, groups, tree),
    }
}

fn constraint_weight(total: Total<'_>) -> u32
    ensures { result ≡ constraint_weight total.entry }
{
    match total {
        Total::Clocks => 0,
        Total::Constraints => 1,
        Total::Cells(_) => 2,
    }
}

// The weight of what a called name stands for, among those of the definitions before.
fn call_weight(calls: &Space<'_, Callee<'_>>, weighed: &[u32], name: &Spot) -> u32
    ensures { result ≡ count_of (map seen_call calls.now) weighed.now name.now.name }
{
    match find_call(calls, name.name.bytes()) {
        None => 0,
        Some(found) => weighed.get(found.what.block).copied().unwrap_or(0),
    }
}

fn line_weight(
    total: Total<'_>,
    calls: &Space<'_, Callee<'_>>,
    weighed: &[u32],
    line: &RelationLine,
) -> u32
    ensures { let known = map seen_call calls.now in
        result ≡ line_count (weights_of known total.entry) known weighed.now (plain_line line.now) }
{
    match line {
        RelationLine::Define(_, tree) => definition_weight(total, calls, tree),
        RelationLine::Constraint(_, _, _) => constraint_weight(total),
        RelationLine::Call(name, _) => call_weight(calls, weighed, name),
    }
}

fn body_weight(
    total: Total<'_>,
    calls: &Space<'_, Callee<'_>>,
    weighed: &[u32],
    lines: &[RelationLine],
) -> u32
    ensures { let known = map seen_call calls.now in
        result ≡ body_count (weights_of known total.entry) known weighed.now
        (map SLineOf (map plain_line lines.now)) }
{
    let mut sum: u32 = 0;
    for line in lines {
        sum = sum.saturating_add(line_weight(total, calls, weighed, line));
    }
    sum
}

fn block_weight(
    total: Total<'_>,
    calls: &Space<'_, Callee<'_>>,
    weighed: &[u32],
    definition: &Definition,
) -> u32
    ensures { let known = map seen_call calls.now in
        result ≡ block_count (weights_of known total.entry) known weighed.now
        (plain_definition definition.now) }
{
    match definition {
        Definition::Relation { lines, .. } => body_weight(total, calls, weighed, lines.members()),
        Definition::Group(_) => 0,
    }
}

fn weigh_definitions(
    total: Total<'_>,
    calls: &Space<'_, Callee<'_>>,
    weighed: &mut Vec<u32>,
    definitions: &[Definition],
) -> Result<(), Memory>
    ensures { let known = map seen_call calls.now in
        OnOk result (weighed.new.items ≡
        counts (weights_of known total.entry) known weighed.old.items
        (map plain_definition definitions.now)) }
{
    for definition in definitions {
        let weight = block_weight(total, calls, weighed, definition);
        weighed.push(weight)?;
    }
    Ok(())
}

fn entry_weight(
    total: Total<'_>,
    calls: &Space<'_, Callee<'_>>,
    weighed: &[u32],
    line: &SystemLine,
) -> u32
    ensures { let known = map seen_call calls.now in
        result ≡ entry_count (weights_of known total.entry) known
        weighed.now (plain_sline line.now) }
{
    match line {
        SystemLine::Clocks(_) => 0,
        SystemLine::Line(line) => line_weight(total, calls, weighed, line),
    }
}

fn system_weight(
    total: Total<'_>,
    calls: &Space<'_, Callee<'_>>,
    weighed: &[u32],
    lines: &[SystemLine],
) -> u32
    ensures { let known = map seen_call calls.now in
        result ≡ body_count (weights_of known total.entry) known weighed.now
        (map plain_sline lines.now) }
{
    let mut sum: u32 = 0;
    for line in lines {
        sum = sum.saturating_add(entry_weight(total, calls, weighed, line));
    }
    sum
}

// The weight of a file behind a library.
fn file_weight(
    alloc: Global,
    total: Total<'_>,
    calls: &Space<'_, Callee<'_>>,
    library: &File,
    file: &File,
) -> Result<u32, Memory>
    ensures { let known = map seen_call calls.now in
        IfOk result (λ n. n ≡
        count_behind (weights_of known total.entry) known
        (plain_file library.now) (plain_file file.now)) }
{
    let mut weighed = Vec::new(alloc);
    weigh_definitions(total, calls, &mut weighed, library.definitions.members())?;
    weigh_definitions(total, calls, &mut weighed, file.definitions.members())?;
    Ok(system_weight(total, calls, &weighed, file.lines.members()))
}

fn file_calls<'a>(
    alloc: Global,
    library: &'a File,
    file: &'a File,
) -> Result<Space<'a, Callee<'a>>, Memory>
    ensures { IfOk result (λ calls. map seen_call calls ≡
        calls_of (plain_file library.now) (plain_file file.now)) }
{
    calls_space(
        alloc,
        library.definitions.members(),
        file.definitions.members(),
    )
}

fn declared_count(lines: &[SystemLine]) -> u32
    ensures { result ≡ cut (length (flat_map declared_names (map plain_sline lines.now))) }
{
    let mut total: u32 = 0;
    for line in lines {
        if let SystemLine::Clocks(names) = line {
            let count = u32::try_from(names.members().len()).unwrap_or(u32::MAX);
            total = total.saturating_add(count);
        }
    }
    total
}

/// How many clocks a file behind a library has, at most 4,294,967,295.
pub fn clock_count(alloc: Global, library: &File, file: &File) -> Result<u32, Memory>
    ensures { IfOk result (λ n. n ≡
        cut (length (expand (plain_file library.now) (plain_file file.now)).names)) }
{
    counts_are_lengths();
    let calls = file_calls(alloc, library, file)?;
    let defined = file_weight(alloc, Total::Clocks, &calls, library, file)?;
    Ok(declared_count(file.lines.members()).saturating_add(defined))
}

/// How many constraints a file behind a library has, at most 4,294,967,295.
pub fn constraint_count(alloc: Global, library: &File, file: &File) -> Result<u32, Memory>
    ensures { IfOk result (λ n. n ≡
        cut (length (expand (plain_file library.now) (plain_file file.now)).constraints)) }
{
    counts_are_lengths();
    let calls = file_calls(alloc, library, file)?;
    file_weight(alloc, Total::Constraints, &calls, library, file)
}

// The cells of a call to each group of a file behind a library.
fn groups_cells(
    alloc: Global,
    calls: &Space<'_, Callee<'_>>,
    library: &File,
    file: &File,
) -> Result<Vec<u32>, Memory>
    ensures { let known = map seen_call calls.now in
        IfOk result (λ groups. groups.items ≡ groups_before known
        (groups_before known [] (plain_file library.now).definitions)
        (plain_file file.now).definitions) }
{
    let mut groups = Vec::new(alloc);
    add_groups(calls, &mut groups, library.definitions.members())?;
    add_groups(calls, &mut groups, file.definitions.members())?;
    Ok(groups)
}

/// How many cells the states of a file behind a library have, at most 4,294,967,295.
pub fn cell_count(alloc: Global, library: &File, file: &File) -> Result<u32, Memory>
    ensures { IfOk result (λ n. n ≡
        saturated (cells (expand (plain_file library.now) (plain_file file.now)))) }
{
    let calls = file_calls(alloc, library, file)?;
    let groups = groups_cells(alloc, &calls, library, file)?;
    file_weight(alloc, Total::Cells(&groups), &calls, library, file)
}
