//! The levels of groups and of relations.
#![tactic(auto, using(crate::proofs::Heights::the_greatest))]

ghost use Rattle.std.specs.Prelude.{◌≡◌, ◌+◌, ◌<◌, ◌≤◌, ◌^◌, [], ◌++◌, OnOk, IfOk, length, map, flat_map, slice_index, max};
ghost use Rattle.ccsl_ast.specs.Plain.{plain, plain_member, plain_line, plain_definition};
ghost use Rattle.ccsl_rules.specs.Levels as rules;
ghost use Rattle.ccsl_rules.specs.Levels.{called, called_line, counted};
ghost use Rattle.ccsl_kernel.specs.Cells.{greatest};
ghost use Rattle.ccsl_spaces.specs.Callees.{seen_call};
ghost use Rattle.ccsl_faults.specs.Levels.{seen_sort, seen_heights, heights_of, height_of};

use ccsl_ast::{Definition, Member, RelationLine, Spot, Tree};
use ccsl_base::Memory;
use ccsl_spaces::{Callee, Space, find_call};
use std::alloc::Global;

/// Levels count among groups, or among relations.
#[derive(Clone, Copy)]
pub(crate) enum Sort {
    Groups,
    Relations,
}

/// The levels of all definitions by number, of both sorts; 0 for a definition of the other sort.
#[derive(Drop)]
pub(crate) struct Heights {
    pub groups: Vec<usize>,
    pub relations: Vec<usize>,
}

/// The level at a place; 0 where there is none.
pub(crate) fn level_at(levels: &[usize], place: usize) -> usize
    ensures { result ≡ slice_index levels.now place }
{
    match levels.get(place) {
        None => 0,
        Some(level) => *level,
    }
}

/// The level of what a name calls, among the definitions whose levels are there; 0 for others.
pub(crate) fn level_in(calls: &Space<Callee>, levels: &[usize], name: &Spot) -> usize
    ensures { result ≡ rules.level_in (map seen_call calls.now) levels.now name.now.name }
{
    match find_call(calls, name.name.bytes()) {
        None => 0,
        Some(found) => level_at(levels, found.what.block),
    }
}

fn greater(a: usize, b: usize) -> usize
    ensures { result ≡ max a b }
{
    if a < b { b } else { a }
}

/// The greatest level of what an expression calls.
fn tree_height(calls: &Space<Callee>, levels: &[usize], tree: &Tree) -> usize
    ensures { result ≡ height_of (map seen_call calls.now) levels.now (called (plain tree.now)) }
{
    match tree {
        Tree::Name(_) | Tree::Never => 0,
        Tree::Call(name, _) => level_in(calls, levels, name),
        Tree::Delay(operand, _) | Tree::Await(operand, _) => tree_height(calls, levels, operand),
        Tree::Filter(operand, _) => tree_height(calls, levels, operand),
        Tree::Binary(_, left, right) => {
            greater(
                tree_height(calls, levels, left),
                tree_height(calls, levels, right),
            )
        }
        Tree::Delayed(operand, _, _, base) => {
            greater(
                tree_height(calls, levels, operand),
                tree_height(calls, levels, base),
            )
        }
        Tree::If(_, first, second) => {
            greater(
                tree_height(calls, levels, first),
                tree_height(calls, levels, second),
            )
        }
    }
}

/// The greatest level of what the members of a group call.
fn members_height(calls: &Space<Callee>, levels: &[usize], members: &[Member]) -> usize
    ensures { result ≡ height_of (map seen_call calls.now) levels.now
        (flat_map (λ m. called m.body) (map plain_member members.now)) }
{
    let mut height = 0;
    for member in members {
        height = greater(height, tree_height(calls, levels, &member.body));
    }
    height
}

fn line_height(calls: &Space<Callee>, levels: &[usize], line: &RelationLine) -> usize
    ensures { result ≡ height_of (map seen_call calls.now) levels.now
        (called_line (plain_line line.now)) }
{
    match line {
        RelationLine::Define(_, _) => 0,
        RelationLine::Constraint(_, _, _) => 0,
        RelationLine::Call(name, _) => level_in(calls, levels, name),
    }
}

/// The greatest level of the relations that the lines of a body call.
fn lines_height(calls: &Space<Callee>, levels: &[usize], lines: &[RelationLine]) -> usize
    ensures { result ≡ height_of (map seen_call calls.now) levels.now
        (flat_map called_line (map plain_line lines.now)) }
{
    let mut height = 0;
    for line in lines {
        height = greater(height, line_height(calls, levels, line));
    }
    height
}

/// The level of a definition, from the levels of those before it.
fn level(sort: Sort, calls: &Space<Callee>, before: &[usize], definition: &Definition) -> usize
    requires { greatest before.now ≤ length before.now }
    ensures level { result ≡ rules.level (map seen_call calls.now) before.now
        (counted (seen_sort sort) (plain_definition definition.now)) }
    ensures few { result ≤ length before.now + 1 }
{
    match (sort, definition) {
        (Sort::Groups, Definition::Group(members)) => {
            let height = members_height(calls, before, members.members());
            height + 1
        }
        (Sort::Relations, Definition::Relation { lines, .. }) => {
            let height = lines_height(calls, before, lines.members());
            height + 1
        }
        _ => 0,
    }
}

/// Adds the levels of definitions to those of the definitions before them.
fn add_levels(
    sort: Sort,
    calls: &Space<Callee>,
    levels: &mut Vec<usize>,
    definitions: &[Definition],
) -> Result<(), Memory>
    requires { greatest levels.old.items ≤ length levels.old.items }
    ensures levels { OnOk result (levels.new.items ≡ rules.levels (seen_sort sort)
        (map seen_call calls.now) levels.old.items (map plain_definition definitions.now)) }
    ensures few { OnOk result (greatest levels.new.items ≤ length levels.new.items) }
    ensures count { OnOk result (length levels.new.items
        ≡ length levels.old.items + length definitions.now) }
{
    for definition in definitions {
        let next = level(sort, calls, levels, definition);
        levels.push(next)?;
    }
    Ok(())
}

fn levels(
    alloc: Global,
    sort: Sort,
    calls: &Space<Callee>,
    library: &[Definition],
    file: &[Definition],
) -> Result<Vec<usize>, Memory>
    ensures levels { IfOk result (λ v. v.items
        ≡ rules.levels (seen_sort sort) (map seen_call calls.now) []
        (map plain_definition library.now ++ map plain_definition file.now)) }
    ensures count { IfOk result (λ v. length v.items ≡ length library.now + length file.now) }
{
    let mut levels = Vec::new(alloc);
    add_levels(sort, calls, &mut levels, library)?;
    add_levels(sort, calls, &mut levels, file)?;
    Ok(levels)
}

/// The levels of all definitions of a library and then of a file.
pub(crate) fn all_levels(
    alloc: Global,
    calls: &Space<Callee>,
    library: &[Definition],
    file: &[Definition],
) -> Result<Heights, Memory>
    ensures heights { IfOk result (λ h. seen_heights h ≡ heights_of (map seen_call calls.now)
        (map plain_definition library.now ++ map plain_definition file.now)) }
    ensures groups { IfOk result (λ h. length h.groups.items
        ≡ length library.now + length file.now) }
    ensures relations { IfOk result (λ h.
        length h.relations.items ≡ length library.now + length file.now) }
{
    let groups = levels(alloc, Sort::Groups, calls, library, file)?;
    let relations = levels(alloc, Sort::Relations, calls, library, file)?;
    Ok(Heights { groups, relations })
}
