//! The names, definitions and constraints of a system, from the items that its lines become.

ghost use Rattle.std.specs.Prelude.{◌≡◌, ◌++◌, map, flat_map, filter_map, IfOk, OnOk};
ghost use Rattle.std.specs.Option.{option_to_list};
ghost use Rattle.ccsl_ast.specs.Plain.{plain_sline};
ghost use Rattle.ccsl_kernel.specs.Plain.{plain_expr};
ghost use Rattle.ccsl_rules.specs.Settings.{atom_of};
ghost use Rattle.ccsl_rules.specs.Expansion.{declared_names, written_item, hidden_item, item_name, item_definition};
ghost use Rattle.ccsl_rules.specs.Expansion.{relation_in, clock_in, constraint_of};
ghost use Rattle.ccsl_expand.specs.Seen.{seen_tables};
ghost use Rattle.ccsl_expand.specs.Items.{seen_item};

use crate::atom::Atom;
use crate::expression::resolve;
use crate::item::Item;
use crate::naming::push_name;
use crate::setting::Setting;
use crate::tables::{Tables, clock_number};
use ccsl_ast::{Relation, Spot, SystemLine};
use ccsl_base::{Memory, Names, Text};
use ccsl_kernel::{Constraint, Expr, RelationKind};
use std::alloc::Global;

fn add_spots(alloc: Global, names: &mut Vec<Text>, spots: &[Spot]) -> Result<(), Memory>
    ensures { OnOk result (names.new.items ≡ names.old.items ++ map (λ s. s.name) spots.now) }
{
    for spot in spots {
        push_name(alloc, names, spot.name.bytes())?;
    }
    Ok(())
}

fn add_declared_by(alloc: Global, names: &mut Vec<Text>, line: &SystemLine) -> Result<(), Memory>
    ensures { OnOk result (names.new.items
        ≡ names.old.items ++ declared_names (plain_sline line.now)) }
{
    match line {
        SystemLine::Clocks(spots) => add_spots(alloc, names, spots.members()),
        SystemLine::Line(_) => Ok(()),
    }
}

/// The names of the clocks that the system's lines declare.
pub fn declared(alloc: Global, lines: &[SystemLine]) -> Result<Vec<Text>, Memory>
    ensures { IfOk result (λ names. names.items
        ≡ flat_map declared_names (map plain_sline lines.now)) }
{
    let mut names = Vec::new(alloc);
    for line in lines {
        add_declared_by(alloc, &mut names, line)?;
    }
    Ok(names)
}

fn add_if_written(alloc: Global, names: &mut Vec<Text>, item: &Item<'_>) -> Result<(), Memory>
    ensures { OnOk result (names.new.items ≡
        names.old.items ++ map item_name (option_to_list (written_item (seen_item item.now)))) }
{
    match item {
        Item::Defines { path, name, .. } if path.bytes().is_empty() => {
            push_name(alloc, names, name.bytes())
        }
        _ => Ok(()),
    }
}

/// Adds the clocks that the system defines.
pub fn add_written(alloc: Global, names: &mut Vec<Text>, items: &[Item<'_>]) -> Result<(), Memory>
    ensures { OnOk result (names.new.items ≡
        names.old.items ++ map item_name (filter_map written_item (map seen_item items.now))) }
{
    for item in items {
        add_if_written(alloc, names, item)?;
    }
    Ok(())
}

fn add_if_hidden(alloc: Global, names: &mut Vec<Text>, item: &Item<'_>) -> Result<(), Memory>
    ensures { OnOk result (names.new.items ≡
        names.old.items ++ map item_name (option_to_list (hidden_item (seen_item item.now)))) }
{
    match item {
        Item::Defines { path, name, .. } if !path.bytes().is_empty() => {
            push_name(alloc, names, name.bytes())
        }
        _ => Ok(()),
    }
}

/// Adds the clocks that relations hide.
pub fn add_hidden(alloc: Global, names: &mut Vec<Text>, items: &[Item<'_>]) -> Result<(), Memory>
    ensures { OnOk result (names.new.items ≡
        names.old.items ++ map item_name (filter_map hidden_item (map seen_item items.now))) }
{
    for item in items {
        add_if_hidden(alloc, names, item)?;
    }
    Ok(())
}

fn push_if_written(
    alloc: Global,
    tables: &Tables<'_, '_>,
    out: &mut Vec<Expr>,
    item: &Item<'_>,
) -> Result<(), Memory>
    ensures { OnOk result (map plain_expr out.new.items ≡ map plain_expr out.old.items ++
        map (item_definition (seen_tables tables.now))
        (option_to_list (written_item (seen_item item.now)))) }
{
    if let Item::Defines {
        path,
        setting,
        start,
        tree,
        ..
    } = item
        && path.bytes().is_empty()
    {
        let mut next = *start;
        out.push(resolve(alloc, tables, setting, &mut next, tree)?)?;
    }
    Ok(())
}

/// Adds the definitions of the clocks that the system defines.
pub fn push_written(
    alloc: Global,
    tables: &Tables<'_, '_>,
    out: &mut Vec<Expr>,
    items: &[Item<'_>],
) -> Result<(), Memory>
    ensures { OnOk result (map plain_expr out.new.items ≡ map plain_expr out.old.items ++
        map (item_definition (seen_tables tables.now))
        (filter_map written_item (map seen_item items.now))) }
{
    for item in items {
        push_if_written(alloc, tables, out, item)?;
    }
    Ok(())
}

fn push_if_hidden(
    alloc: Global,
    tables: &Tables<'_, '_>,
    out: &mut Vec<Expr>,
    item: &Item<'_>,
) -> Result<(), Memory>
    ensures { OnOk result (map plain_expr out.new.items ≡ map plain_expr out.old.items ++
        map (item_definition (seen_tables tables.now))
        (option_to_list (hidden_item (seen_item item.now)))) }
{
    if let Item::Defines {
        path,
        setting,
        start,
        tree,
        ..
    } = item
        && !path.bytes().is_empty()
    {
        let mut next = *start;
        out.push(resolve(alloc, tables, setting, &mut next, tree)?)?;
    }
    Ok(())
}

/// Adds the definitions of the clocks that relations hide.
pub fn push_hidden(
    alloc: Global,
    tables: &Tables<'_, '_>,
    out: &mut Vec<Expr>,
    items: &[Item<'_>],
) -> Result<(), Memory>
    ensures { OnOk result (map plain_expr out.new.items ≡ map plain_expr out.old.items ++
        map (item_definition (seen_tables tables.now))
        (filter_map hidden_item (map seen_item items.now))) }
{
    for item in items {
        push_if_hidden(alloc, tables, out, item)?;
    }
    Ok(())
}

fn relation(relation: Relation) -> RelationKind
    ensures { result ≡ relation_in relation }
{
    match relation {
        Relation::Subclock => RelationKind::Subclock,
        Relation::Coincides => RelationKind::Coincides,
        Relation::Excludes => RelationKind::Excludes,
        Relation::Precedes => RelationKind::Precedes,
        Relation::PrecedesWeakly => RelationKind::PrecedesWeakly,
        Relation::PrecedesWithin(_, most) => RelationKind::PrecedesWithin(most),
    }
}

fn clock(names: &Names, setting: &Setting, name: &Spot) -> u32
    ensures { result ≡ clock_in names.now (atom_of setting.now name.now.name) }
{
    match setting.find(name.name.bytes()) {
        Some(Atom::Clock(whole)) => clock_number(names, whole.bytes()),
        _ => 0,
    }
}

fn push_if_constraint(
    alloc: Global,
    names: &Names,
    out: &mut Vec<Constraint>,
    item: &Item<'_>,
) -> Result<(), Memory>
    ensures { OnOk result (out.new.items ≡
        out.old.items ++ option_to_list (constraint_of names.now (seen_item item.now))) }
{
    if let Item::Binds {
        path,
        setting,
        left,
        relation: kind,
        right,
    } = item
    {
        out.push(Constraint {
            kind: relation(*kind),
            left: clock(names, setting, left),
            right: clock(names, setting, right),
            label: Text::new(Vec::from_slice(alloc, path.bytes())?),
        })?;
    }
    Ok(())
}

/// The constraints.
pub fn constraints(
    alloc: Global,
    names: &Names,
    items: &[Item<'_>],
) -> Result<Vec<Constraint>, Memory>
    ensures { IfOk result
        (λ v. v.items ≡ filter_map (constraint_of names.now) (map seen_item items.now)) }
{
    let mut out = Vec::new(alloc);
    for item in items {
        push_if_constraint(alloc, names, &mut out, item)?;
    }
    Ok(out)
}
