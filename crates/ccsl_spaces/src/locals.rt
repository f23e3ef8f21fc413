//! The space of a body: its parameters, and the clocks that its lines declare.

ghost use Rattle.std.specs.Prelude.{◌≡◌, ◌+◌, ◌^◌, ◌<◌, ◌++◌, IfOk, OnOk, map};
ghost use Rattle.ccsl_ast.specs.Trees.{SLineOf};
ghost use Rattle.ccsl_ast.specs.Plain.{plain_line, plain_sline};
ghost use Rattle.ccsl_rules.specs.Spaces.{params_space, declared_by, lines_space, clock_known};

use crate::space::Space;
use ccsl_ast::{Kind, Param, RelationLine, Spot, SystemLine};
use ccsl_base::Memory;
use std::alloc::Global;

/// The space of the parameters of an expression.
pub fn params_space<'a>(alloc: Global, params: &'a [Param]) -> Result<Space<'a, Kind>, Memory>
    ensures { IfOk result (λ space. space ≡ params_space params.now) }
{
    let mut space = Space::new(alloc);
    for param in params {
        space.add(&param.name, 0, param.kind)?;
    }
    Ok(space)
}

fn add_clocks<'a>(
    space: &mut Space<'a, Kind>,
    since: usize,
    names: &'a [Spot],
) -> Result<(), Memory>
    ensures { OnOk result (space.new ≡ space.old ++ map (clock_known since) names.now) }
{
    for name in names {
        space.add(name, since, Kind::Clock)?;
    }
    Ok(())
}

fn add_relation_line<'a>(
    space: &mut Space<'a, Kind>,
    number: usize,
    line: &'a RelationLine,
) -> Result<(), Memory>
    requires { number + 1 < 2 ^ 64 }
    ensures { OnOk result
        (space.new ≡ space.old ++ declared_by number (SLineOf (plain_line line.now))) }
{
    if let RelationLine::Define(name, _) = line {
        space.add(name, number + 1, Kind::Clock)?;
    }
    Ok(())
}

fn add_system_line<'a>(
    space: &mut Space<'a, Kind>,
    number: usize,
    line: &'a SystemLine,
) -> Result<(), Memory>
    requires { number + 1 < 2 ^ 64 }
    ensures { OnOk result (space.new ≡ space.old ++ declared_by number (plain_sline line.now)) }
{
    match line {
        SystemLine::Clocks(names) => add_clocks(space, number + 1, names.members()),
        SystemLine::Line(line) => add_relation_line(space, number, line),
    }
}

/// The space of the body of a relation.
pub fn relation_space<'a>(
    alloc: Global,
    params: &'a [Param],
    lines: &'a [RelationLine],
) -> Result<Space<'a, Kind>, Memory>
    ensures { IfOk result (λ space. space ≡
        params_space params.now ++ lines_space 0 (map SLineOf (map plain_line lines.now))) }
{
    let mut space = params_space(alloc, params)?;
    for (number, line) in lines.iter().enumerate() {
        add_relation_line(&mut space, number, line)?;
    }
    Ok(space)
}

/// The space of the system.
pub fn system_space<'a>(alloc: Global, lines: &'a [SystemLine]) -> Result<Space<'a, Kind>, Memory>
    ensures { IfOk result (λ space. space ≡ lines_space 0 (map plain_sline lines.now)) }
{
    let mut space = Space::new(alloc);
    for (number, line) in lines.iter().enumerate() {
        add_system_line(&mut space, number, line)?;
    }
    Ok(space)
}
