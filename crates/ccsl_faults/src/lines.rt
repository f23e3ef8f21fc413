//! Lines of a relation's body and of the system.
#![tactic(auto, using(crate::proofs::Least::the_least))]

ghost use Rattle.std.specs.Prelude.{◌≡◌, IfOk, map};
ghost use Rattle.ccsl_ast.specs.Trees.{SLineOf};
ghost use Rattle.ccsl_ast.specs.Plain.{plain_line, plain_sline};
ghost use Rattle.ccsl_rules.specs.Faults.{least};
ghost use Rattle.ccsl_rules.specs.Blocks as rules;
ghost use Rattle.ccsl_faults.specs.Scenes.{seen_scene};

use crate::calls::call_faults;
use crate::cause::Cause;
use crate::expressions::expression_faults;
use crate::fault::{Fault, earlier, where_so};
use crate::scene::Scene;
use crate::uses::used_as;
use ccsl_ast::{Kind, Relation, RelationLine, SystemLine};
use ccsl_base::Memory;
use ccsl_kernel::Position;

/// The number of `precedes within`.
fn relation_faults(relation: &Relation) -> Option<Fault>
    ensures { result ≡ least (rules.relation_faults relation.now) }
{
    match relation {
        Relation::PrecedesWithin(at, count) => where_so(*count == 0, Cause::Arguments, *at),
        _ => None,
    }
}

fn line_faults(scene: &Scene, line: &RelationLine) -> Result<Option<Fault>, Memory>
    ensures { IfOk result (λ fault. fault ≡
        least (rules.line_faults (seen_scene scene.now) (plain_line line.now))) }
{
    match line {
        RelationLine::Define(_, tree) => expression_faults(scene, Position::Inner, tree),
        RelationLine::Constraint(left, relation, right) => {
            let first = used_as(scene, Kind::Clock, left);
            let second = used_as(scene, Kind::Clock, right);
            Ok(earlier(earlier(first, relation_faults(relation)), second))
        }
        RelationLine::Call(name, arguments) => {
            call_faults(scene, true, Position::Inner, name, arguments.members())
        }
    }
}

fn system_line_faults(scene: &Scene, line: &SystemLine) -> Result<Option<Fault>, Memory>
    ensures { IfOk result (λ fault. fault ≡
        least (rules.entry_faults (seen_scene scene.now) (plain_sline line.now))) }
{
    match line {
        SystemLine::Clocks(_) => Ok(None),
        SystemLine::Line(line) => line_faults(scene, line),
    }
}

/// The lines of a relation's body.
pub(crate) fn relation_lines_faults(
    scene: &Scene,
    lines: &[RelationLine],
) -> Result<Option<Fault>, Memory>
    ensures { IfOk result (λ fault. fault ≡
        least (rules.entries_faults (seen_scene scene.now) 0
        (map SLineOf (map plain_line lines.now)))) }
{
    let mut worst = None;
    for (number, line) in lines.iter().enumerate() {
        let here = scene.at_line(number);
        worst = earlier(worst, line_faults(&here, line)?);
    }
    Ok(worst)
}

/// The lines of the system.
pub(crate) fn system_lines_faults(
    scene: &Scene,
    lines: &[SystemLine],
) -> Result<Option<Fault>, Memory>
    ensures { IfOk result (λ fault. fault ≡
        least (rules.entries_faults (seen_scene scene.now) 0 (map plain_sline lines.now))) }
{
    let mut worst = None;
    for (number, line) in lines.iter().enumerate() {
        let here = scene.at_line(number);
        worst = earlier(worst, system_line_faults(&here, line)?);
    }
    Ok(worst)
}
