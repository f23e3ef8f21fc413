//! Bodies: those of relations, of the members of groups, and of the system.
#![tactic(auto, using(crate::proofs::Least::the_least))]

ghost use Rattle.std.specs.Prelude.{◌≡◌, [], IfOk, map, flat_map};
ghost use Rattle.ccsl_ast.specs.Trees.{SLineOf};
ghost use Rattle.ccsl_ast.specs.Plain.{plain_line, plain_sline, plain_member};
ghost use Rattle.ccsl_rules.specs.Faults.{least};
ghost use Rattle.ccsl_faults.specs.Homes.{body_faults, part_faults};

use crate::declarations::{params_faults, repeated};
use crate::expressions::expression_faults;
use crate::fault::{Fault, earlier};
use crate::lines::{relation_lines_faults, system_lines_faults};
use crate::scene::Home;
use ccsl_ast::{Member, Param, RelationLine, SystemLine};
use ccsl_base::Memory;
use ccsl_kernel::Position;
use ccsl_spaces::{params_space, relation_space, system_space};

/// The parameters and the body of a relation.
pub(crate) fn relation_body_faults<'a>(
    home: &Home<'_, 'a>,
    params: &'a [Param],
    lines: &'a [RelationLine],
) -> Result<Option<Fault>, Memory>
    ensures { IfOk result (λ fault. fault ≡
        least (body_faults home.now params.now (map SLineOf (map plain_line lines.now)))) }
{
    let locals = relation_space(home.alloc, params, lines)?;
    let declared = earlier(params_faults(params), repeated(&locals, 0));
    let used = relation_lines_faults(&home.scene(&locals), lines)?;
    Ok(earlier(declared, used))
}

/// The lines of the system.
pub(crate) fn system_faults<'a>(
    home: &Home<'_, 'a>,
    lines: &'a [SystemLine],
) -> Result<Option<Fault>, Memory>
    ensures { IfOk result (λ fault. fault
        ≡ least (body_faults home.now [] (map plain_sline lines.now))) }
{
    let locals = system_space(home.alloc, lines)?;
    let used = system_lines_faults(&home.scene(&locals), lines)?;
    Ok(earlier(repeated(&locals, 0), used))
}

/// The parameters and the body of a member of a group.
fn member_faults<'a>(home: &Home<'_, 'a>, member: &'a Member) -> Result<Option<Fault>, Memory>
    ensures { IfOk result (λ fault. fault
        ≡ least (part_faults home.now (plain_member member.now))) }
{
    let params = member.params.members();
    let locals = params_space(home.alloc, params)?;
    let declared = earlier(params_faults(params), repeated(&locals, 0));
    let used = expression_faults(&home.scene(&locals), Position::Tail, &member.body)?;
    Ok(earlier(declared, used))
}

/// The members of a group.
pub(crate) fn members_faults<'a>(
    home: &Home<'_, 'a>,
    members: &'a [Member],
) -> Result<Option<Fault>, Memory>
    ensures { IfOk result (λ fault. fault ≡
        least (flat_map (part_faults home.now) (map plain_member members.now))) }
{
    let mut worst = None;
    for member in members {
        worst = earlier(worst, member_faults(home, member)?);
    }
    Ok(worst)
}
