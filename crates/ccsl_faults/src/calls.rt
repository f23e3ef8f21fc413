//! Calls of relations and of expressions.
#![tactic(auto, using(crate::proofs::Least::the_least))]

ghost use Rattle.std.specs.Prelude.{◌≡◌, ◌+◌, ◌<◌, ◌≤◌, ◌^◌, IfOk, nat_lt, suc};
ghost use Rattle.ccsl_base.specs.declared.limits.TheConstants.{MAX_CALL_LEVELS};
ghost use Rattle.ccsl_rules.specs.Faults.{least};
ghost use Rattle.ccsl_rules.specs.Uses as rules;
ghost use Rattle.ccsl_spaces.specs.Knowns.{known};
ghost use Rattle.ccsl_spaces.specs.Callees.{seen_role, seen_callee, seen_call};
ghost use Rattle.ccsl_faults.specs.Scenes.{seen_scene, called_faults};

use crate::arguments::{arguments_faults, mismatches};
use crate::cause::Cause;
use crate::fault::{Fault, earlier, where_so};
use crate::levels::level_in;
use crate::scene::Scene;
use ccsl_ast::{Argument, Spot};
use ccsl_base::{MAX_CALL_LEVELS, Memory};
use ccsl_kernel::Position;
use ccsl_spaces::{Callee, Declaration, Role, find_call};

fn has_role(role: Role, wants_relation: bool) -> bool
    ensures { result ≡ rules.has_role (seen_role role) wants_relation }
{
    match role {
        Role::Relation => wants_relation,
        Role::Member { .. } => !wants_relation,
    }
}

/// Whether it is a member of the group in which the call stands.
fn is_own(scene: &Scene, callee: &Callee) -> bool
    ensures { result ≡ rules.is_own (seen_scene scene.now) (seen_callee callee.now) }
{
    has_role(callee.role, false) && callee.block == scene.home
}

fn is_guarded(position: Position) -> bool
    ensures { result ≡ rules.is_guarded position }
{
    matches!(position, Position::Guarded)
}

/// Whether a call of what has this level makes the caller's level too great.
fn is_too_tall(level: usize) -> bool
    ensures { result ≡ nat_lt MAX_CALL_LEVELS (suc level) }
{
    MAX_CALL_LEVELS as usize <= level
}

fn callee_faults(
    scene: &Scene,
    wants_relation: bool,
    position: Position,
    name: &Spot,
    arguments: &[Argument],
    found: &Declaration<Callee>,
) -> Option<Fault>
    ensures { result ≡ least (rules.callee_faults (seen_scene scene.now) wants_relation position
        name.now arguments.now (seen_call (known found.now))) }
{
    let callee = &found.what;
    let own = is_own(scene, callee);
    let later = where_so(!own && scene.home < found.since, Cause::Later, name.at);
    let other = !has_role(callee.role, wants_relation);
    let wrong = where_so(other, Cause::WrongKind, name.at);
    let bare = own && !is_guarded(position);
    let unguarded = where_so(bare, Cause::Unguarded, name.at);
    let level = level_in(scene.calls, scene.levels, name);
    let tall = where_so(is_too_tall(level), Cause::TooTall, name.at);
    let differs = arguments.len() != callee.params.len();
    let count = where_so(differs, Cause::Arguments, name.at);
    let others = mismatches(scene, callee.params, arguments);
    let about_place = earlier(earlier(later, wrong), earlier(unguarded, tall));
    earlier(about_place, earlier(count, others))
}

fn name_faults(
    scene: &Scene,
    wants_relation: bool,
    position: Position,
    name: &Spot,
    arguments: &[Argument],
) -> Option<Fault>
    ensures { result ≡
        least (called_faults (seen_scene scene.now) wants_relation position
        name.now arguments.now) }
{
    match find_call(scene.calls, name.name.bytes()) {
        None => where_so(true, Cause::Unknown, name.at),
        Some(found) => callee_faults(scene, wants_relation, position, name, arguments, found),
    }
}

/// A call, of a relation or of an expression.
pub(crate) fn call_faults(
    scene: &Scene,
    wants_relation: bool,
    position: Position,
    name: &Spot,
    arguments: &[Argument],
) -> Result<Option<Fault>, Memory>
    ensures { IfOk result (λ fault. fault ≡
        least (rules.call_faults (seen_scene scene.now) wants_relation position
        name.now arguments.now)) }
{
    let about_name = name_faults(scene, wants_relation, position, name, arguments);
    Ok(earlier(about_name, arguments_faults(scene, arguments)?))
}
