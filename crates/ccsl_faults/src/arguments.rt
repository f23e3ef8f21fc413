//! Arguments of calls.
#![tactic(auto, using(crate::proofs::Least::the_least))]

ghost use Rattle.std.specs.Prelude.{◌≡◌, IfOk, flat_map, zip, Some};
ghost use Rattle.std.specs.Option.{option_copied};
ghost use Rattle.ccsl_rules.specs.Faults.{least};
ghost use Rattle.ccsl_rules.specs.Uses as rules;
ghost use Rattle.ccsl_faults.specs.Scenes.{seen_scene};

use crate::cause::Cause;
use crate::fault::{Fault, earlier, where_so};
use crate::scene::Scene;
use crate::uses::{has_other_kind, kind_of, term_faults, text_faults, used, used_as};
use ccsl_ast::{Argument, Kind, Param, Primary, Spot, Term};
use ccsl_base::Memory;

/// The name that is all of a term.
fn single(term: &Term) -> Option<&Spot>
    ensures { option_copied result ≡ rules.single term.now }
{
    match (&term.first, term.rest.members()) {
        (Primary::Name(name), []) => Some(name),
        _ => None,
    }
}

fn primary_at(primary: &Primary) -> usize
    ensures { result ≡ rules.prim_at primary.now }
{
    match primary {
        Primary::Num(at, _) => *at,
        Primary::Name(name) => name.at,
    }
}

/// The place of an argument's first token other than `tail`.
fn argument_at(argument: &Argument) -> usize
    ensures { result ≡ rules.argument_at argument.now }
{
    match argument {
        Argument::Term(term) => primary_at(&term.first),
        Argument::Text(at, _) => *at,
        Argument::Tail(name) => name.at,
    }
}

fn argument_faults(scene: &Scene, argument: &Argument) -> Result<Option<Fault>, Memory>
    ensures { IfOk result (λ fault. fault ≡
        least (rules.argument_faults (seen_scene scene.now) argument.now)) }
{
    match argument {
        Argument::Term(term) => match single(term) {
            None => Ok(term_faults(scene, term)),
            Some(name) => Ok(used(scene, name)),
        },
        Argument::Text(at, text) => text_faults(scene.alloc, *at, text.bytes()),
        Argument::Tail(name) => Ok(used_as(scene, Kind::Word, name)),
    }
}

pub(crate) fn arguments_faults(
    scene: &Scene,
    arguments: &[Argument],
) -> Result<Option<Fault>, Memory>
    ensures { IfOk result (λ fault. fault ≡
        least (flat_map (rules.argument_faults (seen_scene scene.now)) arguments.now)) }
{
    let mut worst = None;
    for argument in arguments {
        worst = earlier(worst, argument_faults(scene, argument)?);
    }
    Ok(worst)
}

fn argument_kind(scene: &Scene, argument: &Argument) -> Option<Kind>
    ensures { result ≡ rules.argument_kind (seen_scene scene.now) argument.now }
{
    match argument {
        Argument::Term(term) => match single(term) {
            None => Some(Kind::Number),
            Some(name) => kind_of(scene, name),
        },
        Argument::Text(_, _) => Some(Kind::Word),
        Argument::Tail(_) => Some(Kind::Word),
    }
}

fn mismatch(scene: &Scene, param: &Param, argument: &Argument) -> Option<Fault>
    ensures { result ≡ least (rules.mismatch (seen_scene scene.now) param.now argument.now) }
{
    let other = has_other_kind(argument_kind(scene, argument), param.kind);
    where_so(other, Cause::WrongKind, argument_at(argument))
}

/// The arguments against the parameters, as far as both go.
pub(crate) fn mismatches(scene: &Scene, params: &[Param], arguments: &[Argument]) -> Option<Fault>
    ensures { result ≡ least (flat_map (λ a. rules.mismatch (seen_scene scene.now) a.0 a.1)
        (zip params.now arguments.now)) }
{
    let mut worst = None;
    for (param, argument) in params.iter().zip(arguments) {
        worst = earlier(worst, mismatch(scene, param, argument));
    }
    worst
}
