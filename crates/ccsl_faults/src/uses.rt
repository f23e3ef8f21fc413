//! Uses of names, numbers and texts outside of calls.
#![tactic(auto, using(crate::proofs::Least::the_least))]

ghost use Rattle.std.specs.Prelude.{◌≡◌, IfOk, flat_map};
ghost use Rattle.ccsl_rules.specs.Faults.{least};
ghost use Rattle.ccsl_rules.specs.Uses as rules;
ghost use Rattle.ccsl_faults.specs.Scenes.{seen_scene};

use crate::cause::Cause;
use crate::fault::{Fault, earlier, where_so};
use crate::scene::Scene;
use ccsl_ast::{Kind, Primary, Sign, Spot, Term, Test, WordTerm};
use ccsl_base::Memory;
use ccsl_words::{Word, WordFault};
use std::alloc::Global;

fn same_kind(first: Kind, second: Kind) -> bool
    ensures { result ≡ rules.same_kind first second }
{
    matches!(
        (first, second),
        (Kind::Clock, Kind::Clock) | (Kind::Number, Kind::Number) | (Kind::Word, Kind::Word)
    )
}

/// A name that stands for a clock, a number or a word, whatever it is.
pub(crate) fn used(scene: &Scene, name: &Spot) -> Option<Fault>
    ensures { result ≡ least (rules.used (seen_scene scene.now) name.now) }
{
    match scene.locals.find(name.name.bytes()) {
        None => where_so(true, Cause::Unknown, name.at),
        Some(known) => where_so(scene.line < known.since, Cause::Later, name.at),
    }
}

pub(crate) fn kind_of(scene: &Scene, name: &Spot) -> Option<Kind>
    ensures { result ≡ rules.kind_of (seen_scene scene.now) name.now }
{
    match scene.locals.find(name.name.bytes()) {
        None => None,
        Some(known) => Some(known.what),
    }
}

pub(crate) fn has_other_kind(kind: Option<Kind>, wanted: Kind) -> bool
    ensures { result ≡ rules.has_other_kind kind wanted }
{
    match kind {
        None => false,
        Some(kind) => !same_kind(kind, wanted),
    }
}

/// A name where a clock, a number or a word is needed.
pub(crate) fn used_as(scene: &Scene, wanted: Kind, name: &Spot) -> Option<Fault>
    ensures { result ≡ least (rules.used_as (seen_scene scene.now) wanted name.now) }
{
    let other = has_other_kind(kind_of(scene, name), wanted);
    earlier(
        used(scene, name),
        where_so(other, Cause::WrongKind, name.at),
    )
}

fn primary_faults(scene: &Scene, primary: &Primary) -> Option<Fault>
    ensures { result ≡ least (rules.prim_faults (seen_scene scene.now) primary.now) }
{
    match primary {
        Primary::Num(_, _) => None,
        Primary::Name(name) => used_as(scene, Kind::Number, name),
    }
}

fn rest_faults(scene: &Scene, rest: &[(Sign, Primary)]) -> Option<Fault>
    ensures { result ≡ least
        (flat_map (λ p. rules.prim_faults (seen_scene scene.now) p.1) rest.now) }
{
    let mut worst = None;
    for (_, primary) in rest {
        worst = earlier(worst, primary_faults(scene, primary));
    }
    worst
}

pub(crate) fn term_faults(scene: &Scene, term: &Term) -> Option<Fault>
    ensures { result ≡ least (rules.term_faults (seen_scene scene.now) term.now) }
{
    earlier(
        primary_faults(scene, &term.first),
        rest_faults(scene, term.rest.members()),
    )
}

/// A text in quotes, which has to read as a word.
pub(crate) fn text_faults(alloc: Global, at: usize, text: &[u8]) -> Result<Option<Fault>, Memory>
    ensures { IfOk result (λ fault. fault ≡ least (rules.text_faults at text.now)) }
{
    match Word::read(alloc, text) {
        Ok(_) => Ok(None),
        Err(WordFault::Memory) => Err(Memory),
        Err(_) => Ok(where_so(true, Cause::BadWord, at)),
    }
}

pub(crate) fn word_faults(scene: &Scene, word: &WordTerm) -> Result<Option<Fault>, Memory>
    ensures { IfOk result (λ fault. fault
        ≡ least (rules.word_faults (seen_scene scene.now) word.now)) }
{
    match word {
        WordTerm::Text(at, text) => text_faults(scene.alloc, *at, text.bytes()),
        WordTerm::Name(name) => Ok(used_as(scene, Kind::Word, name)),
        WordTerm::Tail(name) => Ok(used_as(scene, Kind::Word, name)),
    }
}

pub(crate) fn test_faults(scene: &Scene, test: &Test) -> Option<Fault>
    ensures { result ≡ least (rules.test_faults (seen_scene scene.now) test.now) }
{
    match test {
        Test::Equal(left, right) => earlier(term_faults(scene, left), term_faults(scene, right)),
        Test::Less(left, right) => earlier(term_faults(scene, left), term_faults(scene, right)),
        Test::Head(name) => used_as(scene, Kind::Word, name),
        Test::Ended(name) => used_as(scene, Kind::Word, name),
    }
}
