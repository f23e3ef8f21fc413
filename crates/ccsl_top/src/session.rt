//! The command `session`.

ghost use Rattle.std.specs.Prelude.{ℕ, List};
ghost use Rattle.ccsl_base.specs.declared.limits.TheConstants.{MAX_FILE_BYTES};
ghost use Rattle.ccsl_edge.specs.World.{State};
ghost use Rattle.ccsl_kernel.specs.Syntax.{System};
ghost use Rattle.ccsl_policy.specs.declared.policies.Policy.{Policy};
ghost use Rattle.ccsl_session.specs.declared.answer.Ended.TheVariants as ended;
ghost use Rattle.ccsl_session.specs.Leaving.{HasEnded};
ghost use Rattle.ccsl_top.specs.Conversing.{Begins};
ghost use Rattle.ccsl_top.specs.Headline.{Headline};

use crate::reply::stop_code;
use ccsl_base::{MAX_FILE_BYTES, Memory};
use ccsl_edge::{Slot, World, write_all};
use ccsl_kernel::System;
use ccsl_policy::Policy;
use ccsl_report::session_too_long;
use ccsl_session::Ended;
use std::alloc::Global;

// The last line, where the input has more bytes than are taken.
fn report_too_long<W: World>(alloc: Global, world: &mut W) -> u8
    ensures { (words : List (List ℕ)) (K : System) (policy : Policy)
        (seed : ℕ) (start begun : State) →
        Begins W.told words K policy seed start begun →
        HasEnded W.told K policy seed MAX_FILE_BYTES begun (W.state world.old) ended.TooLong →
        Headline W.told words result start (W.state world.new) }
{
    let line = match session_too_long(alloc) {
        Ok(line) => line,
        Err(Memory) => return 6,
    };
    match write_all(world, Slot::Report, &line) {
        Ok(()) => 4,
        Err(_failed) => 5,
    }
}

/// Answers the lines of standard input on the report, on a system, and answers the exit status.
pub(crate) fn session<W: World>(
    alloc: Global,
    world: &mut W,
    system: &System,
    policy: Policy,
    seed: u64,
) -> u8
    ensures { (words : List (List ℕ)) (start : State) →
        Begins W.told words system.now policy seed start (W.state world.old) →
        Headline W.told words result start (W.state world.new) }
{
    match ccsl_session::session(alloc, world, system, policy, seed, MAX_FILE_BYTES) {
        Ok(Ended::Quit) => 0,
        Ok(Ended::EndOfInput) => 0,
        Ok(Ended::TooLong) => report_too_long(alloc, world),
        Err(stop) => stop_code(stop),
    }
}
