//! A session over a world.

ghost use Rattle.std.specs.Prelude.{◌≡◌, ◌<◌, ℕ, [], true, None, OnOk, OnErr, IfOk, IfErr};
ghost use Rattle.ccsl_edge.specs.World.{State};
ghost use Rattle.ccsl_lines.specs.Held.{calls_left};
ghost use Rattle.ccsl_lines.specs.Given.{Breaks};
ghost use Rattle.ccsl_session.specs.Reading.{plain};
ghost use Rattle.ccsl_session.specs.Leaving.{HasEnded, IsCut};
ghost use Rattle.ccsl_session.specs.Laws.{IsStack};
ghost use Rattle.ccsl_session.specs.Stack.{Stands};
ghost use Rattle.ccsl_session.specs.Answering.{system_of, sets_of, SameTask};
ghost use Rattle.ccsl_session.specs.Going.{Goes, Turns, is_line, Hears, Replies, RepliesNot};

use crate::answer::Ended;
use crate::answers::Session;
use crate::asked::{Asked, read};
use crate::laws::lines_leave_stacks;
use ccsl_edge::{Failed, Slot, Stop, World, write_all};
use ccsl_kernel::System;
use ccsl_lines::laws::{few_bytes_are_read, given_lines_are_taken, search_ends_no_line};
use ccsl_lines::{LineReader, Next};
use ccsl_policy::Policy;
use std::alloc::Global;

/// What is heard next.
#[derive(Drop)]
pub(crate) enum Heard {
    /// What a line asks.
    Asks(Asked),
    /// How the input ends.
    Ends(Ended),
}

// Reads up to the next line.
fn hear<W: World>(world: &mut W, lines: &mut LineReader, system: &System) -> Result<Heard, Failed>
    ensures hears { IfOk result (λ heard.
        Hears W.told system.now (W.state world.old) (W.state world.new) lines.old lines.new heard) }
    ensures nears { IfOk result (λ heard. is_line heard ≡ true →
        calls_left lines.new < calls_left lines.old) }
    ensures breaks { OnErr result
        (Breaks W.told (W.state world.old) (W.state world.new) lines.old) }
{
    match lines.next(world)? {
        Next::Line => Ok(Heard::Asks(read(system, lines.line()))),
        Next::Long => Ok(Heard::Asks(Asked::Long)),
        Next::Ended => Ok(Heard::Ends(Ended::EndOfInput)),
        Next::TooLong => Ok(Heard::Ends(Ended::TooLong)),
    }
}

// Writes the answer to what is asked, and tells whether the session has ended by it.
fn reply<W: World>(
    world: &mut W,
    session: &mut Session<'_>,
    asked: Asked,
) -> Result<Option<Ended>, Stop>
    requires stands { Stands session.old.stack }
    requires stack { IsStack (system_of session.old) (sets_of session.old) }
    ensures task { SameTask session.old session.new }
    ensures replies { IfOk result (λ end.
        Replies W.told (plain asked) session.old session.new (W.state world.old)
        (W.state world.new) end) }
    ensures fails { IfErr result (λ fault.
        RepliesNot W.told (plain asked) session.old (W.state world.old) (W.state world.new) fault) }
{
    let quits = asked.is_quit();
    session.answer(asked)?;
    write_all(world, Slot::Report, &session.text)?;
    Ok(quits.then_some(Ended::Quit))
}

// Answers the next line, or tells how the session has ended.
fn turn<W: World>(
    world: &mut W,
    lines: &mut LineReader,
    session: &mut Session<'_>,
) -> Result<Option<Ended>, Stop>
    requires stands { Stands session.old.stack }
    requires stack { IsStack (system_of session.old) (sets_of session.old) }
    ensures task { SameTask session.old session.new }
    ensures stands { OnOk result (Stands session.new.stack) }
    ensures stack { OnOk result (IsStack (system_of session.new) (sets_of session.new)) }
    ensures turns { IfOk result (λ end. (start : State) (limit : ℕ) →
        Goes W.told (system_of session.old) session.old.policy session.old.seed limit start
        (W.state world.old) lines.old (sets_of session.old) [] →
        Turns W.told (system_of session.old) session.old.policy session.old.seed limit start
        (W.state world.new) lines.new (sets_of session.new) end) }
    ensures cut { IfErr result (λ fault. (start : State) (limit : ℕ) →
        Goes W.told (system_of session.old) session.old.policy session.old.seed limit start
        (W.state world.old) lines.old (sets_of session.old) [] →
        IsCut W.told (system_of session.old) session.old.policy session.old.seed limit start
        (W.state world.new) fault) }
    ensures nears { IfOk result (λ end. end ≡ None → calls_left lines.new < calls_left lines.old) }
{
    given_lines_are_taken();
    few_bytes_are_read();
    search_ends_no_line();
    lines_leave_stacks();
    match hear(world, lines, session.stack.system)? {
        Heard::Asks(asked) => reply(world, session, asked),
        Heard::Ends(end) => Ok(Some(end)),
    }
}

// Answers line after line.
fn run<W: World>(
    world: &mut W,
    lines: &mut LineReader,
    session: &mut Session<'_>,
) -> Result<Ended, Stop>
    requires stands { Stands session.old.stack }
    requires stack { IsStack (system_of session.old) (sets_of session.old) }
    ensures ended { IfOk result (λ ended. (limit : ℕ) →
        Goes W.told (system_of session.old) session.old.policy session.old.seed
        limit (W.state world.old)
        (W.state world.old) lines.old (sets_of session.old) [] →
        HasEnded W.told (system_of session.old) session.old.policy session.old.seed limit
        (W.state world.old) (W.state world.new) ended) }
    ensures cut { IfErr result (λ fault. (limit : ℕ) →
        Goes W.told (system_of session.old) session.old.policy session.old.seed
        limit (W.state world.old)
        (W.state world.old) lines.old (sets_of session.old) [] →
        IsCut W.told (system_of session.old) session.old.policy session.old.seed limit
        (W.state world.old) (W.state world.new) fault) }
{
    'lines: loop {
        if let Some(end) = turn(world, lines, session)? {
            return Ok(end);
        }
    }
}

/// Answers the lines of standard input on the report, until a line `quit`, the end of the input, or more than `limit`
/// bytes. Each answer is written by one call of [`write_all`](ccsl_edge::write_all), before more input is read. Steps
/// left to the policy take the words of their own number, also behind steps that were taken back.
pub fn session<W: World>(
    alloc: Global,
    world: &mut W,
    system: &System,
    policy: Policy,
    seed: u64,
    limit: u64,
) -> Result<Ended, Stop>
    ensures ended { IfOk result (λ ended.
        HasEnded W.told system.now policy seed limit (W.state world.old)
        (W.state world.new) ended) }
    ensures cut { IfErr result (λ fault.
        IsCut W.told system.now policy seed limit (W.state world.old) (W.state world.new) fault) }
{
    let mut lines = LineReader::open(alloc, limit)?;
    let mut session = Session::open(alloc, system, policy, seed)?;
    run(world, &mut lines, &mut session)
}
