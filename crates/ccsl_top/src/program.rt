//! The program: words, files, an answer and a report.

ghost use Rattle.std.specs.Prelude.{◌≡◌, ◌≢◌, ℕ, List, Ok, Some, None, false, IfOk, IfErr, OnOk};
ghost use Rattle.ccsl_edge.specs.World.{State};
ghost use Rattle.ccsl_command.specs.Infinite.{HasInfiniteWords};
ghost use Rattle.ccsl_command.specs.Meaning.{meaning};
ghost use Rattle.ccsl_command.specs.Opened.{files_of, files_opened};
ghost use Rattle.ccsl_top.specs.Program.{usage_outcome};
ghost use Rattle.ccsl_top.specs.Opening.{AreAllowed, is_session};
ghost use Rattle.ccsl_top.specs.Specified.{spec_of, IsSpecified};
ghost use Rattle.ccsl_top.specs.Answered.{plain_reply, AnswersTo, StopsAt};
ghost use Rattle.ccsl_top.specs.Headline.{Headline};

use crate::certify::certify;
use crate::check::check;
use crate::explain::explain;
use crate::judge::judge;
use crate::machine::Machine;
use crate::periodic::periodic;
use crate::reply::{Reply, Status};
use crate::report::report;
use crate::session::session;
use crate::simulate::{policy_named, simulate};
use crate::specification::read_specification;
use crate::trial::trial;
use ccsl_base::{CommandWord, HashKeys};
use ccsl_command::{Command, Usage, words as command_line};
use ccsl_edge::{Stop, World};
use ccsl_kernel::System;
use ccsl_pool::Gate;
use ccsl_report::usage;
use ccsl_spec::Specification;
use std::alloc::Global;
use std::thread::Threads;

// The words are refused, for a fault that is no want of memory.
fn refuse_words(alloc: Global, fault: &Usage) -> Result<Reply, Stop>
    ensures cause { OnOk result (fault.now ≢ Usage.Memory) }
    ensures reply { IfOk result (λ reply. plain_reply reply ≡ usage_outcome fault.now) }
    ensures stop { IfErr result (λ stop. stop ≡ Stop.Memory) }
{
    if matches!(fault, Usage::Memory) {
        return Err(Stop::Memory);
    }
    Ok(Reply {
        status: Status::WordsRefused,
        line: usage(alloc, fault)?,
    })
}

// The answer to a command on the system of its specification, where it is no session.
fn answer_on<R: Threads + Sync, W: World, G: Gate>(
    machine: &Machine<'_, R, G>,
    command: &Command,
    system: &System,
    world: &mut W,
) -> Result<Reply, Stop>
    requires allowed { AreAllowed W.allows (files_of command.now) }
    requires named { spec_of command.now ≢ None }
    requires no_session { is_session (Ok command.now) ≡ false }
    ensures ok { (start : State) →
        IsSpecified W.told command.now system.now start (W.state world.old) →
        IfOk result (λ reply. AnswersTo W.told command.now reply start (W.state world.new)) }
    ensures err { (start : State) →
        IsSpecified W.told command.now system.now start (W.state world.old) →
        IfErr result (λ stop. StopsAt W.told command.now stop start (W.state world.new)) }
{
    match command {
        Command::Check { .. } => check(machine.alloc, system),
        Command::Judge { trace, workers, .. } => {
            judge(machine, world, system, trace.as_str(), *workers)
        }
        Command::Simulate {
            policy,
            seed,
            steps,
            trace,
            cert,
            ..
        } => {
            let policy = policy_named(*policy);
            simulate(
                machine.alloc,
                world,
                system,
                policy,
                *seed,
                *steps,
                trace.as_str(),
                cert.as_str(),
            )
        }
        Command::Certify { trace, cert, .. } => {
            certify(
                machine.alloc,
                machine.keys,
                world,
                system,
                trace.as_str(),
                cert.as_str(),
            )
        }
        Command::Explain { trace, cert, .. } => {
            explain(
                machine.alloc,
                machine.keys,
                world,
                system,
                trace.as_str(),
                cert.as_str(),
            )
        }
        Command::Trial { .. } => unreachable!(),
        Command::Periodic { .. } => unreachable!(),
        Command::Session { .. } => unreachable!(),
    }
}

// Obeys a command on the system of its specification, and answers the exit status: a session reports by itself.
fn obey_on<R: Threads + Sync, W: World, G: Gate>(
    machine: &Machine<'_, R, G>,
    command: &Command,
    system: &System,
    world: &mut W,
) -> u8
    requires allowed { AreAllowed W.allows (files_of command.now) }
    requires named { spec_of command.now ≢ None }
    ensures { (words : List (List ℕ)) (start : State) → meaning words ≡ Ok command.now →
        IsSpecified W.told command.now system.now start (W.state world.old) →
        Headline W.told words result start (W.state world.new) }
{
    if let Command::Session { policy, seed, .. } = command {
        return session(machine.alloc, world, system, policy_named(*policy), *seed);
    }
    let answer = answer_on(machine, command, system, world);
    report(world, answer)
}

// Obeys a command that names a specification, and answers the exit status.
fn obey_specified<R: Threads + Sync, W: World, G: Gate>(
    machine: &Machine<'_, R, G>,
    command: &Command,
    spec: &str,
    world: &mut W,
) -> u8
    requires allowed { AreAllowed W.allows (files_of command.now) }
    requires named { spec_of command.now ≡ Some spec.now }
    ensures { (words : List (List ℕ)) → meaning words ≡ Ok command.now →
        Headline W.told words result (W.state world.old) (W.state world.new) }
{
    match read_specification(machine.alloc, world, spec) {
        Ok(Specification::Accepted(system)) => { obey_on(machine, command, &system, world) }
        Ok(Specification::Refused(line)) => {
            let reply = Reply {
                status: Status::SpecRefused,
                line,
            };
            report(world, Ok(reply))
        }
        Err(stop) => report(world, Err(stop)),
    }
}

// Obeys a command, and answers the exit status.
fn obey<R: Threads + Sync, W: World, G: Gate>(
    machine: &Machine<'_, R, G>,
    command: &Command,
    world: &mut W,
) -> u8
    requires allowed { AreAllowed W.allows (files_of command.now) }
    requires meant { (words : List (List ℕ)) × (meaning words ≡ Ok command.now) }
    requires infinite { HasInfiniteWords command.now }
    ensures { (words : List (List ℕ)) → meaning words ≡ Ok command.now →
        Headline W.told words result (W.state world.old) (W.state world.new) }
{
    match command {
        Command::Trial {
            clocks,
            steps,
            seed,
            workers,
        } => {
            let tried = trial(machine, *clocks, *steps, *seed, *workers);
            report(world, tried)
        }
        Command::Periodic {
            left,
            right,
            relation,
        } => report(world, periodic(machine.alloc, left, right, *relation)),
        Command::Check { spec }
        | Command::Simulate { spec, .. }
        | Command::Judge { spec, .. }
        | Command::Certify { spec, .. }
        | Command::Explain { spec, .. }
        | Command::Session { spec, .. } => {
            obey_specified(machine, command, spec.as_str(), world)
        }
    }
}

/// Does all that the program does, and answers its exit status: 0 where it is done, 1 where a trace is no run, a
/// certificate not valid or a step possible that was to be explained, 2 to 4 where the words, the specification, or a
/// trace, a certificate or standard input are refused, 5 where a file failed, 6 where there was no memory, 8 where a
/// simulation ended early. `workers` threads judge a trace, and each part of their work enters the gate; neither
/// changes the outcome, nor do the keys by which a trace's codes are hashed.
pub fn run<R: Threads + Sync, W: World, G: Gate>(
    rt: &R,
    alloc: Global,
    keys: HashKeys,
    words: &[CommandWord],
    world: &mut W,
    gate: &G,
) -> u8
    requires { AreAllowed W.allows (files_opened words.now) }
    ensures { Headline W.told words.now result (W.state world.old) (W.state world.new) }
{
    match command_line(alloc, words) {
        Ok(command) => {
            let machine = Machine {
                rt,
                alloc,
                keys,
                gate,
            };
            obey(&machine, &command, world)
        }
        Err(fault) => report(world, refuse_words(alloc, &fault)),
    }
}
