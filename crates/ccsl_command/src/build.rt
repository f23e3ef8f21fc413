//! Commands made of pairs that are not at fault.

ghost use Rattle.std.specs.Prelude.{◌≡◌, ◌≤◌, IfOk, false};
ghost use Rattle.ccsl_command.specs.Pairs.{value_of};
ghost use Rattle.ccsl_command.specs.Values.{range_of};
ghost use Rattle.ccsl_words.specs.Word.{is_finite};
ghost use Rattle.ccsl_command.specs.Meaning.{number_of, workers_of, policy_in, relation_in, endless_zeros, word_in, command_of};
ghost use Rattle.ccsl_command.specs.Infinite.{HasInfiniteWords};

use crate::pair::{is_given, value_of};
use crate::value::{infinite_word, number, policy_of, relation_of};
use crate::{Command, CommandName, FileName, Key, PolicyName, RelationName};
use ccsl_base::{CommandWord, Memory};
use ccsl_words::Word;
use std::alloc::Global;

fn file_name(alloc: Global, key: Key, pairs: &[CommandWord]) -> Result<FileName, Memory>
    ensures { IfOk result (λ name. name ≡ value_of key pairs.now) }
{
    FileName::new(alloc, value_of(key, pairs))
}

fn number_of(name: CommandName, key: Key, pairs: &[CommandWord]) -> u64
    ensures number { result ≡ number_of name key pairs.now }
    ensures most { result ≤ (range_of name key).most }
{
    number(name, key, value_of(key, pairs)).unwrap_or(0)
}

fn workers_of(name: CommandName, pairs: &[CommandWord]) -> u32
    ensures { result ≡ workers_of name pairs.now }
{
    if is_given(Key::Workers, pairs) {
        number_of(name, Key::Workers, pairs) as u32
    } else {
        1
    }
}

fn policy_in(pairs: &[CommandWord]) -> PolicyName
    ensures { result ≡ policy_in pairs.now }
{
    policy_of(value_of(Key::Policy, pairs)).unwrap_or(PolicyName::Min)
}

fn relation_in(pairs: &[CommandWord]) -> RelationName
    ensures { result ≡ relation_in pairs.now }
{
    relation_of(value_of(Key::Relation, pairs)).unwrap_or(RelationName::Precedes)
}

fn endless_zeros(alloc: Global) -> Result<Word, Memory>
    ensures { IfOk result (λ word. word ≡ endless_zeros) }
{
    match Word::read(alloc, b"(0)") {
        Ok(word) => Ok(word),
        Err(_) => Err(Memory),
    }
}

fn word_in(alloc: Global, key: Key, pairs: &[CommandWord]) -> Result<Word, Memory>
    ensures word { IfOk result (λ word. word ≡ word_in key pairs.now) }
    ensures infinite { IfOk result (λ word. is_finite word ≡ false) }
{
    match infinite_word(alloc, value_of(key, pairs))? {
        Some(word) => Ok(word),
        None => endless_zeros(alloc),
    }
}

/// The command of pairs. A value that is not there, or not in its range, counts as the least one.
pub(crate) fn command_of(
    alloc: Global,
    name: CommandName,
    pairs: &[CommandWord],
) -> Result<Command, Memory>
    ensures command { IfOk result (λ command. command ≡ command_of name pairs.now) }
    ensures infinite { IfOk result (λ command. HasInfiniteWords command) }
{
    match name {
        CommandName::Check => check_of(alloc, pairs),
        CommandName::Simulate => simulate_of(alloc, pairs),
        CommandName::Judge => judge_of(alloc, pairs),
        CommandName::Certify => certify_of(alloc, pairs),
        CommandName::Trial => Ok(trial_of(pairs)),
        CommandName::Periodic => periodic_of(alloc, pairs),
        CommandName::Explain => explain_of(alloc, pairs),
        CommandName::Session => session_of(alloc, pairs),
    }
}

fn check_of(alloc: Global, pairs: &[CommandWord]) -> Result<Command, Memory>
    ensures command { IfOk result (λ command. command ≡ command_of CommandName.Check pairs.now) }
    ensures infinite { IfOk result (λ command. HasInfiniteWords command) }
{
    let spec = file_name(alloc, Key::Spec, pairs)?;
    Ok(Command::Check { spec })
}

fn simulate_of(alloc: Global, pairs: &[CommandWord]) -> Result<Command, Memory>
    ensures command { IfOk result (λ command. command ≡ command_of CommandName.Simulate pairs.now) }
    ensures infinite { IfOk result (λ command. HasInfiniteWords command) }
{
    Ok(Command::Simulate {
        spec: file_name(alloc, Key::Spec, pairs)?,
        policy: policy_in(pairs),
        seed: number_of(CommandName::Simulate, Key::Seed, pairs),
        steps: number_of(CommandName::Simulate, Key::Steps, pairs),
        trace: file_name(alloc, Key::Trace, pairs)?,
        cert: file_name(alloc, Key::Cert, pairs)?,
    })
}

fn judge_of(alloc: Global, pairs: &[CommandWord]) -> Result<Command, Memory>
    ensures command { IfOk result (λ command. command ≡ command_of CommandName.Judge pairs.now) }
    ensures infinite { IfOk result (λ command. HasInfiniteWords command) }
{
    let spec = file_name(alloc, Key::Spec, pairs)?;
    let trace = file_name(alloc, Key::Trace, pairs)?;
    let workers = workers_of(CommandName::Judge, pairs);
    Ok(Command::Judge {
        spec,
        trace,
        workers,
    })
}

fn certify_of(alloc: Global, pairs: &[CommandWord]) -> Result<Command, Memory>
    ensures command { IfOk result (λ command. command ≡ command_of CommandName.Certify pairs.now) }
    ensures infinite { IfOk result (λ command. HasInfiniteWords command) }
{
    let spec = file_name(alloc, Key::Spec, pairs)?;
    let trace = file_name(alloc, Key::Trace, pairs)?;
    let cert = file_name(alloc, Key::Cert, pairs)?;
    Ok(Command::Certify { spec, trace, cert })
}

fn trial_of(pairs: &[CommandWord]) -> Command
    ensures command { result ≡ command_of CommandName.Trial pairs.now }
    ensures infinite { HasInfiniteWords result }
{
    Command::Trial {
        clocks: number_of(CommandName::Trial, Key::Clocks, pairs) as u32,
        steps: number_of(CommandName::Trial, Key::Steps, pairs),
        seed: number_of(CommandName::Trial, Key::Seed, pairs),
        workers: workers_of(CommandName::Trial, pairs),
    }
}

fn periodic_of(alloc: Global, pairs: &[CommandWord]) -> Result<Command, Memory>
    ensures command { IfOk result (λ command. command ≡ command_of CommandName.Periodic pairs.now) }
    ensures infinite { IfOk result (λ command. HasInfiniteWords command) }
{
    let left = word_in(alloc, Key::Left, pairs)?;
    let right = word_in(alloc, Key::Right, pairs)?;
    let relation = relation_in(pairs);
    Ok(Command::Periodic {
        left,
        right,
        relation,
    })
}

fn explain_of(alloc: Global, pairs: &[CommandWord]) -> Result<Command, Memory>
    ensures command { IfOk result (λ command. command ≡ command_of CommandName.Explain pairs.now) }
    ensures infinite { IfOk result (λ command. HasInfiniteWords command) }
{
    let spec = file_name(alloc, Key::Spec, pairs)?;
    let trace = file_name(alloc, Key::Trace, pairs)?;
    let cert = file_name(alloc, Key::Cert, pairs)?;
    Ok(Command::Explain { spec, trace, cert })
}

fn session_of(alloc: Global, pairs: &[CommandWord]) -> Result<Command, Memory>
    ensures command { IfOk result (λ command. command ≡ command_of CommandName.Session pairs.now) }
    ensures infinite { IfOk result (λ command. HasInfiniteWords command) }
{
    let spec = file_name(alloc, Key::Spec, pairs)?;
    let policy = policy_in(pairs);
    let seed = number_of(CommandName::Session, Key::Seed, pairs);
    Ok(Command::Session { spec, policy, seed })
}
