//! The choice of a step.

ghost use Rattle.std.specs.Prelude.{◌≡◌, ◌<◌, ◌≤◌, ◌^◌, map, length, IfOk};
ghost use Rattle.ccsl_formula.specs.Plain.{plain};
ghost use Rattle.ccsl_solve.specs.Posed.{AllBelow};
ghost use Rattle.ccsl_policy.specs.Chosen.{Chooses};
ghost use Rattle.ccsl_policy.specs.Ranks.{IsRanked, wish};

use crate::policies::{Policy, preferred};
use ccsl_base::{ClockSet, MAX_CLOCKS, Memory, Seq};
use ccsl_formula::{Formula, Partial, Scope};
use ccsl_refute::{Line, Lit};
use ccsl_solve::{Answer, solve_by};
use std::alloc::Global;

/// What a choice answers.
#[derive(Drop)]
pub enum Choice {
    /// The best set.
    Step(ClockSet),
    /// There is no set, as the lines show.
    Deadlock(Seq<Line>),
}

/// The declared clocks, each behind its word, by priority.
fn ranked(alloc: Global, words: &[u32]) -> Result<Vec<(u32, u32)>, Memory>
    requires { length words.now ≤ MAX_CLOCKS }
    ensures { IfOk result (λ v. IsRanked words.now v.items) }
{
    let mut ranked = Vec::with_capacity(alloc, words.len())?;
    for clock in 0..words.len() as u32 {
        ranked.push((words[clock as usize], clock))?;
    }
    ranked.sort()?;
    Ok(ranked)
}

/// What is wished for a clock with a word.
fn wish(policy: Policy, rank: (u32, u32)) -> Lit
    ensures { result ≡ wish policy rank }
{
    Lit {
        clock: rank.1,
        positive: preferred(policy, rank.0),
    }
}

/// The wishes for clocks with words, in the same order.
fn wishes(alloc: Global, policy: Policy, ranked: &[(u32, u32)]) -> Result<Vec<Lit>, Memory>
    ensures { IfOk result (λ v. v.items ≡ map (wish policy) ranked.now) }
{
    let mut wishes = Vec::with_capacity(alloc, ranked.len())?;
    for rank in ranked {
        wishes.push(wish(policy, *rank))?;
    }
    Ok(wishes)
}

/// The best of the sets with a declared member that satisfy all formulas, by the words of the declared clocks.
pub fn choose(
    alloc: Global,
    formulas: &[Formula],
    scope: &Scope,
    policy: Policy,
    words: &[u32],
) -> Result<Choice, Memory>
    requires declared { scope.now.declared ≤ scope.now.named }
    requires named { scope.now.named ≤ MAX_CLOCKS }
    requires reads { AllBelow scope.now.named (map plain formulas.now) }
    requires few { length formulas.now < 2 ^ 32 }
    requires words { length words.now ≡ scope.now.declared }
    ensures { IfOk result
        (λ choice. Chooses scope.now (map plain formulas.now) policy words.now choice) }
{
    let ranked = ranked(alloc, words)?;
    let wishes = wishes(alloc, policy, &ranked)?;
    match solve_by(alloc, formulas, scope, &Partial::empty(), &wishes)? {
        Answer::Step(set) => Ok(Choice::Step(set)),
        Answer::Refuted(lines) => Ok(Choice::Deadlock(lines)),
    }
}
