//! The variables that the paths of events mean, and what each event waits for.

ghost use Rattle.std.specs.Prelude.{◌≡◌, [], ◌∷◌, map, IfOk};
ghost use Rattle.ccsl_triggers.specs.Sized.{filler};
ghost use Rattle.ccsl_event_file.specs.Parsing.{path_in, condition_in, trigger_in, conditions_in, event_in};
ghost use Rattle.ccsl_events.specs.Binding.{target, bit, recorded, compared, source_of, part_of, part_with, widened, goal_on, goal_with, goal, trigger, watch};
ghost use Rattle.ccsl_events.specs.Binding.{each, is_same, number_in};
ghost use Rattle.ccsl_events.specs.Binds.{seen_part, seen_goal, Binds, BindsGoal, BindsTrigger, BindsGoals, BindsWatch, BindsWatches};

use ccsl_base::Memory;
use ccsl_event_file::{Condition, Event, EventFault, Located, Trigger as Wanted};
use ccsl_scopes::{Kind, Resolution, Target, Variable, resolve};
use ccsl_triggers::{Goal, Part, Trigger, Watch};
use std::alloc::Global;

/// A variable that is read: the number of its code, and its size.
#[derive(Clone, Copy)]
pub(crate) struct Source {
    pub code: u32,
    pub size: u32,
}

/// The variables that are read by the events so far, each once.
pub(crate) struct Binder {
    alloc: Global,
    pub sources: Vec<Source>,
}

// By hand and not derived: to the prover, an early return then drops one by a single call.
impl Drop for Binder {
    fn drop(self) {
        let Binder {
            alloc: _,
            sources: _sources,
        } = self;
    }
}

fn target(path: &Located, variables: &[Variable]) -> Result<Target, EventFault>
    ensures { result ≡ target variables.now (path_in path.now) }
{
    let at = path.at;
    match resolve(&path.path, variables) {
        Resolution::Found(target) => Ok(target),
        Resolution::Unknown => Err(EventFault::Unknown { at }),
        Resolution::Ambiguous => Err(EventFault::Ambiguous { at }),
    }
}

// A path of one bit.
fn bit(path: &Located, variables: &[Variable]) -> Result<Target, EventFault>
    ensures { result ≡ bit variables.now (path_in path.now) }
{
    let target = target(path, variables)?;
    if target.bits.width != 1 {
        return Err(EventFault::NotOneBit { at: path.at });
    }
    Ok(target)
}

// A path of an event.
fn recorded(path: &Located, variables: &[Variable]) -> Result<Target, EventFault>
    ensures { result ≡ recorded variables.now (path_in path.now) }
{
    let target = target(path, variables)?;
    match target.kind {
        Kind::Event => Ok(target),
        Kind::Bits | Kind::Other => Err(EventFault::NoEvent { at: path.at }),
    }
}

// The path of a condition, which has at least as many bits as the value.
fn compared(condition: &Condition, variables: &[Variable]) -> Result<Target, EventFault>
    ensures { result ≡ compared variables.now (condition_in condition.now) }
{
    let target = target(&condition.path, variables)?;
    if condition.letters.len() > target.bits.width as usize {
        return Err(EventFault::TooWide { at: condition.at });
    }
    Ok(target)
}

// What extends a value on the left.
fn filler(letters: &[u8]) -> u8
    ensures { result ≡ filler letters.now }
{
    match letters.first() {
        Some(b'1') => b'0',
        Some(b) => *b,
        None => b'0',
    }
}

// A value of so many bits.
fn widened(alloc: Global, letters: &[u8], width: usize) -> Result<Vec<u8>, Memory>
    ensures { IfOk result (λ v. v.items ≡ widened width letters.now) }
{
    let missing = width.saturating_sub(letters.len());
    let mut value = vec![in alloc; filler(letters); missing]?;
    value.extend_from_slice(letters)?;
    Ok(value)
}

fn is_same(a: Source, b: Source) -> bool
    ensures { result ≡ is_same a b }
{
    a.code == b.code && a.size == b.size
}

// The place of a variable among some, or how many these are.
fn number_in(sources: &[Source], source: Source) -> usize
    ensures { result ≡ number_in sources.now source }
{
    let mut number = 0;
    for known in sources {
        if is_same(source, *known) {
            return number;
        }
        number += 1;
    }
    number
}

fn source_of(target: Target) -> Source
    ensures { result ≡ source_of target }
{
    Source {
        code: target.code,
        size: target.size,
    }
}

impl Binder {
    pub(crate) fn new(alloc: Global) -> Binder
        ensures { result.sources.items ≡ [] }
    {
        Binder {
            alloc,
            sources: Vec::new(alloc),
        }
    }

    // The number of a variable, which is read from here on.
    fn number(&mut self, source: Source) -> Result<usize, Memory>
        ensures { IfOk result (λ n. Binds n (λ name s. name s) source (source ∷ [])
            self.old.sources.items self.new.sources.items) }
    {
        let number = number_in(self.sources.as_slice(), source);
        if number == self.sources.len() {
            self.sources.push(source)?;
        }
        Ok(number)
    }

    fn part(&mut self, target: Target) -> Result<Part, Memory>
        ensures { IfOk result
            (λ p. Binds (seen_part p) part_with (part_of target) (source_of target ∷ [])
            self.old.sources.items self.new.sources.items) }
    {
        let signal = self.number(source_of(target))?;
        Ok(Part {
            signal,
            bits: target.bits,
        })
    }

    fn goal_on(&mut self, condition: &Condition, target: Target) -> Result<Goal, Memory>
        ensures { IfOk result
            (λ g. Binds (seen_goal g) goal_with (goal_on (condition_in condition.now) target)
            (source_of target ∷ []) self.old.sources.items self.new.sources.items) }
    {
        let letters = widened(
            self.alloc,
            condition.letters.as_slice(),
            target.bits.width as usize,
        )?;
        Ok(Goal {
            part: self.part(target)?,
            is_equal: condition.is_equal,
            letters,
        })
    }

    fn goal(&mut self, condition: &Condition, variables: &[Variable]) -> Result<Goal, EventFault>
        ensures { BindsGoal result (goal variables.now (condition_in condition.now))
            self.old.sources.items self.new.sources.items }
    {
        let target = compared(condition, variables)?;
        let goal = self.goal_on(condition, target)?;
        Ok(goal)
    }

    fn trigger(&mut self, wanted: &Wanted, variables: &[Variable]) -> Result<Trigger, EventFault>
        ensures { BindsTrigger result (trigger variables.now (trigger_in wanted.now))
            self.old.sources.items self.new.sources.items }
    {
        match wanted {
            Wanted::Rise(path) => {
                let target = bit(path, variables)?;
                let part = self.part(target)?;
                Ok(Trigger::Rise(part))
            }
            Wanted::Fall(path) => {
                let target = bit(path, variables)?;
                let part = self.part(target)?;
                Ok(Trigger::Fall(part))
            }
            Wanted::Change(path) => {
                let target = target(path, variables)?;
                let part = self.part(target)?;
                Ok(Trigger::Change(part))
            }
            Wanted::Becomes(condition) => {
                let goal = self.goal(condition, variables)?;
                Ok(Trigger::Becomes(goal))
            }
            Wanted::Record(path) => {
                let target = recorded(path, variables)?;
                let number = self.number(source_of(target))?;
                Ok(Trigger::Record(number))
            }
        }
    }

    fn goals(
        &mut self,
        conditions: &[Condition],
        variables: &[Variable],
    ) -> Result<Vec<Goal>, EventFault>
        ensures { BindsGoals result (each (goal variables.now) (conditions_in conditions.now))
            self.old.sources.items self.new.sources.items }
    {
        let mut goals = Vec::new(self.alloc);
        for condition in conditions {
            let goal = self.goal(condition, variables)?;
            goals.push(goal)?;
        }
        Ok(goals)
    }

    fn watch(&mut self, event: &Event, variables: &[Variable]) -> Result<Watch, EventFault>
        ensures { BindsWatch result (watch variables.now (event_in event.now))
            self.old.sources.items self.new.sources.items }
    {
        let trigger = self.trigger(&event.trigger, variables)?;
        let conditions = self.goals(event.conditions.as_slice(), variables)?;
        Ok(Watch {
            trigger,
            conditions,
        })
    }

    /// What each event waits for, or the first fault.
    pub(crate) fn watches(
        &mut self,
        events: &[Event],
        variables: &[Variable],
    ) -> Result<Vec<Watch>, EventFault>
        ensures { BindsWatches result (each (watch variables.now) (map event_in events.now))
            self.old.sources.items self.new.sources.items }
    {
        let mut watches = Vec::new(self.alloc);
        for event in events {
            let watch = self.watch(event, variables)?;
            watches.push(watch)?;
        }
        Ok(watches)
    }
}
