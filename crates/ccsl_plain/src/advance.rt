//! The course of an expression after one more step.

ghost use Rattle.std.specs.Prelude.{◌≡◌, ℕ, Bool, [], ◌∷◌, ◌++◌, IfOk, length};
ghost use Rattle.ccsl_plain.specs.Course.{next, opening, tick_of};
ghost use Rattle.ccsl_plain.specs.Held.{held, gone_in, IsReady};

use crate::course::Course;
use crate::deaths::Deaths;
use crate::opening::opened;
use ccsl_base::{ClockSet, Memory};
use ccsl_kernel::System;
use std::alloc::Global;

/// A course after a step, and whether the expression ticked in it.
#[derive(Drop)]
pub struct Moved<'s> {
    pub course: Course<'s>,
    pub tick: bool,
}

/// The course after a step, where the deaths at the position `at` are those after it. A `then` whose left side has died
/// is its right side, born now.
#[cycle(advance)]
pub fn advanced<'s>(
    alloc: Global,
    system: &'s System,
    course: Course<'s>,
    step: &ClockSet,
    deaths: &Deaths,
    at: usize,
) -> Result<Moved<'s>, Memory>
    requires { IsReady system.now.words (held system.now.words course) }
    ensures tick { IfOk result (λ moved. (gone : ℕ → Bool) →
        moved.tick ≡ tick_of step.now gone (held system.now.words course.entry)) }
    ensures next { IfOk result (λ moved. (gone : ℕ → Bool) →
        held system.now.words moved.course ≡
        next system.now step.now gone (gone_in deaths.now at)
        (held system.now.words course.entry)) }
    ensures ready { IfOk result (λ moved.
        IsReady system.now.words (held system.now.words moved.course)) }
{
    let words = system.words();
    match course {
        Course::Name(x) => Ok(Moved {
            course: Course::Name(x),
            tick: step.has(x),
        }),
        Course::Never => Ok(Moved {
            course: Course::Never,
            tick: false,
        }),
        Course::Unary(operator, a, ticks) => {
            let open = operator.is_open(words, &ticks);
            let a = operand_advanced(alloc, system, a, ticks, step, deaths, at)?;
            Ok(Moved {
                course: Course::Unary(operator, a.course, a.ticks),
                tick: open && a.tick,
            })
        }
        Course::Binary(operator, a, p, d, q) => {
            let connective = operator.connective(&p, &q);
            let a = operand_advanced(alloc, system, a, p, step, deaths, at)?;
            let d = operand_advanced(alloc, system, d, q, step, deaths, at)?;
            Ok(Moved {
                course: Course::Binary(operator, a.course, a.ticks, d.course, d.ticks),
                tick: connective.ticks(a.tick, d.tick),
            })
        }
        Course::Then(a, d, values) => {
            let Moved { course: a, tick } = advanced(
                alloc,
                system,
                Box::into_inner(a),
                step,
                deaths,
                at,
            )?;
            if a.is_dead(words, deaths, at) {
                drop(a);
                let course = opened(alloc, system, system.groups().len(), d, &values)?;
                Ok(Moved { course, tick })
            } else {
                let course = Course::Then(Box::new(alloc, a)?, d, values);
                Ok(Moved { course, tick })
            }
        }
    }
}

/// An operand after a step, at which steps it ticked, and whether in this one.
#[derive(Drop)]
struct Operand<'s> {
    course: Box<Course<'s>>,
    ticks: Vec<bool>,
    tick: bool,
}

// An operand after a step, with its tick behind those before. It is boxed where it is made: to the prover, an early
// return then drops it by a single call.
#[cycle(advance)]
fn operand_advanced<'s>(
    alloc: Global,
    system: &'s System,
    a: Box<Course<'s>>,
    mut ticks: Vec<bool>,
    step: &ClockSet,
    deaths: &Deaths,
    at: usize,
) -> Result<Operand<'s>, Memory>
    requires { IsReady system.now.words (held system.now.words a.value) }
    ensures tick { IfOk result (λ o. (gone : ℕ → Bool) →
        o.tick ≡ tick_of step.now gone (held system.now.words a.entry.value)) }
    ensures ticks { IfOk result (λ o. o.ticks.items ≡ ticks.items ++ o.tick ∷ []) }
    ensures next { IfOk result (λ o. (gone : ℕ → Bool) →
        held system.now.words o.course.value ≡
        next system.now step.now gone (gone_in deaths.now at)
        (held system.now.words a.entry.value)) }
    ensures ready { IfOk result (λ o.
        IsReady system.now.words (held system.now.words o.course.value)) }
{
    let Moved { course, tick } = advanced(alloc, system, Box::into_inner(a), step, deaths, at)?;
    let course = Box::new(alloc, course)?;
    ticks.push(tick)?;
    Ok(Operand {
        course,
        ticks,
        tick,
    })
}
