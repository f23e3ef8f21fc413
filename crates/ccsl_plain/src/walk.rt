//! An expression followed over a list of steps.

ghost use Rattle.std.specs.Prelude.{◌≡◌, ◌≤◌, [], IfOk, map, length, suc};
ghost use Rattle.ccsl_kernel.specs.Plain.{plain_expr};
ghost use Rattle.ccsl_kernel.specs.Lives.{steps};
ghost use Rattle.ccsl_plain.specs.Course.{opening, grown, course_life};
ghost use Rattle.ccsl_plain.specs.Held.{held, gone_in};
ghost use Rattle.ccsl_kernel.specs.Fitting.{ExprFits};
ghost use Rattle.ccsl_kernel.specs.Deep.{deep};

use crate::advance::advanced;
use crate::course::Course;
use crate::deaths::Deaths;
use crate::opening::opened;
use ccsl_base::{ClockSet, MAX_LEVELS, Memory};
use ccsl_kernel::{Expr, System};
use std::alloc::Global;

/// Where an expression has come to, and whether it was dead at each position from 0 on.
#[derive(Drop)]
pub struct Walk<'s> {
    pub course: Course<'s>,
    pub deaths: Vec<bool>,
}

/// Follows an expression that is born at 0, where it is known when clocks are dead.
pub fn followed<'s>(
    alloc: Global,
    system: &'s System,
    e: &'s Expr,
    list: &[ClockSet],
    deaths: &Deaths,
) -> Result<Walk<'s>, Memory>
    requires shallow { deep (plain_expr e.now) ≤ suc MAX_LEVELS }
    requires offsets { ExprFits system.now.words (plain_expr e.now) }
    ensures course { let course = opening system.now (plain_expr e.now) [] in
        IfOk result (λ walk. held system.now.words walk.course ≡
        grown system.now list.now (gone_in deaths.now) course 0 (length list.now)) }
    ensures deaths { let life = course_life system.now list.now
        (gone_in deaths.now) (plain_expr e.now) [] in
        IfOk result (λ walk. walk.deaths.items ≡
        map (λ n. (life 0 n).dead) (steps 0 (suc (length list.now)))) }
{
    let words = system.words();
    let mut course = opened(alloc, system, system.groups().len(), e, &[])?;
    let mut column = Vec::with_capacity(alloc, list.len() + 1)?;
    column.push(course.is_dead(words, deaths, 0))?;
    for (i, step) in list.iter().enumerate() {
        let moved = advanced(alloc, system, course, step, deaths, i + 1)?;
        column.push(moved.course.is_dead(words, deaths, i + 1))?;
        course = moved.course;
    }
    Ok(Walk {
        course,
        deaths: column,
    })
}
