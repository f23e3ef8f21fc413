//! Why a constraint or a definition fails.

use crate::counts::Counts;
use crate::names::clock_name;
use ccsl_base::{ClockSet, Memory};
use ccsl_kernel::{Constraint, RelationKind, System};
use ccsl_page::{Page, Piece};

/// A step at which an item fails: the full step, and the counts before it.
#[derive(Clone, Copy)]
pub struct Step<'a> {
    pub ticks: &'a ClockSet,
    pub before: &'a Counts,
}

// How often.
fn put_times(page: &mut Page, count: u64) -> Result<(), Memory> {
    match count {
        0 => page.put(&[Piece::Text("never ticked")]),
        1 => page.put(&[Piece::Text("ticked once")]),
        2 => page.put(&[Piece::Text("ticked twice")]),
        _ => page.put(&[
            Piece::Text("ticked "),
            Piece::Number(count),
            Piece::Text(" times"),
        ]),
    }
}

// The name of the left clock, what is said between, and the name of the right one.
fn put_between(
    page: &mut Page,
    system: &System,
    left: u32,
    text: &str,
    right: u32,
) -> Result<(), Memory> {
    page.put(&[
        Piece::Name(clock_name(system, left)),
        Piece::Text(text),
        Piece::Name(clock_name(system, right)),
    ])
}

/// Puts a constraint as the language writes it.
pub fn put_constraint(
    page: &mut Page,
    system: &System,
    constraint: &Constraint,
) -> Result<(), Memory> {
    let (left, right) = (constraint.left, constraint.right);
    match constraint.kind {
        RelationKind::Subclock => put_between(page, system, left, " subclock ", right),
        RelationKind::Coincides => put_between(page, system, left, " coincides ", right),
        RelationKind::Excludes => put_between(page, system, left, " excludes ", right),
        RelationKind::Precedes => put_between(page, system, left, " precedes ", right),
        RelationKind::PrecedesWeakly => {
            put_between(page, system, left, " precedes weakly ", right)
        }
        RelationKind::PrecedesWithin(most) => page.put(&[
            Piece::Name(clock_name(system, left)),
            Piece::Text(" precedes within "),
            Piece::Number(u64::from(most)),
            Piece::Text(" "),
            Piece::Name(clock_name(system, right)),
        ]),
    }
}

// The right clock is at a tick that the left one has not reached.
fn put_early(
    page: &mut Page,
    system: &System,
    constraint: &Constraint,
    before: &Counts,
) -> Result<(), Memory> {
    page.put(&[
        Piece::Name(clock_name(system, constraint.right)),
        Piece::Text(" is at its tick "),
        Piece::Number(before.of(constraint.right).saturating_add(1)),
        Piece::Text(", and "),
        Piece::Name(clock_name(system, constraint.left)),
        Piece::Text(" has "),
    ])?;
    put_times(page, before.of(constraint.left))
}

// The left clock would be too far ahead.
fn put_ahead(
    page: &mut Page,
    system: &System,
    constraint: &Constraint,
    before: &Counts,
) -> Result<(), Memory> {
    let (left, right) = (before.of(constraint.left), before.of(constraint.right));
    page.put(&[
        Piece::Name(clock_name(system, constraint.left)),
        Piece::Text(" is at its tick "),
        Piece::Number(left.saturating_add(1)),
        Piece::Text(", "),
        Piece::Number(left.saturating_add(1).saturating_sub(right)),
        Piece::Text(" ahead of "),
        Piece::Name(clock_name(system, constraint.right)),
    ])
}

// One of two clocks ticks, and the other does not.
fn put_alone(
    page: &mut Page,
    system: &System,
    ticks: &ClockSet,
    left: u32,
    right: u32,
) -> Result<(), Memory> {
    if ticks.has(left) {
        put_between(page, system, left, " ticks without ", right)
    } else {
        put_between(page, system, right, " ticks without ", left)
    }
}

/// Puts why a constraint fails in a step.
pub fn put_cause(
    page: &mut Page,
    system: &System,
    constraint: &Constraint,
    step: &Step<'_>,
) -> Result<(), Memory> {
    let (left, right) = (constraint.left, constraint.right);
    match constraint.kind {
        RelationKind::Subclock | RelationKind::Coincides => {
            put_alone(page, system, step.ticks, left, right)
        }
        RelationKind::Excludes => {
            put_between(page, system, left, " ticks together with ", right)
        }
        RelationKind::Precedes => {
            put_early(page, system, constraint, step.before)?;
            page.put(&[Piece::Text(" before")])
        }
        RelationKind::PrecedesWeakly => {
            put_early(page, system, constraint, step.before)?;
            page.put(&[Piece::Text(", this step included")])
        }
        RelationKind::PrecedesWithin(_) if step.ticks.has(right) => {
            put_early(page, system, constraint, step.before)?;
            page.put(&[Piece::Text(" before")])
        }
        RelationKind::PrecedesWithin(_) => put_ahead(page, system, constraint, step.before),
    }
}
