//! An item that fails, and why.

use crate::case::Case;
use ccsl_base::{ClockSet, Memory};
use ccsl_causes::{Step, clock_name, put_cause, put_constraint};
use ccsl_follow::Follow;
use ccsl_kernel::Constraint;
use ccsl_page::{Page, Piece, Scale};

// The constraint that an item is. None where it is a definition.
fn constraint_of<'a>(case: &Case<'a>, item: u32) -> Option<&'a Constraint> {
    let number = item.checked_sub(case.system.definitions())?;
    if number < case.system.constraints() {
        Some(case.system.constraint(number))
    } else {
        None
    }
}

// The item as the language writes it, behind the mark under its line.
fn put_item(page: &mut Page, case: &Case<'_>, item: u32) -> Result<(), Memory> {
    let mut said = Page::new(case.alloc);
    if let Some(constraint) = constraint_of(case, item) {
        put_constraint(&mut said, case.system, constraint)?;
        let label = constraint.label.bytes();
        if !label.is_empty() {
            said.put(&[Piece::Text(", in "), Piece::Name(label)])?;
        }
    }
    case.put_item(page, item, &[Piece::Name(said.bytes())])
}

// Why a definition fails in a step.
fn put_differing(
    page: &mut Page,
    case: &Case<'_>,
    item: u32,
    ticks: &ClockSet,
) -> Result<(), Memory> {
    let clock = case.system.scope().declared.saturating_add(item);
    let text = if ticks.has(clock) {
        " ticks here by its definition, and is recorded not to"
    } else {
        " is recorded to tick here, and does not by its definition"
    };
    page.put(&[
        Piece::Name(clock_name(case.system, clock)),
        Piece::Text(text),
    ])
}

// Why an item fails at the step at which the trace was left.
fn put_why(page: &mut Page, case: &Case<'_>, item: u32, follow: &Follow<'_>) -> Result<(), Memory> {
    let Some(broken) = &follow.broken else {
        return Ok(());
    };
    page.put(&[Piece::Text("  ")])?;
    match constraint_of(case, item) {
        Some(constraint) => {
            let step = Step {
                ticks: &broken.ticks,
                before: &follow.counts,
            };
            put_cause(page, case.system, constraint, &step)?;
        }
        None => put_differing(page, case, item, &broken.ticks)?,
    }
    page.put_line(&[])
}

fn put_time(page: &mut Page, step: u64, time: u64, scale: Scale) -> Result<(), Memory> {
    let [number, blank, unit] = scale.pieces(time);
    page.put_line(&[
        Piece::Text("  at step "),
        Piece::Number(step),
        Piece::Text(", time "),
        number,
        blank,
        unit,
    ])
}

// The lines of the definitions among some clocks.
fn put_definitions(page: &mut Page, case: &Case<'_>, own: &ClockSet) -> Result<(), Memory> {
    let declared = case.system.scope().declared;
    for clock in own.members() {
        if clock >= declared {
            let name = clock_name(case.system, clock);
            case.put_item(page, clock - declared, &[Piece::Name(name)])?;
        }
    }
    Ok(())
}

/// Puts an item and why it fails, with the definitions of the clocks that it names itself.
pub(crate) fn put_fault(
    page: &mut Page,
    case: &Case<'_>,
    item: u32,
    own: &ClockSet,
    follow: &Follow<'_>,
    scale: Scale,
) -> Result<(), Memory> {
    put_item(page, case, item)?;
    put_why(page, case, item, follow)?;
    if let Some(broken) = &follow.broken {
        put_time(page, broken.step, broken.time, scale)?;
    }
    if item >= case.system.definitions() {
        put_definitions(page, case, own)?;
    }
    page.put_line(&[])
}
