//! Clocks with their ticks and variables.

use crate::binding::{Bindings, put_path};
use crate::case::Case;
use ccsl_base::Memory;
use ccsl_causes::clock_name;
use ccsl_follow::Follow;
use ccsl_page::{Page, Paint, Piece};
use ccsl_scopes::Header;

fn ticks_word(count: u64) -> &'static str {
    if count == 1 { " tick" } else { " ticks" }
}

// What stands in front of the variable of a clock that is declared, or defined.
fn bound_word(is_declared: bool) -> &'static str {
    if is_declared {
        ", is "
    } else {
        ", recorded as "
    }
}

fn put_text(page: &mut Page, text: &str) -> Result<(), Memory> {
    page.put(&[Piece::Text(text)])
}

// A clock with its ticks, and the variable that it is bound to.
fn put_clock(
    page: &mut Page,
    case: &Case<'_>,
    clock: u32,
    count: u64,
    margin: usize,
    bound: Option<(&Header, &Bindings)>,
) -> Result<(), Memory> {
    page.put(&[
        Piece::Text("  "),
        Piece::Name(clock_name(case.system, clock)),
    ])?;
    page.fill(
        b' ',
        margin.saturating_sub(clock_name(case.system, clock).len()),
    )?;
    page.put(&[Piece::Text("  "), Piece::Number(count)])?;
    put_text(page, ticks_word(count))?;
    if let Some((header, bindings)) = bound
        && let Some(variable) = bindings.of(header, clock)
    {
        let is_declared = clock < case.system.scope().declared;
        put_text(page, bound_word(is_declared))?;
        put_path(case.alloc, page, variable)?;
    }
    page.put_line(&[])
}

/// Puts the clocks of a list with their ticks, and which variables they are bound to.
pub(crate) fn put_clocks(
    page: &mut Page,
    case: &Case<'_>,
    rows: &[u32],
    follow: &Follow<'_>,
    header: Option<&Header>,
) -> Result<(), Memory> {
    let mut margin = 0;
    for clock in rows {
        margin = margin.max(clock_name(case.system, *clock).len());
    }
    match header {
        Some(header) => {
            let bindings = Bindings::find(case.alloc, case.system, header)?;
            for clock in rows {
                let count = follow.counts.of(*clock);
                put_clock(page, case, *clock, count, margin, Some((header, &bindings)))?;
            }
        }
        None => {
            for clock in rows {
                put_clock(page, case, *clock, follow.counts.of(*clock), margin, None)?;
            }
        }
    }
    Ok(())
}

/// Puts the clocks of the system that never ticked.
pub(crate) fn put_silent(
    page: &mut Page,
    case: &Case<'_>,
    follow: &Follow<'_>,
) -> Result<(), Memory> {
    for clock in 0..case.system.written() {
        if follow.counts.of(clock) == 0 {
            let name = clock_name(case.system, clock);
            page.paint(Paint::Notice)?;
            page.put(&[Piece::Text("  never ticked: ")])?;
            page.paint(Paint::Plain)?;
            page.put_line(&[Piece::Name(name)])?;
        }
    }
    Ok(())
}
