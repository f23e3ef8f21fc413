//! Items over a stretch of rows, one item after the other, with what is known of the step that each row completes.

ghost use Rattle.std.specs.Prelude.{◌≡◌, ◌+◌, ◌<◌, ◌≤◌, ◌^◌, length, All};
ghost use Rattle.ccsl_relate.specs.declared.watched.Watched.TheVariants.{Relation, Definition};
ghost use Rattle.ccsl_relate.specs.Few.{HasRoomFor};
ghost use Rattle.ccsl_relate.specs.Stretch.{TakesRows, TakeRows};

use crate::violation::Violation;
use crate::watched::{Related, Watched};
use ccsl_base::Row;
use ccsl_kernel::RelationKind;

// The first of so many steps in which a relation of this kind fails. Where it fails in none, it goes on by them.
#[inline(always)]
fn first_row_as(
    related: &mut Related,
    kind: RelationKind,
    steps: &[Row],
    end: usize,
) -> Option<usize>
    requires kind { kind ≡ related.old.kind }
    requires inside { end ≤ length steps.now }
    requires room { HasRoomFor (length steps.now) (Relation related.old) }
    ensures { TakesRows steps.now steps.now end
        (Relation related.old) (Relation related.new) result }
{
    let mut now = *related;
    now.kind = kind;
    for i in 0..end {
        if now.fails(&steps[i].ticks) {
            return Some(i);
        }
    }
    *related = now;
    None
}

// Each kind has a loop of its own: there it is a constant, and no step asks for it.
fn first_row_of(related: &mut Related, steps: &[Row], end: usize) -> Option<usize>
    requires inside { end ≤ length steps.now }
    requires room { HasRoomFor (length steps.now) (Relation related.old) }
    ensures { TakesRows steps.now steps.now end
        (Relation related.old) (Relation related.new) result }
{
    match related.kind {
        RelationKind::Subclock => first_row_as(related, RelationKind::Subclock, steps, end),
        RelationKind::Coincides => first_row_as(related, RelationKind::Coincides, steps, end),
        RelationKind::Excludes => first_row_as(related, RelationKind::Excludes, steps, end),
        RelationKind::Precedes => first_row_as(related, RelationKind::Precedes, steps, end),
        RelationKind::PrecedesWeakly => {
            first_row_as(related, RelationKind::PrecedesWeakly, steps, end)
        }
        RelationKind::PrecedesWithin(bound) => {
            first_row_as(related, RelationKind::PrecedesWithin(bound), steps, end)
        }
    }
}

// The first of so many rows from `from` on at which a recorded definition fails.
fn first_difference(clock: u32, rows: &[Row], steps: &[Row], end: usize) -> Option<usize>
    requires same { length rows.now ≡ length steps.now }
    requires end { end ≤ length steps.now }
    ensures { TakesRows rows.now steps.now end
        (Definition clock) (Definition clock) result }
{
    for i in 0..end {
        if rows[i].ticks.has(clock) != steps[i].ticks.has(clock) {
            return Some(i);
        }
    }
    None
}

// The first of so many rows from `from` on at which an item fails. Where it fails at none, it goes on by their steps.
fn first_row(watched: &mut Watched, rows: &[Row], steps: &[Row], end: usize) -> Option<usize>
    requires same { length rows.now ≡ length steps.now }
    requires end { end ≤ length steps.now }
    requires room { HasRoomFor (length steps.now) watched.old }
    ensures { TakesRows rows.now steps.now end
        watched.old watched.new result }
{
    match watched {
        Watched::Nothing => None,
        Watched::Definition(clock) => first_difference(*clock, rows, steps, end),
        Watched::Relation(related) => first_row_of(related, steps, end),
    }
}

/// The first violation of some items, of which the first one has number `start`, in some rows. Each has a step beside
/// it, what is known of the one that it completes, and so many others came before them. Where no item fails, all go on
/// by the steps.
pub(crate) fn first_violation(
    kept: &mut [Watched],
    rows: &[Row],
    steps: &[Row],
    others: u64,
    start: u32,
) -> Option<Violation>
    requires same { length rows.now ≡ length steps.now }
    requires few { others + length steps.now < 2 ^ 64 }
    requires items { start + length kept.old < 2 ^ 32 }
    requires room { All (HasRoomFor (length steps.now)) kept.old }
    ensures { TakeRows rows.now steps.now others start kept.old kept.new result }
{
    let mut end = steps.len();
    let mut first = None;
    for i in 0..kept.len() {
        match first_row(&mut kept[i], rows, steps, end) {
            None => {}
            Some(row) => {
                end = row;
                first = Some(Violation {
                    step: others + row as u64,
                    time: rows[row].time,
                    item: start + i as u32,
                });
            }
        }
    }
    first
}
