//! The last of some steps.

ghost use Rattle.std.specs.Prelude.{◌≡◌};

use ccsl_base::{ClockSet, Memory};
use ccsl_page::Column;
use std::alloc::Global;

/// The same step once more.
pub(crate) fn copy_of(column: &Column) -> Column
    ensures { result ≡ column.now }
{
    Column {
        step: column.step,
        time: column.time,
        ticks: column.ticks.copy(),
    }
}

// Whether two sets have a member in common.
fn meets(ticks: &ClockSet, clocks: &ClockSet) -> bool {
    ticks.members().any(|clock| clocks.has(clock))
}

/// The last of some steps in which one of some clocks ticks, so many at most, in their order.
pub(crate) fn last_of(
    alloc: Global,
    columns: &[Column],
    clocks: &ClockSet,
    most: usize,
) -> Result<Vec<Column>, Memory> {
    let mut chosen = Vec::new(alloc);
    for column in columns.iter().rev() {
        if chosen.len() < most && meets(&column.ticks, clocks) {
            chosen.push(copy_of(column))?;
        }
    }
    chosen.reverse();
    Ok(chosen)
}
