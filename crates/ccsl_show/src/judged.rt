//! What is shown of a trace that was judged.

ghost use Rattle.std.specs.Prelude.{OnOk};
ghost use Rattle.ccsl_edge.specs.declared.slot.Slot.TheVariants.{Trace};
ghost use Rattle.ccsl_edge.specs.Counts.{SameCounts};
ghost use Rattle.ccsl_follow.specs.OnlyReads.{OnlyReads};

use crate::case::Case;
use crate::clocks::{put_clocks, put_silent};
use crate::fault::put_fault;
use ccsl_base::{ClockSet, HashKeys, Memory};
use ccsl_causes::put_pending;
use ccsl_edge::World;
use ccsl_follow::{Follow, Stop, Until, followed, read_header};
use ccsl_page::{Page, put_ticks};
use ccsl_scopes::Header;
use ccsl_waves::{View, clocks_of, header_scale, rows_of, set_of};

/// The most steps that are drawn in front of the one at fault.
const DRAWN: usize = 10;

// What is shown of an item that is violated at the step at which a trace was left.
fn put_broken(
    page: &mut Page,
    case: &Case<'_>,
    item: u32,
    own: &ClockSet,
    follow: &Follow<'_>,
    header: Option<&Header>,
) -> Result<View, Memory> {
    let rows = rows_of(case.alloc, own, follow.followed())?;
    let columns = follow.window(&set_of(rows.as_slice()), DRAWN)?;
    let view = View::new(case.alloc, rows, columns, header, follow)?;
    let marked = view.marked_step();
    put_fault(page, case, item, own, follow, view.scale)?;
    put_ticks(
        page,
        case.system.names(),
        view.rows.as_slice(),
        view.columns.as_slice(),
        view.scale,
        marked,
    )?;
    page.put_line(&[])?;
    put_clocks(page, case, view.rows.as_slice(), follow, header)?;
    Ok(view)
}

/// Shows an item that is violated at a step of a trace.
pub(crate) fn show_broken<W: World>(
    keys: HashKeys,
    world: &mut W,
    case: &Case<'_>,
    page: &mut Page,
    name: &str,
    item: u32,
    step: u64,
) -> Result<View, Stop>
    requires { W.allows Trace name.now }
    ensures reads { OnlyReads (W.state world.old) (W.state world.new) }
    ensures calm { OnOk result (SameCounts (W.state world.old) (W.state world.new)) }
{
    let header = read_header(case.alloc, keys, world, name)?;
    let own = clocks_of(case.system, item);
    let until = Until::Step(step);
    let follow = followed(case.alloc, keys, world, case.system, &own, name, until)?;
    Ok(put_broken(page, case, item, &own, &follow, header.as_ref())?)
}

// The clocks that are written in the system.
fn written_clocks(case: &Case<'_>) -> Result<Vec<u32>, Memory> {
    let mut rows = Vec::new(case.alloc);
    for clock in 0..case.system.written() {
        rows.push(clock)?;
    }
    Ok(rows)
}

// What is shown of a trace that was followed to its end.
fn put_run(
    page: &mut Page,
    case: &Case<'_>,
    rows: Vec<u32>,
    follow: &Follow<'_>,
    header: Option<&Header>,
) -> Result<View, Memory> {
    put_clocks(page, case, rows.as_slice(), follow, header)?;
    put_silent(page, case, follow)?;
    if let Some(leads) = &follow.leads {
        put_pending(
            case.alloc,
            page,
            case.system,
            &follow.counts,
            leads,
            header_scale(header),
        )?;
    }
    let columns = follow.window(&set_of(rows.as_slice()), DRAWN)?;
    View::new(case.alloc, rows, columns, header, follow)
}

/// Shows a trace that is a run, of so many steps.
pub(crate) fn show_run<W: World>(
    keys: HashKeys,
    world: &mut W,
    case: &Case<'_>,
    page: &mut Page,
    name: &str,
    steps: u64,
) -> Result<View, Stop>
    requires { W.allows Trace name.now }
    ensures reads { OnlyReads (W.state world.old) (W.state world.new) }
    ensures calm { OnOk result (SameCounts (W.state world.old) (W.state world.new)) }
{
    let header = read_header(case.alloc, keys, world, name)?;
    let rows = written_clocks(case)?;
    let own = set_of(rows.as_slice());
    let until = Until::End(steps);
    let follow = followed(case.alloc, keys, world, case.system, &own, name, until)?;
    Ok(put_run(page, case, rows, &follow, header.as_ref())?)
}
