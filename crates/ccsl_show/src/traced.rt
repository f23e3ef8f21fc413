//! What is shown behind an answer.

ghost use Rattle.std.specs.Prelude.{ℕ, List, OnOk};
ghost use Rattle.ccsl_edge.specs.declared.slot.Slot.{Slot};
ghost use Rattle.ccsl_edge.specs.declared.slot.Slot.TheVariants as slots;
ghost use Rattle.ccsl_edge.specs.Counts.{SameCounts};
ghost use Rattle.ccsl_follow.specs.OnlyReads.{OnlyReads};

use crate::binding::{put_event, put_near};
use crate::case::Case;
use crate::cited::{put_bad_line, put_blocking, put_cited, read_cert};
use crate::judged::{show_broken, show_run};
use crate::refused_trace::show_refused_trace;
use crate::said::{Named, Said};
use ccsl_base::{HashKeys, Memory};
use ccsl_edge::World;
use ccsl_follow::{Stop, read_header};
use ccsl_page::{Page, Piece};
use ccsl_waves::View;

/// The files of an answer, by their names, and which of them can be read once more.
#[derive(Clone, Copy)]
pub(crate) struct Files<'a> {
    pub(crate) spec: &'a str,
    pub(crate) trace: Option<&'a str>,
    pub(crate) cert: Option<&'a str>,
}

// The variables that a clock's name may mean.
fn show_unbound<W: World>(
    keys: HashKeys,
    world: &mut W,
    case: &Case<'_>,
    page: &mut Page,
    name: &str,
    clock: &[u8],
) -> Result<(), Stop>
    requires allowed { W.allows slots.Trace name.now }
    ensures reads { OnlyReads (W.state world.old) (W.state world.new) }
    ensures calm { OnOk result (SameCounts (W.state world.old) (W.state world.new)) }
{
    let Some(header) = read_header(case.alloc, keys, world, name)? else {
        return Ok(());
    };
    put_near(case.alloc, page, &header, clock)?;
    put_event(case.alloc, page, &header, clock)?;
    Ok(())
}

fn show_violation<W: World>(
    keys: HashKeys,
    world: &mut W,
    case: &Case<'_>,
    page: &mut Page,
    name: &str,
    item: Named<'_>,
    step: u64,
) -> Result<Option<View>, Stop>
    requires allowed { W.allows slots.Trace name.now }
    ensures reads { OnlyReads (W.state world.old) (W.state world.new) }
    ensures calm { OnOk result (SameCounts (W.state world.old) (W.state world.new)) }
{
    match case.item_of(item) {
        Some(item) => Ok(Some(show_broken(keys, world, case, page, name, item, step)?)),
        None => Ok(None),
    }
}

// The certificate of an answer, if it names one that is short enough to be shown.
fn read_named<W: World>(
    world: &mut W,
    case: &Case<'_>,
    cert: Option<&str>,
) -> Result<Option<Vec<u8>>, Stop>
    requires allowed { (slot : Slot) (name : List ℕ) → W.allows slot name }
    ensures reads { OnlyReads (W.state world.old) (W.state world.new) }
    ensures calm { OnOk result (SameCounts (W.state world.old) (W.state world.new)) }
{
    match cert {
        Some(name) => read_cert(case, world, name),
        None => Ok(None),
    }
}

// The items that block every step, by an answer's lines, or by the lines of a certificate.
fn put_blocked(
    page: &mut Page,
    case: &Case<'_>,
    lines: &[u8],
    cert: Option<&[u8]>,
) -> Result<(), Memory> {
    match cert {
        Some(cert) if lines.is_empty() => put_cited(page, case, cert),
        cert => put_blocking(page, case, lines, cert),
    }
}

// The items that a certificate shows to block every step, and the run in front of them.
fn show_blocked<W: World>(
    keys: HashKeys,
    world: &mut W,
    case: &Case<'_>,
    page: &mut Page,
    files: Files<'_>,
    name: &str,
    lines: &[u8],
    steps: u64,
) -> Result<View, Stop>
    requires allowed { (slot : Slot) (name : List ℕ) → W.allows slot name }
    ensures reads { OnlyReads (W.state world.old) (W.state world.new) }
    ensures calm { OnOk result (SameCounts (W.state world.old) (W.state world.new)) }
{
    let cert = read_named(world, case, files.cert)?;
    let cert = match &cert {
        Some(text) => Some(text.as_slice()),
        None => None,
    };
    put_blocked(page, case, lines, cert)?;
    show_run(keys, world, case, page, name, steps)
}

fn show_bad_line<W: World>(
    world: &mut W,
    case: &Case<'_>,
    page: &mut Page,
    files: Files<'_>,
    line: u64,
) -> Result<(), Stop>
    requires allowed { (slot : Slot) (name : List ℕ) → W.allows slot name }
    ensures reads { OnlyReads (W.state world.old) (W.state world.new) }
    ensures calm { OnOk result (SameCounts (W.state world.old) (W.state world.new)) }
{
    let Some(name) = files.cert else {
        return Ok(());
    };
    let Some(cert) = read_cert(case, world, name)? else {
        return Ok(());
    };
    put_bad_line(page, case, name, cert.as_slice(), line)?;
    Ok(())
}

/// Shows what stands behind an answer on a trace. It answers what was drawn of it.
pub(crate) fn show_trace<W: World>(
    keys: HashKeys,
    world: &mut W,
    case: &Case<'_>,
    page: &mut Page,
    files: Files<'_>,
    name: &str,
    said: Said<'_>,
) -> Result<Option<View>, Stop>
    requires allowed { (slot : Slot) (name : List ℕ) → W.allows slot name }
    ensures reads { OnlyReads (W.state world.old) (W.state world.new) }
    ensures calm { OnOk result (SameCounts (W.state world.old) (W.state world.new)) }
{
    match said {
        Said::Run(steps) => Ok(Some(show_run(keys, world, case, page, name, steps)?)),
        Said::Broken { step, item, .. } => {
            show_violation(keys, world, case, page, name, item, step)
        }
        Said::Trace { kind, at } => {
            show_refused_trace(case.alloc, world, page, name, kind, at)?;
            Ok(None)
        }
        Said::Unbound(clock) | Said::Ambiguous(clock) => {
            show_unbound(keys, world, case, page, name, clock)?;
            Ok(None)
        }
        Said::Blocked { steps, lines } => {
            let shown = show_blocked(keys, world, case, page, files, name, lines, steps)?;
            Ok(Some(shown))
        }
        Said::Deadlock(steps) => {
            let shown = show_blocked(keys, world, case, page, files, name, b"", steps)?;
            Ok(Some(shown))
        }
        Said::BadLine(line) => {
            show_bad_line(world, case, page, files, line)?;
            Ok(None)
        }
        Said::Cert { .. } | Said::Other => Ok(None),
    }
}

/// Puts that a file can be read only once.
pub(crate) fn put_once(page: &mut Page, what: &str) -> Result<(), Memory> {
    page.put_line(&[
        Piece::Text("  "),
        Piece::Text(what),
        Piece::Text(" is no file that can be read twice, so no more is shown"),
    ])
}
