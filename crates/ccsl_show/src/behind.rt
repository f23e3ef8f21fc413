//! What is shown behind an answer, from its files on.

ghost use Rattle.std.specs.Prelude.{ℕ, List, OnOk};
ghost use Rattle.ccsl_edge.specs.declared.slot.Slot.{Slot};
ghost use Rattle.ccsl_edge.specs.Counts.{SameCounts};
ghost use Rattle.ccsl_follow.specs.OnlyReads.{OnlyReads};

use crate::case::Case;
use crate::said::Said;
use crate::text::show_refused;
use crate::traced::{Files, put_once, show_trace};
use ccsl_base::HashKeys;
use ccsl_command::Command;
use ccsl_edge::World;
use ccsl_follow::{Stop, Understood, read_text, understand};
use ccsl_page::{Page, Piece};
use ccsl_waves::{View, write_picture, write_save_file, write_waves};
use std::alloc::Global;

/// Which of the files may be read once more. A pipe may not.
#[derive(Clone, Copy)]
pub struct Again {
    pub spec: bool,
    pub trace: bool,
}

/// What is known before anything is shown.
#[derive(Clone, Copy)]
pub struct Asking<'a> {
    pub alloc: Global,
    pub keys: HashKeys,
    pub own: Own<'a>,
    pub again: Again,
    pub said: Said<'a>,
}

/// What is asked for beside the answer: the file of the trace with all computed clocks, that of the drawing, and
/// colours.
#[derive(Clone, Copy)]
pub struct Own<'a> {
    pub waves: Option<&'a str>,
    pub picture: Option<&'a str>,
    pub is_coloured: bool,
}

// The files that a command names, where it has a specification.
fn files_of(command: &Command) -> Option<Files<'_>> {
    let (spec, trace, cert) = match command {
        Command::Check { spec } | Command::Session { spec, .. } => (spec, None, None),
        Command::Judge { spec, trace, .. } => (spec, Some(trace.as_str()), None),
        Command::Simulate {
            spec,
            trace,
            cert,
            ..
        }
        | Command::Certify { spec, trace, cert }
        | Command::Explain { spec, trace, cert } => {
            (spec, Some(trace.as_str()), Some(cert.as_str()))
        }
        Command::Trial { .. } | Command::Periodic { .. } => return None,
    };
    Some(Files {
        spec: spec.as_str(),
        trace,
        cert,
    })
}

// The trace for a viewer, if it is asked for.
fn write_viewed<W: World, O: World>(
    asking: &Asking<'_>,
    world: &mut W,
    out: &mut O,
    case: &Case<'_>,
    page: &mut Page,
    trace: &str,
    view: &View,
) -> Result<(), Stop>
    requires allowed { (slot : Slot) (name : List ℕ) → W.allows slot name }
    requires all { (slot : Slot) (name : List ℕ) → O.allows slot name }
    ensures reads { OnlyReads (W.state world.old) (W.state world.new) }
    ensures calm { OnOk result (SameCounts (W.state world.old) (W.state world.new)) }
{
    let Some(file) = asking.own.waves else {
        return Ok(());
    };
    let alloc = case.alloc;
    write_waves(
        alloc,
        asking.keys,
        world,
        out,
        case.system,
        view,
        trace,
        file,
    )?;
    write_save_file(alloc, out, case.system, file, view)?;
    page.put_line(&[
        Piece::Text("  waves: gtkwave "),
        Piece::Text(file),
        Piece::Text(" "),
        Piece::Text(file),
        Piece::Text(".gtkw"),
    ])?;
    Ok(())
}

// The drawing, if it is asked for.
fn write_drawn<O: World>(
    asking: &Asking<'_>,
    out: &mut O,
    case: &Case<'_>,
    page: &mut Page,
    view: &View,
) -> Result<(), Stop>
    requires all { (slot : Slot) (name : List ℕ) → O.allows slot name }
{
    let Some(file) = asking.own.picture else {
        return Ok(());
    };
    write_picture(case.alloc, out, case.system, view, file)?;
    page.put_line(&[Piece::Text("  picture: "), Piece::Text(file)])?;
    Ok(())
}

// What is shown behind an answer on an accepted specification.
fn show_case<W: World, O: World>(
    asking: &Asking<'_>,
    world: &mut W,
    out: &mut O,
    case: &Case<'_>,
    page: &mut Page,
    files: Files<'_>,
) -> Result<(), Stop>
    requires allowed { (slot : Slot) (name : List ℕ) → W.allows slot name }
    requires all { (slot : Slot) (name : List ℕ) → O.allows slot name }
    ensures reads { OnlyReads (W.state world.old) (W.state world.new) }
    ensures calm { OnOk result (SameCounts (W.state world.old) (W.state world.new)) }
{
    let Some(trace) = files.trace else {
        return Ok(());
    };
    if !asking.again.trace {
        put_once(page, "the trace")?;
        return Ok(());
    }
    let shown = show_trace(asking.keys, world, case, page, files, trace, asking.said)?;
    let Some(view) = shown else {
        return Ok(());
    };
    write_viewed(asking, world, out, case, page, trace, &view)?;
    write_drawn(asking, out, case, page, &view)
}

// What is shown behind an answer on these files.
fn show_files<W: World, O: World>(
    asking: &Asking<'_>,
    world: &mut W,
    out: &mut O,
    page: &mut Page,
    files: Files<'_>,
) -> Result<(), Stop>
    requires allowed { (slot : Slot) (name : List ℕ) → W.allows slot name }
    requires all { (slot : Slot) (name : List ℕ) → O.allows slot name }
    ensures reads { OnlyReads (W.state world.old) (W.state world.new) }
    ensures calm { OnOk result (SameCounts (W.state world.old) (W.state world.new)) }
{
    if !asking.again.spec {
        put_once(page, "the specification")?;
        return Ok(());
    }
    let alloc = asking.alloc;
    let text = read_text(alloc, world, files.spec)?;
    match understand(alloc, text.as_slice())? {
        Understood::Refused(fault) => {
            show_refused(alloc, page, files.spec, text.as_slice(), fault)?;
            Ok(())
        }
        Understood::Accepted {
            file,
            library,
            system,
        } => {
            let case = Case {
                alloc,
                name: files.spec,
                text: text.as_slice(),
                file: &file,
                library: &library,
                system: &system,
            };
            show_case(asking, world, out, &case, page, files)
        }
    }
}

/// Puts on a page what stands behind an answer to a command. The files are read once more from the world, and what is
/// drawn beside the page is written to the world `out`.
pub fn show<W: World, O: World>(
    asking: &Asking<'_>,
    world: &mut W,
    out: &mut O,
    page: &mut Page,
    command: &Command,
) -> Result<(), Stop>
    requires allowed { (slot : Slot) (name : List ℕ) → W.allows slot name }
    requires all { (slot : Slot) (name : List ℕ) → O.allows slot name }
    ensures reads { OnlyReads (W.state world.old) (W.state world.new) }
    ensures calm { OnOk result (SameCounts (W.state world.old) (W.state world.new)) }
{
    match files_of(command) {
        Some(files) => show_files(asking, world, out, page, files),
        None => Ok(()),
    }
}
