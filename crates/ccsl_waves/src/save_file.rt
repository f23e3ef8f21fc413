//! The file by which gtkwave opens a trace where it is to be looked at.

ghost use Rattle.std.specs.Prelude.{ℕ, List};
ghost use Rattle.ccsl_edge.specs.declared.slot.Slot.{Slot};
ghost use Rattle.ccsl_edge.specs.declared.slot.Slot.TheVariants.{CertOut};

use crate::view::View;
use ccsl_base::Memory;
use ccsl_causes::clock_name;
use ccsl_edge::{Slot, World, write_all};
use ccsl_follow::Stop;
use ccsl_kernel::System;
use ccsl_page::{Page, Piece};
use std::alloc::Global;

/// How many frames of 200 pixels gtkwave shows at least. By a zoom of -z a frame is 2 to the z units of time.
const FRAMES: u64 = 3;

// From which time to which the steps of a view reach, with some room in front and behind.
fn range_of(view: &View) -> (u64, u64) {
    let first = match view.columns.first() {
        Some(column) => column.time,
        None => 0,
    };
    let last = match view.columns.last() {
        Some(column) => column.time,
        None => first,
    };
    let room = (last.saturating_sub(first) / 8).saturating_add(1);
    (first.saturating_sub(room), last.saturating_add(room))
}

// How often the units of a frame are doubled until the range is seen whole.
fn put_zoom(page: &mut Page, range: u64) -> Result<(), Memory> {
    let mut doubled = 0u64;
    let mut shown = FRAMES;
    for step in 1..=62 {
        if shown < range {
            shown = shown.saturating_mul(2);
            doubled = step;
        }
    }
    page.put(&[
        Piece::Text("*-"),
        Piece::Number(doubled),
        Piece::Text(".000000 "),
    ])
}

// The marker, and the other ones, which are not set.
fn put_markers(page: &mut Page, view: &View) -> Result<(), Memory> {
    match view.marked {
        Some((_, time)) => page.put(&[Piece::Number(time)])?,
        None => page.put(&[Piece::Text("-1")])?,
    }
    for _ in 0..26 {
        page.put(&[Piece::Text(" -1")])?;
    }
    page.put_line(&[])
}

// The dump's name, what is looked at, the marker, and the signals in their order.
fn put_save_file(page: &mut Page, system: &System, file: &str, view: &View) -> Result<(), Memory> {
    page.put_line(&[
        Piece::Text("[dumpfile] \""),
        Piece::Text(file),
        Piece::Text("\""),
    ])?;
    let (from, to) = range_of(view);
    page.put_line(&[Piece::Text("[timestart] "), Piece::Number(from)])?;
    put_zoom(page, to.saturating_sub(from))?;
    put_markers(page, view)?;
    page.put_line(&[Piece::Text("[treeopen] ccsl.")])?;
    page.put_line(&[Piece::Text("@28")])?;
    for clock in &view.rows {
        page.put_line(&[
            Piece::Text("ccsl."),
            Piece::Name(clock_name(system, *clock)),
        ])?;
    }
    Ok(())
}

// Writes a file whole.
pub(crate) fn write_file<O: World>(out: &mut O, name: &str, bytes: &[u8]) -> Result<(), Stop>
    requires { O.allows CertOut name.now }
{
    out.open_out(Slot::CertOut, name)?;
    write_all(out, Slot::CertOut, bytes)?;
    out.close_out(Slot::CertOut)?;
    Ok(())
}

/// Writes the file by which gtkwave shows a view of a trace, beside the trace for it: its name ends in `.gtkw`.
pub fn write_save_file<O: World>(
    alloc: Global,
    out: &mut O,
    system: &System,
    file: &str,
    view: &View,
) -> Result<(), Stop>
    requires allowed { (slot : Slot) (name : List ℕ) → O.allows slot name }
{
    let mut name = String::from_str(alloc, file)?;
    name.push_str(".gtkw")?;
    let mut page = Page::new(alloc);
    put_save_file(&mut page, system, file, view)?;
    write_file(out, name.as_str(), page.bytes())
}
