//! A trace of all clocks, the computed ones too, for a viewer.

ghost use Rattle.std.specs.Prelude.{OnOk};
ghost use Rattle.ccsl_edge.specs.declared.slot.Slot.TheVariants.{Trace, TraceOut};
ghost use Rattle.ccsl_edge.specs.Counts.{SameCounts};
ghost use Rattle.ccsl_follow.specs.OnlyReads.{OnlyReads};
ghost use Rattle.ccsl_waves.specs.Writing.{IsOpen};

use crate::view::View;
use ccsl_base::{Block, ClockSet, HashKeys, MAX_CLOCKS, Memory};
use ccsl_causes::clock_name;
use ccsl_edge::{Slot, World, write_all};
use ccsl_follow::feeding::{next_rows, open_feed};
use ccsl_follow::reading::open_file;
use ccsl_follow::{Steps, Stop};
use ccsl_kernel::System;
use ccsl_page::{Page, Piece};
use std::alloc::Global;

/// How many bytes are written at once.
const FULL: usize = 65_536;

/// How many codes have one letter.
const LETTERS: u32 = 94;

// The code of a clock: a letter from 33 to 126, or two.
fn put_code(page: &mut Page, clock: u32) -> Result<(), Memory> {
    if clock >= LETTERS {
        page.fill((33 + (clock / LETTERS) % LETTERS) as u8, 1)?;
    }
    page.fill((33 + clock % LETTERS) as u8, 1)
}

fn put_variable(page: &mut Page, system: &System, clock: u32) -> Result<(), Memory> {
    page.put(&[Piece::Text("$var event 1 ")])?;
    put_code(page, clock)?;
    page.put_line(&[
        Piece::Text(" "),
        Piece::Name(clock_name(system, clock)),
        Piece::Text(" $end"),
    ])
}

fn put_header(page: &mut Page, system: &System, view: &View) -> Result<(), Memory> {
    if let Some(timescale) = &view.timescale {
        page.put_line(&[
            Piece::Text("$timescale "),
            Piece::Name(timescale.as_slice()),
            Piece::Text(" $end"),
        ])?;
    }
    page.put_line(&[Piece::Text("$scope module ccsl $end")])?;
    for clock in 0..system.names().len() {
        put_variable(page, system, clock)?;
    }
    page.put_line(&[Piece::Text("$upscope $end")])?;
    page.put_line(&[Piece::Text("$enddefinitions $end")])
}

fn put_step(page: &mut Page, time: u64, ticks: &ClockSet) -> Result<(), Memory> {
    page.put_line(&[Piece::Text("#"), Piece::Number(time)])?;
    for clock in ticks.members() {
        page.put(&[Piece::Text("1")])?;
        put_code(page, clock)?;
        page.put_line(&[])?;
    }
    Ok(())
}

// Writes what stands on a page, and empties it.
fn flush<O: World>(out: &mut O, page: &mut Page) -> Result<(), Stop>
    requires open { IsOpen (O.state out.old) }
    ensures open { OnOk result (IsOpen (O.state out.new)) }
{
    write_all(out, Slot::TraceOut, page.bytes())?;
    page.clear();
    Ok(())
}

fn put_block<O: World>(
    out: &mut O,
    page: &mut Page,
    steps: &mut Steps<'_>,
    block: &Block,
) -> Result<(), Stop>
    requires open { IsOpen (O.state out.old) }
    ensures open { OnOk result (IsOpen (O.state out.new)) }
{
    for i in 0..block.len() {
        let row = block.row(i);
        steps.go_on(&row.ticks);
        put_step(page, row.time, steps.step())?;
        if page.bytes().len() >= FULL {
            flush(out, page)?;
        }
    }
    flush(out, page)
}

// All clocks of a system.
fn all_clocks(system: &System) -> ClockSet {
    let mut clocks = ClockSet::empty();
    for clock in 0..system.scope().named {
        if clock < MAX_CLOCKS {
            clocks.insert(clock);
        }
    }
    clocks
}

// Writes the steps of the trace that is open.
fn write_steps<W: World, O: World>(
    alloc: Global,
    keys: HashKeys,
    world: &mut W,
    out: &mut O,
    system: &System,
    page: &mut Page,
) -> Result<(), Stop>
    requires open { IsOpen (O.state out.old) }
    ensures open { OnOk result (IsOpen (O.state out.new)) }
    ensures reads { OnlyReads (W.state world.old) (W.state world.new) }
    ensures calm { OnOk result (SameCounts (W.state world.old) (W.state world.new)) }
{
    let mut steps = Steps::open(alloc, system, &all_clocks(system))?;
    let mut feed = open_feed(alloc, keys, world, system)?;
    for _ in 0..u64::MAX {
        let more = next_rows(&mut feed, world)?;
        put_block(out, page, &mut steps, feed.block())?;
        if !more {
            break;
        }
    }
    Ok(())
}

/// Writes the steps of a trace with all clocks, the computed ones too, as events at their times, in the unit of time
/// that a view has.
pub fn write_waves<W: World, O: World>(
    alloc: Global,
    keys: HashKeys,
    world: &mut W,
    out: &mut O,
    system: &System,
    view: &View,
    trace: &str,
    file: &str,
) -> Result<(), Stop>
    requires trace { W.allows Trace trace.now }
    requires file { O.allows TraceOut file.now }
    ensures reads { OnlyReads (W.state world.old) (W.state world.new) }
    ensures calm { OnOk result (SameCounts (W.state world.old) (W.state world.new)) }
{
    open_file(world, Slot::Trace, trace)?;
    out.open_out(Slot::TraceOut, file)?;
    let mut page = Page::new(alloc);
    put_header(&mut page, system, view)?;
    write_steps(alloc, keys, world, out, system, &mut page)?;
    out.close_out(Slot::TraceOut)?;
    Ok(())
}
