//! Ticks as a drawing.

ghost use Rattle.ccsl_edge.specs.declared.slot.Slot.TheVariants.{CertOut};

use crate::drawing::{put_path, put_rect, put_text};
use crate::save_file::write_file;
use crate::view::View;
use ccsl_base::Memory;
use ccsl_causes::clock_name;
use ccsl_edge::World;
use ccsl_follow::Stop;
use ccsl_kernel::System;
use ccsl_page::{Column, Page, Piece, Scale};
use std::alloc::Global;

/// How high a row is, how wide a letter, and how much room stands beside a text.
const HIGH: u64 = 26;

const LETTER: u64 = 8;

const BESIDE: u64 = 16;

/// A step as it is drawn: its number and time as texts, where its column begins, and how wide that is.
#[derive(Drop)]
struct Drawn {
    step: Page,
    time: Page,
    from: u64,
    wide: u64,
}

impl Drawn {
    fn middle(&self) -> u64 {
        self.from.saturating_add(self.wide / 2)
    }

    fn end(&self) -> u64 {
        self.from.saturating_add(self.wide)
    }
}

fn wide(text: &[u8]) -> u64 {
    (text.len() as u64)
        .saturating_mul(LETTER)
        .saturating_add(BESIDE)
}

// A column that begins here: it is as wide as the widest of its texts.
fn laid_out(alloc: Global, column: &Column, scale: Scale, from: u64) -> Result<Drawn, Memory> {
    let mut step = Page::new(alloc);
    step.put(&[Piece::Number(column.step)])?;
    let mut time = Page::new(alloc);
    time.put(&scale.pieces(column.time))?;
    let wide = wide(step.bytes()).max(wide(time.bytes()));
    Ok(Drawn {
        step,
        time,
        from,
        wide,
    })
}

// The columns, one beside the other.
fn all_drawn(
    alloc: Global,
    columns: &[Column],
    scale: Scale,
    margin: u64,
) -> Result<Vec<Drawn>, Memory> {
    let mut list = Vec::new(alloc);
    let mut from = margin;
    for column in columns {
        let next = laid_out(alloc, column, scale, from)?;
        from = next.end();
        list.push(next)?;
    }
    Ok(list)
}

// The room for the names.
fn margin_of(system: &System, rows: &[u32]) -> u64 {
    let mut margin = wide(b"step");
    for clock in rows {
        margin = margin.max(wide(clock_name(system, *clock)));
    }
    margin
}

// The line on which the text of a row stands, the steps and times aside.
fn line_of(row: usize) -> u64 {
    (row as u64)
        .saturating_mul(HIGH)
        .saturating_add(HIGH * 2 + 18)
}

// A tick, or the line on which none stands.
fn put_tick(page: &mut Page, x: u64, y: u64, ticks: bool, class: &str) -> Result<(), Memory> {
    if ticks {
        put_path(page, class, "3", x, y, y.saturating_sub(9))
    } else {
        put_path(page, class, "1", x, y, y.saturating_sub(2))
    }
}

fn put_row(
    page: &mut Page,
    system: &System,
    clock: u32,
    y: u64,
    columns: &[Column],
    list: &[Drawn],
) -> Result<(), Memory> {
    let class = if clock < system.scope().declared {
        "recorded"
    } else {
        "computed"
    };
    put_text(page, BESIDE / 2, y, "start", clock_name(system, clock))?;
    for (column, drawn) in columns.iter().zip(list.iter()) {
        put_tick(page, drawn.middle(), y, column.ticks.has(clock), class)?;
    }
    Ok(())
}

// The steps and times above the rows.
fn put_head(page: &mut Page, list: &[Drawn]) -> Result<(), Memory> {
    put_text(page, BESIDE / 2, 18, "start", b"step")?;
    put_text(page, BESIDE / 2, 18 + HIGH, "start", b"time")?;
    for drawn in list {
        put_text(page, drawn.middle(), 18, "middle", drawn.step.bytes())?;
        put_text(
            page,
            drawn.middle(),
            18 + HIGH,
            "middle",
            drawn.time.bytes(),
        )?;
    }
    Ok(())
}

fn put_start(page: &mut Page, width: u64, height: u64) -> Result<(), Memory> {
    page.put_line(&[
        Piece::Text("<svg xmlns=\"http://www.w3.org/2000/svg\" width=\""),
        Piece::Number(width),
        Piece::Text("\" height=\""),
        Piece::Number(height),
        Piece::Text("\" font-family=\"monospace\" font-size=\"13\">"),
    ])?;
    page.put_line(&[Piece::Text(
        "<style>.recorded{stroke:#1f2933}.computed{stroke:#1769aa;stroke-dasharray:3 2}</style>",
    )])?;
    page.put_line(&[Piece::Text("<rect width=\"100%\" height=\"100%\" fill=\"#fff\"/>")])
}

// A field behind the step at fault.
fn put_field(page: &mut Page, view: &View, list: &[Drawn], height: u64) -> Result<(), Memory> {
    let Some((step, _)) = view.marked else {
        return Ok(());
    };
    for (column, drawn) in view.columns.iter().zip(list.iter()) {
        if column.step == step {
            put_rect(page, drawn.from, drawn.wide, height, "#fbd5d5")?;
        }
    }
    Ok(())
}

// The columns and rows of a view.
fn put_picture(page: &mut Page, alloc: Global, system: &System, view: &View) -> Result<(), Memory> {
    let margin = margin_of(system, view.rows.as_slice());
    let columns = view.columns.as_slice();
    let list = all_drawn(alloc, columns, view.scale, margin)?;
    let width = match list.last() {
        Some(drawn) => drawn.end(),
        None => margin,
    };
    let height = line_of(view.rows.len()).saturating_sub(8);
    put_start(page, width, height)?;
    put_field(page, view, list.as_slice(), height)?;
    put_head(page, list.as_slice())?;
    for (i, clock) in view.rows.iter().enumerate() {
        put_row(page, system, *clock, line_of(i), columns, list.as_slice())?;
    }
    page.put_line(&[Piece::Text("</svg>")])
}

/// Writes the columns and rows of a view as a drawing in SVG. Computed clocks are blue and broken lines, recorded ones
/// dark; the marked step stands on a field.
pub fn write_picture<O: World>(
    alloc: Global,
    out: &mut O,
    system: &System,
    view: &View,
    file: &str,
) -> Result<(), Stop>
    requires { O.allows CertOut file.now }
{
    let mut drawing = Page::new(alloc);
    put_picture(&mut drawing, alloc, system, view)?;
    write_file(out, file, drawing.bytes())
}
