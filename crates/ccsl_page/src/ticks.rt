//! Ticks as rows: a line for each clock, a column for each step.

use crate::page::{Page, Piece};
use crate::paint::Paint;
use crate::time::Scale;
use ccsl_base::{ClockSet, Memory, Names};
use itoa::Buffer;

/// A step as it is shown: its number, from 0, its time in the trace's own unit, and the clocks that tick in it.
#[derive(Drop)]
pub struct Column {
    pub step: u64,
    pub time: u64,
    pub ticks: ClockSet,
}

fn digits(number: u64) -> usize {
    Buffer::new().format(number).len()
}

// How wide a column is, without the brackets that may stand around its cells.
fn width(column: &Column, scale: Scale) -> usize {
    digits(column.step).max(digits(scale.number(column.time)))
}

// What a row has of each column.
#[derive(Clone, Copy)]
enum Cell {
    Step,
    Time,
    Tick(u32),
}

fn put_word(page: &mut Page, word: &[u8], margin: usize) -> Result<(), Memory> {
    page.put(&[Piece::Text("  "), Piece::Name(word)])?;
    page.fill(b' ', margin.saturating_sub(word.len()))
}

// A number at the right of its column.
fn put_number(page: &mut Page, room: usize, bracket: &str, number: u64) -> Result<(), Memory> {
    page.fill(b' ', room.saturating_sub(digits(number)))?;
    page.put(&[Piece::Text(bracket), Piece::Number(number)])
}

fn put_cell(
    page: &mut Page,
    column: &Column,
    scale: Scale,
    cell: Cell,
    bracket: &str,
) -> Result<(), Memory> {
    let room = width(column, scale);
    match cell {
        Cell::Step => put_number(page, room, bracket, column.step),
        Cell::Time => put_number(page, room, bracket, scale.number(column.time)),
        Cell::Tick(clock) => {
            page.fill(b' ', room.saturating_sub(1))?;
            let tick = if column.ticks.has(clock) { "|" } else { "." };
            page.put(&[Piece::Text(" "), Piece::Text(tick)])
        }
    }
}

// What stands behind a column; a bracket is the last of what is at fault.
fn put_end(page: &mut Page, end: &str) -> Result<(), Memory> {
    page.put(&[Piece::Text(end)])?;
    if end == "]" {
        page.paint(Paint::Plain)?;
    }
    Ok(())
}

// What stands in front of a column that is marked, a bracket aside.
fn put_begin(page: &mut Page, is_marked: bool) -> Result<(), Memory> {
    if is_marked {
        page.paint(Paint::Fault)?;
    }
    Ok(())
}

// A row. The marked step stands in brackets, and no blank stands at the end.
fn put_cells(
    page: &mut Page,
    columns: &[Column],
    scale: Scale,
    cell: Cell,
    marked: Option<u64>,
) -> Result<(), Memory> {
    let mut end = " ";
    for column in columns {
        put_end(page, end)?;
        let is_marked = marked == Some(column.step);
        put_begin(page, is_marked)?;
        put_cell(page, column, scale, cell, if is_marked { "[" } else { " " })?;
        end = if is_marked { "]" } else { " " };
    }
    if end == "]" {
        put_end(page, end)?;
    }
    Ok(())
}

// The name of a clock, if it has one.
fn name_of(names: &Names, clock: u32) -> &[u8] {
    if clock < names.len() {
        names.get(clock)
    } else {
        b"".as_slice()
    }
}

fn margin_of(names: &Names, clocks: &[u32]) -> usize {
    let mut margin = 4;
    for clock in clocks {
        margin = margin.max(name_of(names, *clock).len());
    }
    margin
}

fn put_unit(page: &mut Page, scale: Scale) -> Result<(), Memory> {
    if scale.unit.is_some() {
        page.put(&[Piece::Text(" "), Piece::Text(scale.word())])?;
    }
    page.put_line(&[])
}

// The two rows that name the columns.
fn put_heading(
    page: &mut Page,
    columns: &[Column],
    scale: Scale,
    margin: usize,
    marked: Option<u64>,
) -> Result<(), Memory> {
    put_word(page, b"step", margin)?;
    put_cells(page, columns, scale, Cell::Step, marked)?;
    page.put_line(&[])?;
    put_word(page, b"time", margin)?;
    put_cells(page, columns, scale, Cell::Time, marked)?;
    put_unit(page, scale)
}

/// Puts the steps of these columns with the ticks of these clocks, each under its name. The marked step stands in
/// brackets.
pub fn put_ticks(
    page: &mut Page,
    names: &Names,
    clocks: &[u32],
    columns: &[Column],
    scale: Scale,
    marked: Option<u64>,
) -> Result<(), Memory> {
    let margin = margin_of(names, clocks);
    put_heading(page, columns, scale, margin, marked)?;
    for clock in clocks {
        put_word(page, name_of(names, *clock), margin)?;
        put_cells(page, columns, scale, Cell::Tick(*clock), None)?;
        page.put_line(&[])?;
    }
    Ok(())
}
