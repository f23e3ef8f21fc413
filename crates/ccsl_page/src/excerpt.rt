//! A line of a text with a mark under a part of it.

use crate::page::{Page, Piece};
use crate::paint::Paint;
use crate::place::{Place, line_around, place_of};
use ccsl_base::Memory;
use itoa::Buffer;

/// The most bytes of a line that are shown.
const MOST: usize = 200;

// The digits of a number.
fn width_of(number: u64) -> usize {
    Buffer::new().format(number).len()
}

// A byte of a line as it is shown: what a terminal might obey is a question mark.
fn shown(byte: u8) -> u8 {
    if byte == b'\t' || byte >= 32 && byte != 127 {
        byte
    } else {
        b'?'
    }
}

fn put_shown(page: &mut Page, line: &[u8]) -> Result<(), Memory> {
    for byte in line {
        page.fill(shown(*byte), 1)?;
    }
    Ok(())
}

// What stands under the front of a line: a tab under a tab, so that the mark lies under its part.
fn put_indent(page: &mut Page, front: &[u8]) -> Result<(), Memory> {
    for byte in front {
        page.fill(if *byte == b'\t' { b'\t' } else { b' ' }, 1)?;
    }
    Ok(())
}

// A line of a text with its number, and the part of it that is marked.
#[derive(Clone, Copy)]
struct Marked<'a> {
    number: u64,
    line: &'a [u8],
    from: usize,
    count: usize,
}

fn put_line_shown(page: &mut Page, marked: &Marked<'_>) -> Result<(), Memory> {
    page.put(&[
        Piece::Text("  "),
        Piece::Number(marked.number),
        Piece::Text(" | "),
    ])?;
    put_shown(page, marked.line)?;
    page.put_line(&[])
}

// Blanks for a number, and what stands under the front of its line.
fn put_margin(page: &mut Page, number: u64, front: &[u8]) -> Result<(), Memory> {
    page.fill(b' ', width_of(number).saturating_add(2))?;
    page.put(&[Piece::Text(" | ")])?;
    put_indent(page, front)
}

// A mark of so many bytes, and what is said behind it.
fn put_said(page: &mut Page, count: usize, said: &[Piece<'_>]) -> Result<(), Memory> {
    page.paint(Paint::Fault)?;
    page.fill(b'^', count)?;
    if said.iter().any(|piece| !piece.is_empty()) {
        page.put(&[Piece::Text(" ")])?;
    }
    page.put(said)?;
    page.paint(Paint::Plain)?;
    page.put_line(&[])
}

fn put_mark(page: &mut Page, marked: &Marked<'_>, said: &[Piece<'_>]) -> Result<(), Memory> {
    let from = marked.from.min(marked.line.len());
    put_margin(page, marked.number, &marked.line[..from])?;
    let left = marked.line.len() - from;
    put_said(page, marked.count.min(left).max(1), said)
}

fn put_place(page: &mut Page, file: &str, place: Place) -> Result<(), Memory> {
    page.paint(Paint::Place)?;
    page.put(&[
        Piece::Text(file),
        Piece::Text(":"),
        Piece::Number(place.line),
        Piece::Text(":"),
        Piece::Number(place.column),
    ])?;
    page.paint(Paint::Plain)?;
    page.put_line(&[])
}

/// Puts the place of a file as `FILE:LINE:COLUMN`, then its line, and under `count` bytes of that from the place on,
/// one at least, a mark with what is said behind it.
pub fn put_line_at(
    page: &mut Page,
    file: &str,
    place: Place,
    line: &[u8],
    count: usize,
    said: &[Piece<'_>],
) -> Result<(), Memory> {
    put_place(page, file, place)?;
    let marked = Marked {
        number: place.line,
        line: &line[..line.len().min(MOST)],
        from: place.column.saturating_sub(1) as usize,
        count,
    };
    put_line_shown(page, &marked)?;
    put_mark(page, &marked, said)
}

/// The same of byte number `at` of a text.
pub fn put_excerpt(
    page: &mut Page,
    file: &str,
    text: &[u8],
    at: usize,
    count: usize,
    said: &[Piece<'_>],
) -> Result<(), Memory> {
    let place = place_of(text, at);
    put_line_at(page, file, place, line_around(text, at), count, said)
}
