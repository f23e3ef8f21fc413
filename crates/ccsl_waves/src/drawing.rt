//! The parts of a drawing in SVG.

use ccsl_base::Memory;
use ccsl_page::{Page, Piece};

// A text, whose letters that are written otherwise in this kind of file are written so.
fn put_escaped(page: &mut Page, text: &[u8]) -> Result<(), Memory> {
    for byte in text {
        match *byte {
            b'<' => page.put(&[Piece::Text("&lt;")])?,
            b'>' => page.put(&[Piece::Text("&gt;")])?,
            b'&' => page.put(&[Piece::Text("&amp;")])?,
            byte => page.fill(byte, 1)?,
        }
    }
    Ok(())
}

/// Puts a text.
pub(crate) fn put_text(
    page: &mut Page,
    x: u64,
    y: u64,
    anchor: &str,
    text: &[u8],
) -> Result<(), Memory> {
    page.put(&[
        Piece::Text("<text x=\""),
        Piece::Number(x),
        Piece::Text("\" y=\""),
        Piece::Number(y),
        Piece::Text("\" text-anchor=\""),
        Piece::Text(anchor),
        Piece::Text("\">"),
    ])?;
    put_escaped(page, text)?;
    page.put_line(&[Piece::Text("</text>")])
}

/// Puts an upright line.
pub(crate) fn put_path<'a>(
    page: &mut Page,
    class: &'a str,
    width: &'a str,
    x: u64,
    bottom: u64,
    top: u64,
) -> Result<(), Memory> {
    page.put_line(&[
        Piece::Text("<path class=\""),
        Piece::Text(class),
        Piece::Text("\" stroke-width=\""),
        Piece::Text(width),
        Piece::Text("\" d=\"M"),
        Piece::Number(x),
        Piece::Text(" "),
        Piece::Number(bottom),
        Piece::Text("V"),
        Piece::Number(top),
        Piece::Text("\"/>"),
    ])
}

/// Puts a field from the top on.
pub(crate) fn put_rect(
    page: &mut Page,
    x: u64,
    width: u64,
    height: u64,
    fill: &str,
) -> Result<(), Memory> {
    page.put_line(&[
        Piece::Text("<rect x=\""),
        Piece::Number(x),
        Piece::Text("\" y=\"0\" width=\""),
        Piece::Number(width),
        Piece::Text("\" height=\""),
        Piece::Number(height),
        Piece::Text("\" fill=\""),
        Piece::Text(fill),
        Piece::Text("\"/>"),
    ])
}
