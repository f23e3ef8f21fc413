//! The items that block every step, with the lines of a certificate that cite them.

ghost use Rattle.std.specs.Prelude.{OnOk};
ghost use Rattle.ccsl_edge.specs.declared.slot.Slot.TheVariants.{Cert};
ghost use Rattle.ccsl_edge.specs.Counts.{SameCounts};
ghost use Rattle.ccsl_follow.specs.OnlyReads.{OnlyReads};

use crate::case::Case;
use crate::said::{item, number, parted};
use ccsl_base::Memory;
use ccsl_edge::{Slot, World};
use ccsl_follow::Stop;
use ccsl_follow::reading::read_file;
use ccsl_page::{Page, Piece, Place, put_line_at};

/// The most bytes of a certificate that is shown.
const MOST: u64 = 16_777_216;

/// The most lines of a certificate that are shown beside an item, and the most items.
const LINES: usize = 4;

const ITEMS: usize = 40;

/// Reads a certificate. None where it is too long to be shown.
pub(crate) fn read_cert<W: World>(
    case: &Case<'_>,
    world: &mut W,
    name: &str,
) -> Result<Option<Vec<u8>>, Stop>
    requires { W.allows Cert name.now }
    ensures reads { OnlyReads (W.state world.old) (W.state world.new) }
    ensures calm { OnOk result (SameCounts (W.state world.old) (W.state world.new)) }
{
    read_file(case.alloc, world, Slot::Cert, name, MOST)
}

// The item that a line of a certificate cites, and what follows its number.
fn cited(line: &[u8]) -> Option<(u32, &[u8])> {
    let [b'i', b' ', rest @ ..] = line else {
        return None;
    };
    let (item, rest) = number(rest)?;
    match u32::try_from(item) {
        Ok(item) => Some((item, rest)),
        Err(_) => None,
    }
}

// The lines of a certificate that cite an item.
fn put_lines(page: &mut Page, cert: &[u8], wanted: u32) -> Result<(), Memory> {
    let mut shown = 0usize;
    for (i, line) in cert.split(|byte| *byte == b'\n').enumerate() {
        if let Some((item, rest)) = cited(line)
            && item == wanted
            && shown < LINES
        {
            shown += 1;
            page.put_line(&[
                Piece::Text("      line "),
                Piece::Number((i as u64).saturating_add(1)),
                Piece::Text(" of the certificate:"),
                Piece::Name(rest),
            ])?;
        }
    }
    Ok(())
}

/// Shows the items of an explanation: each by its lines, with the least step that would be possible without it.
pub(crate) fn put_blocking(
    page: &mut Page,
    case: &Case<'_>,
    lines: &[u8],
    cert: Option<&[u8]>,
) -> Result<(), Memory> {
    let mut shown = 0usize;
    for line in lines.split(|byte| *byte == b'\n') {
        if let Some(named) = item(line)
            && let Some(item) = case.item_of(named)
            && shown < ITEMS
        {
            shown += 1;
            let (_, clocks) = parted(line, b':');
            case.put_item(
                page,
                item,
                &[
                    Piece::Text("without this a step could be:"),
                    Piece::Name(clocks),
                ],
            )?;
            if let Some(cert) = cert {
                put_lines(page, cert, item)?;
            }
        }
    }
    Ok(())
}

/// Shows the items that a certificate cites, each once, in the order in which they come first.
pub(crate) fn put_cited(page: &mut Page, case: &Case<'_>, cert: &[u8]) -> Result<(), Memory> {
    let mut seen = Vec::new(case.alloc);
    for line in cert.split(|byte| *byte == b'\n') {
        if let Some((item, _)) = cited(line)
            && seen.len() < ITEMS
            && !seen.contains(&item)
        {
            seen.push(item)?;
            case.put_item(page, item, &[])?;
            put_lines(page, cert, item)?;
        }
    }
    Ok(())
}

/// Shows a line of a certificate, from 1, with the item that it cites.
pub(crate) fn put_bad_line(
    page: &mut Page,
    case: &Case<'_>,
    name: &str,
    cert: &[u8],
    wanted: u64,
) -> Result<(), Memory> {
    for (i, line) in cert.split(|byte| *byte == b'\n').enumerate() {
        if (i as u64).saturating_add(1) == wanted && !line.is_empty() {
            let place = Place {
                line: wanted,
                column: 1,
            };
            put_line_at(
                page,
                name,
                place,
                line,
                line.len(),
                &[Piece::Text("not valid")],
            )?;
            if let Some((item, _)) = cited(line) {
                case.put_item(page, item, &[])?;
            }
            return Ok(());
        }
    }
    page.put_line(&[
        Piece::Text("  the certificate has no line "),
        Piece::Number(wanted),
        Piece::Text(" with an empty clause, as its last one is to be"),
    ])
}
