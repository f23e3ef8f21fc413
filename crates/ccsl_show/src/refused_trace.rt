//! Where and why a trace is refused.

ghost use Rattle.std.specs.Prelude.{OnOk};
ghost use Rattle.ccsl_edge.specs.declared.slot.Slot.TheVariants.{Trace};
ghost use Rattle.ccsl_edge.specs.Counts.{SameCounts};
ghost use Rattle.ccsl_follow.specs.OnlyReads.{OnlyReads};

use ccsl_edge::World;
use ccsl_follow::{Stop, searched};
use ccsl_page::{Page, Piece, put_line_at};
use std::alloc::Global;

// What to do with a file that is no value change dump by its first bytes.
fn foreign(front: &[u8]) -> Option<&'static str> {
    match front {
        [0x1f, 0x8b, ..] => Some("a gzip file: unpack it first, as `gzip -dc FILE.gz > FILE`"),
        [0xef, 0xbb, 0xbf, ..] => Some("a byte order mark: save the file without one"),
        [0xff, 0xfe, ..] | [0xfe, 0xff, ..] => Some("a text of 16 bits a letter: save it as UTF-8"),
        [0, 0, 0, 0, 0, 0, 0, 1, 0x49, ..] | [0, 0, 0, 0, 0, 0, 1, 0x49, ..] => {
            Some("an FST file: turn it into a dump first, as `fst2vcd FILE.fst > FILE.vcd`")
        }
        [b'P', b'K', 3, 4, ..] => Some(
            "a sigrok session or a zip file: `sigrok-cli -i FILE -O vcd > FILE.vcd`",
        ),
        [b'M', b'E', b'T', b'A', ..] => Some(
            "sigrok's `META` line: drop the first line, as `tail -n +2 FILE`",
        ),
        [0, ..] => Some("no text: if it is an FST file, `fst2vcd FILE.fst > FILE.vcd`"),
        _ => None,
    }
}

fn known(kind: &[u8]) -> &'static str {
    match kind {
        b"gap" =>
            "values are not recorded from here on: leave `$dumpoff` out, or give ccsl-events `gaps=skip`",
        b"truncated" => "the file ends in the middle of a command: was the simulator stopped?",
        b"bad header" => "no command of a header: is the file a value change dump?",
        b"unknown code" => "no `$var` declares this code",
        _ => "",
    }
}

/// Shows the line of a trace at which it is refused.
pub(crate) fn show_refused_trace<W: World>(
    alloc: Global,
    world: &mut W,
    page: &mut Page,
    name: &str,
    kind: &[u8],
    at: u64,
) -> Result<(), Stop>
    requires { W.allows Trace name.now }
    ensures reads { OnlyReads (W.state world.old) (W.state world.new) }
    ensures calm { OnOk result (SameCounts (W.state world.old) (W.state world.new)) }
{
    let search = searched(alloc, world, name, at)?;
    let said = match foreign(search.front.as_slice()) {
        Some(said) => said,
        None => known(kind),
    };
    put_line_at(
        page,
        name,
        search.place,
        search.line.as_slice(),
        1,
        &[Piece::Text(said)],
    )?;
    Ok(())
}
