//! The header of a trace, read once more.

ghost use Rattle.std.specs.Prelude.{OnOk};
ghost use Rattle.ccsl_edge.specs.declared.slot.Slot.TheVariants.{Trace};
ghost use Rattle.ccsl_edge.specs.Counts.{SameCounts};
ghost use Rattle.ccsl_follow.specs.OnlyReads.{OnlyReads};

use crate::reading::{open_file, read_on};
use crate::stop::{Stop, stop_of_header};
use ccsl_base::{HashKeys, MAX_TOKEN_BYTES, PIECE};
use ccsl_edge::{Slot, World};
use ccsl_page::Scale;
use ccsl_scopes::{Header, HeaderReader};
use ccsl_vcd::LIMITS;
use ccsl_vcd_lex::is_space;
use std::alloc::Global;

/// The header so far, and the token that is open.
#[derive(Drop)]
struct Heading {
    reader: HeaderReader,
    open: Vec<u8>,
    taken: u64,
}

impl Heading {
    // The open token has ended. It answers whether that ends the header.
    fn hear(&mut self) -> Result<bool, Stop> {
        if self.open.is_empty() {
            return Ok(false);
        }
        let at = self.taken.saturating_sub(self.open.len() as u64);
        let heard = self.reader.hear(at, self.open.as_slice());
        let is_over = heard.map_err(stop_of_header)?;
        self.open.clear();
        Ok(is_over)
    }

    // Takes bytes up to the header's end, and answers whether that came.
    fn take(&mut self, bytes: &[u8]) -> Result<bool, Stop> {
        for byte in bytes {
            if is_space(*byte) {
                if self.hear()? {
                    return Ok(true);
                }
            } else if self.open.len() < MAX_TOKEN_BYTES {
                self.open.push(*byte)?;
            }
            self.taken = self.taken.saturating_add(1);
        }
        Ok(false)
    }
}

// The header that was read.
fn header_of(heading: Heading) -> Header {
    let Heading {
        reader,
        open: _open,
        taken: _,
    } = heading;
    reader.into_header()
}

/// Reads the header of a trace. None where it has no whole header.
pub fn read_header<W: World>(
    alloc: Global,
    keys: HashKeys,
    world: &mut W,
    name: &str,
) -> Result<Option<Header>, Stop>
    requires { W.allows Trace name.now }
    ensures reads { OnlyReads (W.state world.old) (W.state world.new) }
    ensures calm { OnOk result (SameCounts (W.state world.old) (W.state world.new)) }
{
    open_file(world, Slot::Trace, name)?;
    let mut buffer = vec![in alloc; 0u8; PIECE]?;
    let piece = buffer.as_mut_slice();
    let mut heading = Heading {
        reader: HeaderReader::new(alloc, keys, LIMITS),
        open: Vec::new(alloc),
        taken: 0,
    };
    for _ in 0..u64::MAX {
        let count = read_on(world, Slot::Trace, piece)?;
        if count == 0 {
            return Ok(None);
        }
        if heading.take(&piece[..count])? {
            return Ok(Some(header_of(heading)));
        }
    }
    Ok(None)
}

/// The unit of time of a header.
pub fn scale_of(header: &Header) -> Scale {
    match &header.timescale {
        Some(text) => Scale::of_header(text.as_slice()),
        None => Scale::BARE,
    }
}
