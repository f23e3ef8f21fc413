//! The line around a byte of a trace.

ghost use Rattle.std.specs.Prelude.{OnOk};
ghost use Rattle.ccsl_edge.specs.declared.slot.Slot.TheVariants.{Trace};
ghost use Rattle.ccsl_edge.specs.Counts.{SameCounts};
ghost use Rattle.ccsl_follow.specs.OnlyReads.{OnlyReads};

use crate::reading::{open_file, read_on};
use crate::stop::Stop;
use ccsl_base::{Memory, PIECE};
use ccsl_edge::{Slot, World};
use ccsl_page::Place;
use std::alloc::Global;

/// The most bytes of a line that are kept.
const LINE: usize = 200;

/// The most bytes of a trace's front that are kept.
const FRONT: usize = 16;

/// What is seen of a trace on the way to a byte, and of the line around it.
#[derive(Drop)]
pub struct Search {
    // how many bytes come before the place, those of the rest of its line aside
    left: u64,
    pub place: Place,
    pub line: Vec<u8>,
    pub front: Vec<u8>,
    is_over: bool,
}

impl Search {
    fn keep(&mut self, byte: u8) -> Result<(), Memory> {
        if self.line.len() < LINE {
            self.line.push(byte)?;
        }
        Ok(())
    }

    // A byte in front of the place.
    fn pass(&mut self, byte: u8) -> Result<(), Memory> {
        self.left = self.left.saturating_sub(1);
        if self.front.len() < FRONT {
            self.front.push(byte)?;
        }
        if byte == b'\n' {
            self.line.clear();
            self.place = Place {
                line: self.place.line.saturating_add(1),
                column: 1,
            };
            return Ok(());
        }
        self.place.column = self.place.column.saturating_add(1);
        self.keep(byte)
    }

    // A byte at the place or behind it.
    fn go_on(&mut self, byte: u8) -> Result<(), Memory> {
        if self.front.len() < FRONT {
            self.front.push(byte)?;
        }
        if byte == b'\n' {
            self.is_over = true;
            return Ok(());
        }
        self.keep(byte)
    }

    fn take(&mut self, bytes: &[u8]) -> Result<(), Memory> {
        for byte in bytes {
            if self.is_over {
                return Ok(());
            }
            if self.left > 0 {
                self.pass(*byte)?;
            } else {
                self.go_on(*byte)?;
            }
        }
        Ok(())
    }
}

/// Looks for byte number `at` of a trace.
pub fn searched<W: World>(alloc: Global, world: &mut W, name: &str, at: u64) -> Result<Search, Stop>
    requires { W.allows Trace name.now }
    ensures reads { OnlyReads (W.state world.old) (W.state world.new) }
    ensures calm { OnOk result (SameCounts (W.state world.old) (W.state world.new)) }
{
    open_file(world, Slot::Trace, name)?;
    let mut buffer = vec![in alloc; 0u8; PIECE]?;
    let piece = buffer.as_mut_slice();
    let mut search = Search {
        left: at,
        place: Place::START,
        line: Vec::new(alloc),
        front: Vec::new(alloc),
        is_over: false,
    };
    for _ in 0..u64::MAX {
        let count = read_on(world, Slot::Trace, piece)?;
        search.take(&piece[..count])?;
        if count == 0 || search.is_over {
            break;
        }
    }
    Ok(search)
}
