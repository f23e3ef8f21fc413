//! A reader of lines.

ghost use Rattle.std.specs.Prelude.{◌≡◌, ◌≢◌, ◌<◌, [], true, false, None, IfOk, IfNone, IfSome, OnErr, position};
ghost use Rattle.ccsl_edge.specs.declared.slot.Slot.TheVariants.{Input};
ghost use Rattle.ccsl_edge.specs.Calls.{Fails, Reads};
ghost use Rattle.ccsl_lines.specs.Lines.{is_line_feed};
ghost use Rattle.ccsl_lines.specs.Held.{StandsFor, begun, calls_left};
ghost use Rattle.ccsl_lines.specs.Steps.{EndsLine, TakesAll, HandsOut, Finishes, ReadsOn, Stops};
ghost use Rattle.ccsl_lines.specs.Given.{Gives, Breaks, goes_on};

use crate::part::Part;
use ccsl_base::Memory;
use ccsl_edge::{Failed, Pending, Slot, World};
use std::alloc::Global;
use std::marker::Model;

/// What the next call on a reader gives.
#[derive(Clone, Copy)]
pub enum Next {
    /// A line, which the reader shows.
    Line,
    /// A line of more than [`MAX_LINE_BYTES`](ccsl_base::MAX_LINE_BYTES) bytes.
    Long,
    /// The end of the input.
    Ended,
    /// The input has more bytes than are taken, and the lines that end within those have been given.
    TooLong,
}

/// A reader of the lines of standard input, of which at most so many bytes are taken. A line ends at its line feed, or
/// at the end of the input where it has at least one byte; a carriage return before its end is dropped. A line is
/// handed out before more is read.
#[derive(Drop)]
pub struct LineReader {
    // Only contracts read it.
    limit: u64,
    // How many more bytes may be taken; `None` once a byte past the limit was read.
    left: Option<u64>,
    pending: Pending,
    part: Part,
    // Whether the part is a line that was handed out.
    handed: bool,
    ended: bool,
}

impl Model for LineReader {
    ghost use Rattle.ccsl_lines.specs.Part.{bytes_of};
    ghost use Rattle.ccsl_lines.specs.Held.{Held};

    ghost Value = { Held };

    ghost view = { λ r. record {
      limit = r.limit;
      left = r.left;
      pending = r.pending;
      part = r.part;
      handed = r.handed;
      line = bytes_of r.part;
      ended = r.ended;
    } };
}

// Where the first line feed stands.
fn line_feed_in(bytes: &[u8]) -> Option<usize>
    ensures { result ≡ position is_line_feed bytes.now }
{
    bytes.iter().position(|b| *b == b'\n')
}

impl LineReader {
    /// Before the first line. All room is taken here.
    pub fn open(alloc: Global, limit: u64) -> Result<LineReader, Memory>
        ensures limit { IfOk result (λ r. r.limit ≡ limit) }
        ensures stands { IfOk result (λ r. StandsFor r [] []) }
        ensures runs { IfOk result (λ r. r.ended ≡ false) }
    {
        let pending = Pending::open(alloc)?;
        let part = Part::open(alloc)?;
        Ok(LineReader {
            limit,
            left: Some(limit),
            pending,
            part,
            handed: false,
            ended: false,
        })
    }

    /// The next line. It takes no memory. After a failed read no other call is made.
    pub fn next<W: World>(&mut self, world: &mut W) -> Result<Next, Failed>
        ensures gives { IfOk result (λ next.
            Gives W.told (W.state world.old) (W.state world.new) self.old self.new next) }
        ensures nears { IfOk result (λ next. goes_on next ≡ true →
            calls_left self.new < calls_left self.old) }
        ensures breaks { OnErr result
            (Breaks W.told (W.state world.old) (W.state world.new) self.old) }
    {
        if self.ended {
            return Ok(Next::Ended);
        }
        self.make_room();
        while !self.take_part() {
            if let Some(next) = self.read_piece(world)? {
                return Ok(next);
            }
        }
        Ok(self.hand_out())
    }

    /// The line, where the last call has handed one out.
    pub fn line(&self) -> &[u8]
        ensures { result.now ≡ self.now.line }
    {
        self.part.bytes()
    }

    // The line that was handed out makes room.
    fn make_room(&mut self)
        ensures fresh { self.new.handed ≡ false }
        ensures begun { self.new.part ≡ begun self.old.handed self.old.part }
        ensures kept { self.new ≡ record self.old {
          part = self.new.part;
          handed = false;
          line = self.new.line;
        } }
    {
        if self.handed {
            self.part.clear();
            self.handed = false;
        }
    }

    // Looks at the pending bytes up to the next line feed, and tells whether there is one.
    fn take_part(&mut self) -> bool
        requires fresh { self.old.handed ≡ false }
        ensures ends { result ≡ true → EndsLine self.old self.new }
        ensures takes { result ≡ false → TakesAll self.old self.new }
        ensures kept { self.new ≡ record self.old {
          pending = self.new.pending;
          part = self.new.part;
          line = self.new.line;
        } }
    {
        let bytes = self.pending.bytes();
        match line_feed_in(bytes) {
            Some(at) => {
                self.part.add(&bytes[..at]);
                self.pending.take(at + 1);
                true
            }
            None => {
                let count = bytes.len();
                self.part.add(bytes);
                self.pending.take(count);
                false
            }
        }
    }

    // The part is a whole line.
    fn hand_out(&mut self) -> Next
        requires fresh { self.old.handed ≡ false }
        ensures hands_out { HandsOut result self.old.part self.new.line }
        ensures kept { self.new ≡ record self.old {
          part = self.new.part;
          handed = true;
          line = self.new.line;
        } }
    {
        self.handed = true;
        if self.part.is_long() {
            return Next::Long;
        }
        self.part.strip_carriage_return();
        Next::Line
    }

    // The input has ended. Its last line may have no line feed.
    fn finish(&mut self) -> Next
        requires fresh { self.old.handed ≡ false }
        ensures finishes { Finishes result self.old self.new }
        ensures ended { self.new.ended ≡ true }
        ensures limit { self.new.limit ≡ self.old.limit }
    {
        self.ended = true;
        if self.part.is_empty() {
            return Next::Ended;
        }
        self.hand_out()
    }

    // Reads the next piece, where all that is pending was looked at, or tells why there is none.
    fn read_piece<W: World>(&mut self, world: &mut W) -> Result<Option<Next>, Failed>
        requires fresh { self.old.handed ≡ false }
        requires looked_at { self.old.pending ≡ [] }
        ensures reads { IfOk result (λ found.
            IfNone found (ReadsOn W.told (W.state world.old)
            (W.state world.new) self.old self.new)) }
        ensures same { IfOk result (λ found.
            IfSome found (λ _. Reads W.told Input [] (W.state world.old) (W.state world.new))) }
        ensures stops { IfOk result (λ found.
            IfSome found (λ next. Stops next W.told (W.state world.new) self.old self.new)) }
        ensures err { OnErr result (Fails Input (W.state world.old) (W.state world.new)) }
        ensures wanted { OnErr result (self.old.left ≢ None) }
    {
        let Some(left) = self.left else {
            return Ok(Some(Next::TooLong));
        };
        let count = self.pending.refill(world, Slot::Input, left)?;
        if count == 0 {
            return Ok(Some(self.finish()));
        }
        self.left = left.checked_sub(count);
        Ok(None)
    }
}
