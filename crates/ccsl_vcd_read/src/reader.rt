//! A reader that is fed pieces of a trace.

ghost use Rattle.std.specs.Prelude.{◌≡◌, ℕ, List, [], ◌++◌, length, take, ◌<◌, ◌≤◌, ◌⊎◌, true, false, IfOk, IfErr, OnOk, OnErr, IfSome, IfNone, None, Some};
ghost use Rattle.std.specs.Prelude.{Err, ◌+◌, ◌-◌, ◌^◌};
ghost use Rattle.ccsl_vcd.specs.Binding.{Wanted};
ghost use Rattle.std.specs.Option.{option_copied};
ghost use Rattle.ccsl_vcd_lex.specs.Tokens.{token, word};
ghost use Rattle.ccsl_vcd.specs.Reading.{so_far, reading, Story, next};
ghost use Rattle.ccsl_vcd.specs.Rows.{recorded};
ghost use Rattle.ccsl_vcd.specs.Completed.{complete, done};
ghost use Rattle.ccsl_bind.specs.Collected.{wanted_of};
ghost use Rattle.ccsl_vcd_read.specs.Heading.{Caused, IsMemory, NotMemory, Refuses};
ghost use Rattle.ccsl_vcd_read.specs.Staging.{Pictures, Heard, is_body, row_left, shown, shown_at};
ghost use Rattle.ccsl_vcd_read.specs.Reading.{StandsFor, Pushes, Decides, HeaderSo, IsCalm, CanTake, Takes, Stops, shows, AtEnd, Refused, AreCounts};
ghost use Rattle.ccsl_vcd_read.specs.Reading.{FilledByLast};

use crate::buffer::Buffer;
use crate::command::Command;
use crate::heading::Heading;
use crate::lexer::Lexer;
use crate::stage::{Stage, bound, give_left, hear, is_body, may_end, run};
use ccsl_base::{Block, ClockSet, HashKeys, Memory};
use ccsl_bind::Binder;
use ccsl_kernel::System;
use ccsl_vcd::{Limits, VcdFault};
use ccsl_vcd_lex::is_space;
use std::alloc::Global;
use std::marker::Model;

/// How many bytes of a piece were taken, and whether the last of them ended the header.
#[derive(Clone, Copy)]
pub struct Taken {
    pub bytes: usize,
    pub header_ended: bool,
}

/// How many rows and bytes a trace has.
#[derive(Clone, Copy)]
pub struct Counts {
    pub rows: u64,
    pub bytes: u64,
}

/// Takes the bytes of a trace, and gives out its rows as they are completed.
pub struct Reader {
    alloc: Global,
    lexer: Lexer,
    limits: Limits,
    taken: u64,
    rows: u64,
    stage: Stage,
    fault: Option<VcdFault>,
}

// By hand and not derived: to the prover, an early return then drops one by a single call.
impl Drop for Reader {
    fn drop(self) {
        let Reader {
            alloc: _,
            lexer: _lexer,
            limits: _,
            taken: _,
            rows: _,
            stage: _stage,
            fault: _,
        } = self;
    }
}

impl Model for Reader {
    ghost use Rattle.ccsl_vcd_read.specs.Reading.{Reading};

    ghost Value = { Reading };

    ghost view = { λ r. record {
      lexing = r.lexer;
      limits = r.limits;
      taken = r.taken;
      rows = r.rows;
      stage = r.stage;
      fault = r.fault;
    } };
}

impl Reader {
    /// A reader before the first byte of a trace, for the written clocks of a system. The trace's codes are hashed by
    /// random keys.
    pub fn open(
        alloc: Global,
        keys: HashKeys,
        system: &System,
        limits: &Limits,
    ) -> Result<Reader, Memory>
        ensures limits { IfOk result (λ r. r.limits ≡ limits.now) }
        ensures runs { IfOk result (λ r. r.fault ≡ None) }
        ensures stands { IfOk result (λ r. StandsFor (wanted_of system.now) r []) }
    {
        let lexer = Lexer::open(alloc)?;
        let binder = Binder::open(alloc, keys, system)?;
        Ok(Reader {
            alloc,
            lexer,
            limits: *limits,
            taken: 0,
            rows: 0,
            stage: Stage::Header(Heading {
                binder,
                depth: 0,
                vars: 0,
                command: Command::Between,
                kind: Buffer::new(alloc),
                size: 0,
                code: Buffer::new(alloc),
                reference: Buffer::new(alloc),
                first: 0,
            }),
            fault: None,
        })
    }

    // From here on every call answers the fault.
    fn fail(&mut self, fault: VcdFault) -> VcdFault
        ensures result { result ≡ fault }
        ensures after { self.new ≡ record self.old { fault = Some fault } }
    {
        self.fault = Some(fault);
        fault
    }

    // The token that ended last, at a place, and whether it ends the header.
    fn hear_token(&mut self, at: u64, out: &mut Block) -> Result<bool, VcdFault>
        requires room { length out.old.rows < out.old.room }
        requires pictures { (wanted : Wanted) × (st : Story)
            × Pictures wanted self.old.limits self.old.stage st }
        requires rows { self.old.rows + 1 < 2 ^ 64 }
        ensures heard { IfOk result (λ ended. (wanted : Wanted) (st : Story) →
            Pictures wanted self.old.limits self.old.stage st →
            Heard wanted self.old.limits self.old.stage self.new.stage ended st
            (next wanted self.old.limits st (word (token at self.old.lexing.inner.last)))
            out.old.rows out.new.rows) }
        ensures counts { OnOk result (self.new ≡ record self.old {
          stage = self.new.stage;
          rows = self.old.rows + (length out.new.rows - length out.old.rows);
        }) }
        ensures left { OnOk result (length out.new.rows + length (row_left self.new.stage)
            ≤ length out.old.rows + 1) }
        ensures refuses { IfErr result (λ f.
            Caused f ((wanted : Wanted) (st : Story) →
            Pictures wanted self.old.limits self.old.stage st →
            Refuses f st (next wanted self.old.limits st
            (word (token at self.old.lexing.inner.last))))) }
        ensures stops { IfErr result (λ f. self.new
            ≡ record self.old { stage = self.new.stage; fault = Some f }) }
        ensures calm { IfErr result (λ f. is_body self.old.stage ≡ true → NotMemory f) }
        ensures kept { OnErr result ((out.new ≡ out.old)
            × (shown self.new.stage ≡ shown self.old.stage)) }
        ensures room { out.new.room ≡ out.old.room }
    {
        let before = out.len();
        let text = self.lexer.token();
        match hear(&mut self.stage, self.alloc, self.limits, at, text, out) {
            Ok(ended) => {
                self.rows += (out.len() - before) as u64;
                Ok(ended)
            }
            Err(fault) => {
                self.fault = Some(fault);
                Err(fault)
            }
        }
    }

    // Takes bytes of a piece up to the first by which a token ends, or all that the limit leaves.
    fn advance(&mut self, piece: &[u8], out: &mut Block) -> Result<Taken, VcdFault>
        requires some { 0 < length piece.now }
        requires ready { CanTake self.old out.old }
        ensures takes { IfOk result
            (λ t. Takes self.old self.new piece.now t.bytes t.header_ended out.old out.new) }
        ensures moves { IfOk result (λ t. 0 < t.bytes) }
        ensures stops { IfErr result (λ f. Stops self.old self.new piece.now f out.old out.new) }
    {
        let left = self.limits.bytes - self.taken;
        if left == 0 {
            let at = self.limits.bytes;
            return Err(self.fail(VcdFault::TooLong { at }));
        }
        let piece = front(piece, left);
        match self.lexer.feed_run(piece) {
            Ok(fed) => {
                self.taken += fed.bytes as u64;
                match fed.ended {
                    Some(span) => match self.hear_token(span.at, out) {
                        Ok(header_ended) => Ok(Taken {
                            bytes: fed.bytes,
                            header_ended,
                        }),
                        Err(fault) => Err(fault),
                    },
                    None => Ok(Taken {
                        bytes: fed.bytes,
                        header_ended: false,
                    }),
                }
            }
            Err(long) => Err(self.fail(VcdFault::TokenTooLong { at: long.at })),
        }
    }

    // Hears the tokens of a body that lie whole in a piece, where no token is open, and answers how many bytes that
    // are.
    fn race(&mut self, piece: &[u8], out: &mut Block) -> usize
        requires ready { CanTake self.old out.old }
        requires nothing_open { self.old.lexing.inner.open_text ≡ [] }
        ensures { Takes self.old self.new piece.now result false out.old out.new }
    {
        if !is_body(&self.stage) {
            return 0;
        }
        let piece = front(piece, self.limits.bytes - self.taken);
        let before = out.len();
        let count = run(&mut self.stage, self.taken, piece, out);
        self.lexer.pass(count as u64);
        self.taken += count as u64;
        self.rows += (out.len() - before) as u64;
        count
    }

    // Takes bytes of a piece up to the first by which a token ends, and behind it tokens that lie whole in the piece.
    fn stride(&mut self, piece: &[u8], out: &mut Block) -> Result<Taken, VcdFault>
        requires some { 0 < length piece.now }
        requires ready { CanTake self.old out.old }
        ensures takes { IfOk result
            (λ t. Takes self.old self.new piece.now t.bytes t.header_ended out.old out.new) }
        ensures moves { IfOk result (λ t. 0 < t.bytes) }
        ensures stops { IfErr result (λ f. Stops self.old self.new piece.now f out.old out.new) }
    {
        let step = match self.advance(piece, out) {
            Ok(step) => step,
            Err(fault) => return Err(fault),
        };
        if step.header_ended || out.is_full() || !is_space(piece[step.bytes - 1]) {
            return Ok(step);
        }
        let more = self.race(&piece[step.bytes..], out);
        Ok(Taken {
            bytes: step.bytes + more,
            header_ended: false,
        })
    }

    /// Takes bytes of a piece of the trace: up to the one that ends the header, or by which the block became full, or
    /// all of them. Once there was a fault every call answers it.
    pub fn feed(&mut self, piece: &[u8], out: &mut Block) -> Result<Taken, VcdFault>
        requires room { length out.old.rows < out.old.room }
        requires stands { IfNone self.old.fault
            ((wanted : Wanted) × (bytes : List ℕ) × StandsFor wanted self.old bytes) }
        ensures limits { self.new.limits ≡ self.old.limits }
        ensures room { out.new.room ≡ out.old.room }
        ensures within { IfOk result (λ t. t.bytes ≤ length piece.now) }
        ensures moves { IfOk result (λ t. 0 < length piece.now → 0 < t.bytes) }
        // It stops only at the end of the piece, where the block is full, or where the header ended.
        ensures stops { IfOk result (λ t. t.bytes < length piece.now →
            (length out.new.rows ≡ out.new.room) ⊎ (t.header_ended ≡ true)) }
        // Where the block is full, the last byte that was taken filled it.
        ensures filled { IfOk result
            (λ t. FilledByLast self.old piece.now t.bytes out.old out.new) }

        ensures stands { IfOk result (λ t. (wanted : Wanted) (bytes : List ℕ) →
            StandsFor wanted self.old bytes →
            StandsFor wanted self.new (bytes ++ take t.bytes piece.now)) }
        ensures runs { OnOk result ((self.new.fault ≡ None) × (self.old.fault ≡ None)) }
        // The rows that were pushed are those that the bytes taken complete.
        ensures pushes { IfOk result (λ t. (wanted : Wanted) (bytes : List ℕ) →
            StandsFor wanted self.old bytes →
            Pushes (done wanted self.old.limits bytes)
            (done wanted self.old.limits (bytes ++ take t.bytes piece.now))
            out.old.rows out.new.rows) }
        ensures header { IfOk result (λ t. (wanted : Wanted) (bytes : List ℕ) →
            StandsFor wanted self.old bytes →
            HeaderSo t.header_ended wanted self.old.limits bytes piece.now t.bytes) }

        // A fault is one that some bytes from the front of the piece decide, unless it is want of memory.
        ensures decides { IfErr result (λ f.
            IfNone self.old.fault (Caused f ((wanted : Wanted) (bytes : List ℕ) →
            StandsFor wanted self.old bytes →
            Decides wanted self.old.limits bytes piece.now f out.old.rows out.new.rows))) }
        // It is the fault of every file that begins with the bytes so far and this piece.
        ensures refuses { IfErr result (λ f.
            Caused f ((wanted : Wanted) (bytes more : List ℕ) → StandsFor wanted self.old bytes →
            (reading wanted self.old.limits (bytes ++ (piece.now ++ more))).fault ≡ Some f)) }
        // Once the header has ended it is no want of memory.
        ensures calm { IfErr result
            (λ f. IfNone self.old.fault ((wanted : Wanted) (bytes : List ℕ) →
            StandsFor wanted self.old bytes →
            IsCalm wanted self.old.limits bytes f)) }
        ensures faulty { IfErr result (λ f. self.new.fault ≡ Some f) }
        // Where memory is wanted no row was pushed, and no clock is bound.
        ensures unpushed { IfErr result (λ f. IsMemory f → out.new ≡ out.old) }
        ensures unbound { IfErr result (λ f. IsMemory f →
            IfNone self.old.fault (shows self.new ≡ None)) }
        ensures still { OnErr result ((wanted : Wanted) (bytes : List ℕ) →
            StandsFor wanted self.old bytes →
            StandsFor wanted self.new (bytes ++ piece.now)) }
        // After a fault it answers that fault, and does nothing.
        ensures sticks { IfSome self.old.fault
            (λ f. (result ≡ Err f) × (self.new ≡ self.old) × (out.new ≡ out.old)) }
    {
        if let Some(fault) = self.fault {
            return Err(fault);
        }
        let mut from = 0;
        while from < piece.len() {
            match self.stride(&piece[from..], out) {
                Ok(step) => {
                    from += step.bytes;
                    if step.header_ended || out.is_full() {
                        return Ok(Taken {
                            bytes: from,
                            header_ended: step.header_ended,
                        });
                    }
                }
                Err(fault) => return Err(fault),
            }
        }
        Ok(Taken {
            bytes: from,
            header_ended: false,
        })
    }

    // Hears the token that the end of the trace ends, if one is open.
    fn last_token(&mut self, out: &mut Block) -> Result<(), VcdFault>
        requires ready { CanTake self.old out.old }
        requires rows { self.old.rows + 1 < 2 ^ 64 }
        requires fits { self.old.taken < 2 ^ 64 }
        ensures ends { OnOk result ((wanted : Wanted) (bytes : List ℕ) →
            StandsFor wanted self.old bytes →
            AtEnd wanted self.old self.new bytes out.old.rows out.new.rows) }
        ensures left { OnOk result (length out.new.rows + length (row_left self.new.stage)
            ≤ length out.old.rows + 1) }
        ensures few { OnOk result (self.new.rows + length (row_left self.new.stage) < 2 ^ 64) }
        ensures refuses { IfErr result (λ f.
            Caused f ((wanted : Wanted) (bytes : List ℕ) → StandsFor wanted self.old bytes →
            Refused wanted self.old bytes f)) }
        ensures stops { IfErr result (λ f. self.new.fault ≡ Some f) }
        ensures calm { IfErr result (λ f. is_body self.old.stage ≡ true → NotMemory f) }
        ensures kept { OnErr result ((out.new ≡ out.old)
            × (shown self.new.stage ≡ shown self.old.stage)) }
        ensures room { out.new.room ≡ out.old.room }
    {
        match self.lexer.finish() {
            Some(span) => match self.hear_token(span.at, out) {
                Ok(_) => Ok(()),
                Err(fault) => Err(fault),
            },
            None => Ok(()),
        }
    }

    /// Ends the trace: its last token has ended, and the row of the present time is complete. After an Ok no other call
    /// is made.
    pub fn finish(&mut self, out: &mut Block) -> Result<Counts, VcdFault>
        requires room { length out.old.rows < out.old.room }
        requires stands { IfNone self.old.fault
            ((wanted : Wanted) × (bytes : List ℕ) × StandsFor wanted self.old bytes) }
        ensures room { out.new.room ≡ out.old.room }
        ensures accepts { OnOk result ((wanted : Wanted) (bytes : List ℕ) →
            StandsFor wanted self.old bytes →
            (reading wanted self.old.limits bytes).fault ≡ None) }
        ensures pushes { OnOk result ((wanted : Wanted) (bytes : List ℕ) →
            StandsFor wanted self.old bytes →
            Pushes (done wanted self.old.limits bytes) (recorded wanted self.old.limits bytes)
            out.old.rows out.new.rows) }
        ensures counts { IfOk result (λ n. (wanted : Wanted) (bytes : List ℕ) →
            StandsFor wanted self.old bytes →
            AreCounts wanted self.old.limits bytes n.rows n.bytes) }
        // It shows the bound clocks, also where the end of the trace ended the header.
        ensures shows { OnOk result ((wanted : Wanted) (bytes : List ℕ) →
            StandsFor wanted self.old bytes →
            shows self.new ≡ shown_at (reading wanted self.old.limits bytes).place) }

        ensures refuses { IfErr result (λ f.
            Caused f ((wanted : Wanted) (bytes : List ℕ) → StandsFor wanted self.old bytes →
            (reading wanted self.old.limits bytes).fault ≡ Some f)) }
        // The rows that were pushed are those that the last token completes.
        ensures completes { IfErr result (λ f.
            IfNone self.old.fault (Caused f ((wanted : Wanted) (bytes : List ℕ) →
            StandsFor wanted self.old bytes →
            Pushes (done wanted self.old.limits bytes)
            (complete (reading wanted self.old.limits bytes)) out.old.rows out.new.rows))) }
        // Once the header has ended it is no want of memory.
        ensures calm { IfErr result
            (λ f. IfNone self.old.fault ((wanted : Wanted) (bytes : List ℕ) →
            StandsFor wanted self.old bytes →
            IsCalm wanted self.old.limits bytes f)) }
        ensures faulty { IfErr result (λ f. self.new.fault ≡ Some f) }
        // Where memory is wanted no row was pushed, and no clock is bound.
        ensures unpushed { IfErr result (λ f. IsMemory f → out.new ≡ out.old) }
        ensures unbound { IfErr result (λ f. IsMemory f →
            IfNone self.old.fault (shows self.new ≡ None)) }
        ensures sticks { IfSome self.old.fault
            (λ f. (result ≡ Err f) × (self.new ≡ self.old) × (out.new ≡ out.old)) }
    {
        if let Some(fault) = self.fault {
            return Err(fault);
        }
        let bytes = self.taken;
        match self.last_token(out) {
            Ok(()) => {
                if !may_end(&self.stage) {
                    return Err(self.fail(VcdFault::Truncated { at: bytes }));
                }
                let before = out.len();
                give_left(&self.stage, out);
                Ok(Counts {
                    rows: self.rows + (out.len() - before) as u64,
                    bytes,
                })
            }
            Err(fault) => Err(fault),
        }
    }

    /// The bound clocks, once the header has ended and bound them.
    pub fn bound(&self) -> Option<&ClockSet>
        ensures shows { option_copied result ≡ shows self.now }
        ensures runs { IfNone self.now.fault ((wanted : Wanted) (bytes : List ℕ) →
            StandsFor wanted self.now bytes →
            option_copied result ≡ shown_at (so_far wanted self.now.limits bytes).place) }
        ensures stopped { IfSome self.now.fault
            (λ f. Caused f ((wanted : Wanted) (bytes : List ℕ) → StandsFor wanted self.now bytes →
            option_copied result ≡ shown_at (so_far wanted self.now.limits bytes).place)) }
    {
        bound(&self.stage)
    }
}

// At most so many bytes from the front of a piece.
fn front(piece: &[u8], left: u64) -> &[u8]
    ensures { result.now ≡ take left piece.now }
{
    if left < piece.len() as u64 {
        &piece[..left as usize]
    } else {
        piece
    }
}
