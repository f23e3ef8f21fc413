//! The header, the body, and the step from one to the other.

ghost use Rattle.std.specs.Prelude.{◌≡◌, ◌<◌, ◌≤◌, ◌+◌, ◌++◌, ◌^◌, length, take, IfOk, IfErr, OnErr, None, true};
ghost use Rattle.std.specs.Option.{option_copied};
ghost use Rattle.ccsl_vcd_lex.specs.Tokens.{token, word};
ghost use Rattle.ccsl_vcd.specs.Binding.{Wanted};
ghost use Rattle.ccsl_vcd.specs.Reading.{Story, next};
ghost use Rattle.ccsl_vcd_read.specs.Heading.{Refuses, Caused, NotMemory};
ghost use Rattle.ccsl_vcd_read.specs.Staging.{Pictures, Heard, IsClosing, Begins, row_left, shown, ends_well, is_body, RunsIn, FillsIn};

use crate::body::{Body, give};
use crate::heading::Heading;
use crate::opening::open_body;
use ccsl_base::{Block, ClockSet};
use ccsl_vcd::{Limits, VcdFault};
use std::alloc::Global;
use std::mem;

/// What is kept of a trace that is being read.
#[derive(Drop)]
pub(crate) enum Stage {
    Header(Heading),
    Body(Body),
    /// The clocks could not be bound.
    Unbound,
}

// The header has ended: binds the clocks.
fn begin_body(stage: &mut Stage, alloc: Global) -> Result<(), VcdFault>
    requires { (wanted : Wanted) × (st : Story) × (after : Story)
        × IsClosing wanted stage.old st after }
    ensures goes { IfOk result (λ _. (wanted : Wanted) (st next : Story) →
        IsClosing wanted stage.old st next →
        Begins stage.new st next) }
    ensures refuses { IfErr result (λ f.
        Caused f ((wanted : Wanted) (st next : Story) → IsClosing wanted stage.old st next →
        Refuses f st next)) }
    ensures none { OnErr result (shown stage.new ≡ None) }
{
    match mem::replace(stage, Stage::Unbound) {
        Stage::Header(heading) => match open_body(alloc, heading.binder) {
            Ok(body) => {
                *stage = Stage::Body(body);
                Ok(())
            }
            Err(fault) => Err(fault),
        },
        _ => Ok(()),
    }
}

/// A token that ended, at a place, and whether it ends the header.
pub(crate) fn hear(
    stage: &mut Stage,
    alloc: Global,
    limits: Limits,
    at: u64,
    text: &[u8],
    out: &mut Block,
) -> Result<bool, VcdFault>
    requires room { length out.old.rows < out.old.room }
    requires pictures { (wanted : Wanted) × (st : Story) × Pictures wanted limits stage.old st }
    ensures heard { IfOk result (λ ended. (wanted : Wanted) (st : Story) →
        Pictures wanted limits stage.old st →
        Heard wanted limits stage.old stage.new ended st
        (next wanted limits st (word (token at text.now))) out.old.rows out.new.rows) }
    ensures left { IfOk result (λ _. length out.new.rows + length (row_left stage.new)
        ≤ length out.old.rows + 1) }
    ensures refuses { IfErr result (λ f.
        Caused f ((wanted : Wanted) (st : Story) → Pictures wanted limits stage.old st →
        Refuses f st (next wanted limits st (word (token at text.now))))) }
    ensures kept { OnErr result ((out.new ≡ out.old) × (shown stage.new ≡ shown stage.old)) }
    ensures calm { IfErr result (λ f. is_body stage.old ≡ true → NotMemory f) }
    ensures room { out.new.room ≡ out.old.room }
{
    match stage {
        Stage::Body(body) => match body.hear(at, text, out) {
            Ok(()) => Ok(false),
            Err(fault) => Err(fault),
        },
        Stage::Header(heading) => match heading.hear(limits, at, text) {
            Ok(false) => Ok(false),
            Ok(true) => match begin_body(stage, alloc) {
                Ok(()) => Ok(true),
                Err(fault) => Err(fault),
            },
            Err(fault) => Err(fault),
        },
        Stage::Unbound => Ok(false),
    }
}

/// Whether the header has ended.
pub(crate) fn is_body(stage: &Stage) -> bool
    ensures { result ≡ is_body stage.now }
{
    match stage {
        Stage::Body(_) => true,
        _ => false,
    }
}

/// Hears the tokens of a body that lie whole in a piece, as far as it hears them, and answers how many bytes that are.
pub(crate) fn run(stage: &mut Stage, at: u64, piece: &[u8], out: &mut Block) -> usize
    requires past { is_body stage.old ≡ true }
    requires room { length out.old.rows < out.old.room }
    requires fits { at + length piece.now < 2 ^ 64 }
    ensures within { result ≤ length piece.now }
    ensures runs { RunsIn stage.old stage.new at (take result piece.now) out.old.rows out.new.rows }
    ensures full { length out.new.rows ≡ out.new.room →
        FillsIn stage.old at (take result piece.now) out.old.rows out.old.room }
    ensures room { out.new.room ≡ out.old.room }
{
    match stage {
        Stage::Body(body) => body.run(at, piece, out),
        _ => 0,
    }
}

/// Whether a trace may end there.
pub(crate) fn may_end(stage: &Stage) -> bool
    ensures { result ≡ ends_well stage.now }
{
    match stage {
        Stage::Body(body) => body.amid.is_changes() && !body.dumping,
        _ => false,
    }
}

/// Gives out the row of the present time, if a clock ticks.
pub(crate) fn give_left(stage: &Stage, out: &mut Block)
    requires { length out.old.rows + length (row_left stage.now) ≤ out.old.room }
    ensures { out.new ≡ record out.old { rows = out.old.rows ++ row_left stage.now } }
{
    if let Stage::Body(body) = stage {
        give(body, out);
    }
}

/// The bound clocks, once they are bound.
pub(crate) fn bound(stage: &Stage) -> Option<&ClockSet>
    ensures { option_copied result ≡ shown stage.now }
{
    match stage {
        Stage::Body(body) => Some(body.binding.bound()),
        _ => None,
    }
}
