//! The program's one call.

ghost use Rattle.std.specs.Prelude.{◌≡◌, ◌⊎◌, ◌↔◌, ℕ, List, Err, IsTrue, OnOk, nat_eq};
ghost use Rattle.std.specs.Result.{is_ok};
ghost use Rattle.ccsl_edge.specs.declared.slot.Slot.{Slot};
ghost use Rattle.ccsl_edge.specs.Counts.{SameCounts};
ghost use Rattle.ccsl_edge.specs.declared.stop.Stop.TheVariants as stops;
ghost use Rattle.ccsl_follow.specs.OnlyReads.{OnlyReads};
ghost use Rattle.ccsl_show_top.specs.Follows.{Follows, Shows};

use crate::heard::{Heard, Listen};
use crate::help::put_usage;
use ccsl_base::{CommandWord, HashKeys};
use ccsl_command::words as command_line;
use ccsl_edge::{Slot, World, write_all};
use ccsl_follow::Stop;
use ccsl_page::Page;
use ccsl_pool::Gate;
use ccsl_show::{Again, Asking, Own, Said, read_report, show};
use std::alloc::Global;
use std::thread::Threads;

// Puts on a page what stands behind an answer.
fn put_behind<W: World, O: World>(
    asking: &Asking<'_>,
    world: &mut W,
    out: &mut O,
    page: &mut Page,
    words: &[CommandWord],
) -> Result<(), Stop>
    requires allowed { (slot : Slot) (name : List ℕ) → W.allows slot name }
    requires all { (slot : Slot) (name : List ℕ) → O.allows slot name }
    ensures reads { OnlyReads (W.state world.old) (W.state world.new) }
    ensures calm { OnOk result (SameCounts (W.state world.old) (W.state world.new)) }
{
    match command_line(asking.alloc, words) {
        Ok(command) => show(asking, world, out, page, &command),
        Err(_usage) => Ok(put_usage(page, words)?),
    }
}

// Reports a page.
fn report_page<W: World>(world: &mut W, page: &Page) -> Result<(), Stop>
    ensures follows { Follows W.told (W.state world.old) (W.state world.new) }
    ensures calm { OnOk result (SameCounts (W.state world.old) (W.state world.new)) }
{
    match write_all(world, Slot::Report, page.bytes()) {
        Ok(()) => Ok(()),
        Err(_failed) => Err(Stop::Fault),
    }
}

// Shows what stands behind an answer, up to where something kept it from being whole.
fn show_behind<W: World, O: World>(
    asking: &Asking<'_>,
    world: &mut W,
    out: &mut O,
    words: &[CommandWord],
) -> Result<(), Stop>
    requires allowed { (slot : Slot) (name : List ℕ) → W.allows slot name }
    requires all { (slot : Slot) (name : List ℕ) → O.allows slot name }
    ensures follows { Follows W.told (W.state world.old) (W.state world.new) }
    ensures calm { OnOk result (SameCounts (W.state world.old) (W.state world.new)) }
{
    let mut page = Page::coloured(asking.alloc, asking.own.is_coloured);
    let shown = put_behind(asking, world, out, &mut page, words);
    report_page(world, &page)?;
    shown
}

// What stands behind the answer with this status, where there is one.
fn shown_behind<W: World, O: World, L: Listen>(
    asking: Asking<'_>,
    world: &mut Heard<W, L>,
    out: &mut O,
    words: &[CommandWord],
    status: u8,
) -> Result<(), Stop>
    requires allowed { (slot : Slot) (name : List ℕ) → W.allows slot name }
    requires all { (slot : Slot) (name : List ℕ) → O.allows slot name }
    ensures follows { Follows W.told (W.state world.old.world) (W.state world.new.world) }
    ensures ends { (status ≡ 5) ⊎ (status ≡ 6) → W.state world.new.world ≡ W.state world.old.world }
    ensures calm { OnOk result (SameCounts (W.state world.old.world) (W.state world.new.world)) }
{
    if status == 5 || status == 6 {
        return Ok(());
    }
    let report = Vec::from_slice(asking.alloc, world.said())?;
    let asking = Asking {
        alloc: asking.alloc,
        keys: asking.keys,
        own: asking.own,
        again: asking.again,
        said: read_report(report.as_slice()),
    };
    show_behind(&asking, world, out, words)
}

/// What a run has come to: the exit status of `ccsl`, and whether all was shown that there is.
#[derive(Clone, Copy)]
pub struct Outcome {
    pub status: u8,
    pub shown: Result<(), Stop>,
}

impl Outcome {
    /// Whether a file failed before there was an answer.
    pub fn is_failed(self) -> bool
        ensures { result ≡ nat_eq self.status 5 }
    {
        self.status == 5
    }

    /// Whether memory was wanting, for the answer or behind it.
    pub fn wants_memory(self) -> bool
        ensures { IsTrue result ↔ ((self.status ≡ 6) ⊎ (self.shown ≡ Err stops.Memory)) }
    {
        self.status == 6 || self.shown == Err(Stop::Memory)
    }

    /// Whether a file failed behind the answer, or was another than before.
    pub fn is_cut(self) -> bool
        ensures { IsTrue result ↔ (self.shown ≡ Err stops.Fault) }
    {
        self.shown == Err(Stop::Fault)
    }
}

/// Does all that `ccsl` does with these words, and then shows what stands behind the answer, where the files can be
/// read again. What is drawn beside it is written to the world `out`.
pub fn run<R: Threads + Sync, W: World, O: World, L: Listen, G: Gate>(
    rt: &R,
    alloc: Global,
    keys: HashKeys,
    words: &[CommandWord],
    own: Own<'_>,
    again: Again,
    world: &mut Heard<W, L>,
    out: &mut O,
    gate: &G,
) -> Outcome
    requires allowed { (slot : Slot) (name : List ℕ) → W.allows slot name }
    requires all { (slot : Slot) (name : List ℕ) → O.allows slot name }
    ensures { Shows W.told words.now result.status (is_ok result.shown)
        (W.state world.old.world) (W.state world.new.world) }
{
    let status = ccsl_top::run(rt, alloc, keys, words, world, gate);
    let asking = Asking {
        alloc,
        keys,
        own,
        again,
        said: Said::Other,
    };
    let shown = shown_behind(asking, world, out, words, status);
    Outcome { status, shown }
}
