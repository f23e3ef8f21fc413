//! A world in memory, which tells everything and fails where it is asked to.

ghost use Rattle.std.specs.Prelude.{◌≡◌, ◌<◌, ◌≤◌, min, length, take, [], ⊤, IsTrue, IfOk, OnOk, OnErr};
ghost use Rattle.std.specs.Option.{option_copied};
ghost use Rattle.ccsl_edge.specs.Slots.{IsInput, IsInputFile, IsOutput, IsOutputFile};
ghost use Rattle.ccsl_edge.specs.World.{file_at, risen, Rose};
ghost use Rattle.ccsl_edge.specs.Calls.{Fails, OpensIn, Takes, OpensOut, Adds, Closes};
ghost use Rattle.ccsl_edge.specs.SlotTable.{slot_in};
ghost use Rattle.ccsl_edge.specs.Memory.{memory_at_start, with_bytes, shown, tells_all};
ghost use Rattle.ccsl_edge.specs.Memory.{IsMissing, CountsFault, Counts};
ghost use Rattle.ccsl_edge.specs.Memory.{Succeeds, FailsByCause, FailsOrStarves};

use crate::held::{HeldFile, content_of, store};
use crate::place::Place;
use crate::plan::{CallKind, FaultPlan};
use crate::slot::Slot;
use crate::world::{Failed, World};
use std::alloc::Global;
use std::marker::Model;

/// Files and slots in memory. It tells everything, moves at most `piece` bytes in one read or write, and lets the
/// listed calls fail. Any other call fails only for a missing file at `open_in`, or for a want of memory of the
/// world's own.
pub struct MemoryWorld {
    alloc: Global,
    files: Vec<HeldFile>,
    slots: [Place; 7],
    plan: FaultPlan,
    piece: usize,
    starved: u64,
}

// By hand and not derived: to the prover, an early return then drops one by a single call.
impl Drop for MemoryWorld {
    fn drop(self) {
        let MemoryWorld {
            alloc: _,
            files: _files,
            slots: _slots,
            plan: _plan,
            piece: _,
            starved: _,
        } = self;
    }
}

impl Model for MemoryWorld {
    ghost use Rattle.std.specs.Prelude.{◌≤◌};
    ghost use Rattle.ccsl_edge.specs.Memory.{MemoryState};

    ghost Value = { MemoryState };

    ghost view = { λ w. record {
      files = w.files.items;
      slots = w.slots;
      plan = w.plan;
      piece = w.piece;
      starved = w.starved;
    } };

    ghost invariant = { λ w. 1 ≤ w.piece };
}

impl MemoryWorld {
    /// A world with these files, of which the first counts where two have one name. The pair of a kind and `i`
    /// makes the `i`-th call of that kind fail, counted from 1.
    pub fn new(
        alloc: Global,
        files: Vec<HeldFile>,
        failing: Vec<(CallKind, u64)>,
        piece: usize,
    ) -> MemoryWorld
        requires { 1 ≤ piece }
        ensures { result ≡ memory_at_start files.items failing.items piece }
    {
        MemoryWorld {
            alloc,
            files,
            slots: [
                Place::new(alloc, false),
                Place::new(alloc, false),
                Place::new(alloc, false),
                Place::new(alloc, false),
                Place::new(alloc, true),
                Place::new(alloc, false),
                Place::new(alloc, false),
            ],
            plan: FaultPlan::new(failing),
            piece,
            starved: 0,
        }
    }

    /// The same world with these bytes left in `Input`.
    pub fn with_input(mut self, input: Vec<u8>) -> MemoryWorld
        ensures { result ≡ with_bytes self input.items }
    {
        let place = &mut self.slots[Slot::Input.index()];
        place.open_in(input);
        self
    }

    /// What was written to a slot since it was opened; nothing for an input slot.
    pub fn written(&self, slot: Slot) -> &[u8]
        ensures output { IsOutput slot → result.now ≡ (slot_in self.now.slots slot).written }
        ensures input { IsInput slot → result.now ≡ [] }
    {
        match slot {
            Slot::Report | Slot::TraceOut | Slot::CertOut => self.slots[slot.index()].written(),
            Slot::Spec | Slot::Trace | Slot::Cert | Slot::Input => &[],
        }
    }

    /// The content of the named file; `None` where there is no such file.
    pub fn file(&self, name: &str) -> Option<&[u8]>
        ensures { option_copied result ≡ file_at self.now.files name.now }
    {
        content_of(self.files.as_slice(), name)
    }

    /// How often calls on a slot have failed, up to the last value of a counter.
    pub fn faults(&self, slot: Slot) -> u64
        ensures { result ≡ (slot_in self.now.slots slot).faults }
    {
        let place = &self.slots[slot.index()];
        place.faults()
    }

    /// How many calls failed for a want of memory of the world's own, up to the last value of a counter.
    pub fn starved(&self) -> u64
        ensures { result ≡ self.now.starved }
    {
        self.starved
    }
}

impl World for MemoryWorld {
    ghost allows = { λ _ _. ⊤ };

    ghost told = { tells_all };

    ghost state = { shown };

    fn open_in(&mut self, slot: Slot, name: &str) -> Result<(), Failed>
        requires input { IsInputFile slot }
        ensures ok { OnOk result
            (OpensIn tells_all slot name.now (shown self.old) (shown self.new)) }
        ensures err { OnErr result (Fails slot (shown self.old) (shown self.new)) }
        ensures once { OnErr result (CountsFault slot self.old self.new) }
        ensures counts { Counts CallKind.OpenIn self.old self.new }
        ensures succeeds { OnOk result
            (Succeeds CallKind.OpenIn (IsMissing self.old name.now) self.old self.new) }
        ensures fails { OnErr result
            (FailsOrStarves CallKind.OpenIn (IsMissing self.old name.now) self.old self.new) }
    {
        let place = &mut self.slots[slot.index()];
        if self.plan.is_due(CallKind::OpenIn) {
            return Err(place.fail());
        }
        let Some(content) = content_of(self.files.as_slice(), name) else {
            return Err(place.fail());
        };
        let Ok(content) = Vec::from_slice(self.alloc, content) else {
            return Err(starve(&mut self.starved, place));
        };
        place.open_in(content);
        Ok(())
    }

    fn open_out(&mut self, slot: Slot, name: &str) -> Result<(), Failed>
        requires output { IsOutputFile slot }
        ensures ok { OnOk result
            (OpensOut tells_all slot name.now (shown self.old) (shown self.new)) }
        ensures err { OnErr result (Fails slot (shown self.old) (shown self.new)) }
        ensures once { OnErr result (CountsFault slot self.old self.new) }
        ensures counts { Counts CallKind.OpenOut self.old self.new }
        ensures succeeds { OnOk result (Succeeds CallKind.OpenOut ⊥ self.old self.new) }
        ensures fails { OnErr result (FailsOrStarves CallKind.OpenOut ⊥ self.old self.new) }
    {
        let place = &mut self.slots[slot.index()];
        if self.plan.is_due(CallKind::OpenOut) {
            return Err(place.fail());
        }
        let Ok(name) = String::from_str(self.alloc, name) else {
            return Err(starve(&mut self.starved, place));
        };
        place.open_out(name);
        Ok(())
    }

    fn read(&mut self, slot: Slot, buf: &mut [u8]) -> Result<usize, Failed>
        requires input { IsInput slot }
        requires room { 0 < length buf.old }
        ensures ok { IfOk result (λ count.
            Takes tells_all slot count (shown self.old) (shown self.new) buf.new) }
        ensures err { OnErr result (Fails slot (shown self.old) (shown self.new)) }
        ensures count { IfOk result (λ count.
            count ≡ min self.old.piece
            (min (length buf.old) (length (slot_in self.old.slots slot).left))) }
        ensures once { OnErr result (CountsFault slot self.old self.new) }
        ensures counts { Counts CallKind.Read self.old self.new }
        ensures succeeds { OnOk result (Succeeds CallKind.Read ⊥ self.old self.new) }
        ensures fails { OnErr result (FailsByCause CallKind.Read ⊥ self.old self.new) }
    {
        let place = &mut self.slots[slot.index()];
        if self.plan.is_due(CallKind::Read) {
            return Err(place.fail());
        }
        Ok(place.take(self.piece, buf))
    }

    fn write(&mut self, slot: Slot, bytes: &[u8]) -> Result<usize, Failed>
        requires output { IsOutput slot }
        requires opened { IsOutputFile slot → IsTrue (slot_in self.old.slots slot).is_open }
        requires some { 0 < length bytes.now }
        ensures within { IfOk result (λ count. (0 < count) × (count ≤ length bytes.now)) }
        ensures ok { IfOk result (λ count.
            Adds tells_all slot (take count bytes.now) (shown self.old) (shown self.new)) }
        ensures err { OnErr result (Fails slot (shown self.old) (shown self.new)) }
        ensures count { IfOk result (λ count. count ≡ min self.old.piece (length bytes.now)) }
        ensures once { OnErr result (CountsFault slot self.old self.new) }
        ensures counts { Counts CallKind.Write self.old self.new }
        ensures succeeds { OnOk result (Succeeds CallKind.Write ⊥ self.old self.new) }
        ensures fails { OnErr result (FailsOrStarves CallKind.Write ⊥ self.old self.new) }
    {
        let place = &mut self.slots[slot.index()];
        if self.plan.is_due(CallKind::Write) {
            return Err(place.fail());
        }
        let count = self.piece.min(bytes.len());
        let Ok(()) = place.add(&bytes[..count]) else {
            return Err(starve(&mut self.starved, place));
        };
        Ok(count)
    }

    fn close_out(&mut self, slot: Slot) -> Result<(), Failed>
        requires output { IsOutputFile slot }
        requires opened { IsTrue (slot_in self.old.slots slot).is_open }
        ensures ok { OnOk result (Closes tells_all slot (shown self.old) (shown self.new)) }
        ensures err { OnErr result (Fails slot (shown self.old) (shown self.new)) }
        ensures once { OnErr result (CountsFault slot self.old self.new) }
        ensures counts { Counts CallKind.CloseOut self.old self.new }
        ensures succeeds { OnOk result (Succeeds CallKind.CloseOut ⊥ self.old self.new) }
        ensures fails { OnErr result (FailsOrStarves CallKind.CloseOut ⊥ self.old self.new) }
    {
        let place = &mut self.slots[slot.index()];
        if self.plan.is_due(CallKind::CloseOut) {
            return Err(place.fail());
        }
        let Ok(()) = store(self.alloc, &mut self.files, place.name(), place.written()) else {
            return Err(starve(&mut self.starved, place));
        };
        place.close();
        Ok(())
    }
}

/// Counts a call that failed for a want of memory of the world's own.
fn starve(starved: &mut u64, place: &mut Place) -> Failed
    ensures counted { starved.new ≡ risen starved.old }
    ensures after { place.new ≡ record place.old { faults = risen place.old.faults } }
    ensures rose { Rose place.old.faults place.new.faults }
{
    *starved = starved.saturating_add(1);
    place.fail()
}
