//! A world in memory that never fails, and keeps nothing of what is written.

ghost use Rattle.std.specs.Prelude.{◌≡◌, ◌<◌, ◌≤◌, min, length, take, drop, ⊤, IsTrue, IfOk, OnOk, OnErr, IsOk, Ok};
ghost use Rattle.ccsl_edge.specs.Slots.{IsInput, IsInputFile, IsOutput, IsOutputFile};
ghost use Rattle.ccsl_edge.specs.World.{held};
ghost use Rattle.ccsl_edge.specs.Calls.{Fails, OpensIn, Takes, OpensOut, Adds, Closes};
ghost use Rattle.ccsl_edge.specs.SlotTable.{slot_in};
ghost use Rattle.ccsl_edge.specs.SlotTable.{file_state};
ghost use Rattle.ccsl_edge.specs.Steady.{steady_at_start, tells_left, content_at, slot_of_source};

use crate::held::{HeldFile, position_of};
use crate::place::move_front;
use crate::slot::Slot;
use crate::world::{Failed, World};
use std::marker::Model;

/// Which of the files a slot reads, how many of its bytes were taken, and whether it is open for writing.
#[derive(Clone, Copy, Drop)]
pub(crate) struct Source {
    file: Option<usize>,
    taken: usize,
    is_open: bool,
}

/// Files in memory, of which a missing one is empty. It takes every write and every close, tells the bytes left, and
/// neither the files nor the bytes written. No call fails, so that each count of faults stays 0, and none takes memory.
#[derive(Drop)]
pub struct SteadyWorld {
    files: Vec<HeldFile>,
    sources: [Source; 7],
    piece: usize,
}

impl Model for SteadyWorld {
    ghost use Rattle.std.specs.Prelude.{◌≤◌, map};
    ghost use Rattle.ccsl_edge.specs.Steady.{SteadyState, slot_of_source};

    ghost Value = { SteadyState };

    ghost view = { λ w. record {
      files = w.files.items;
      slots = map (slot_of_source w.files.items) w.sources;
      piece = w.piece;
    } };

    ghost invariant = { λ w. 1 ≤ w.piece };
}

/// A slot that was never used.
fn unused(is_open: bool) -> Source
    ensures { result ≡ record { file = None; taken = 0; is_open = is_open } }
{
    Source {
        file: None,
        taken: 0,
        is_open,
    }
}

/// The content of a file by its number.
fn content_at<'a>(files: &'a [HeldFile], file: Option<usize>) -> &'a [u8]
    ensures { result.now ≡ content_at files.now file }
{
    let Some(i) = file else {
        return &[];
    };
    match files.get(i) {
        Some(file) => file.content(),
        None => &[],
    }
}

/// The bytes that a slot has left.
fn left<'a>(files: &'a [HeldFile], source: Source) -> &'a [u8]
    ensures { result.now ≡ (slot_of_source files.now source).left }
{
    let content = content_at(files, source.file);
    content.split_at(source.taken.min(content.len())).1
}

/// The slot after so many bytes more were taken.
fn after(files: &[HeldFile], source: Source, count: usize) -> Source
    requires { count ≤ length (slot_of_source files.now source).left }
    ensures { slot_of_source files.now result ≡ record (slot_of_source files.now source) {
      left = drop count (slot_of_source files.now source).left;
    } }
{
    let len = content_at(files, source.file).len();
    Source {
        taken: source.taken.min(len) + count,
        ..source
    }
}

impl SteadyWorld {
    /// A world with these files, of which the first counts where two have one name. One read or write moves at most
    /// `piece` bytes.
    pub fn new(files: Vec<HeldFile>, piece: usize) -> SteadyWorld
        requires { 1 ≤ piece }
        ensures { result ≡ steady_at_start files.items piece }
    {
        SteadyWorld {
            files,
            sources: [
                unused(false),
                unused(false),
                unused(false),
                unused(false),
                unused(true),
                unused(false),
                unused(false),
            ],
            piece,
        }
    }

    /// The most bytes that one read or write moves. No call on any slot has failed.
    pub fn piece(&self) -> usize
        ensures piece { result ≡ self.now.piece }
        ensures faultless { (slot : Slot) → (slot_in self.now.slots slot).faults ≡ 0 }
    {
        self.piece
    }
}

impl World for SteadyWorld {
    ghost allows = { λ _ _. ⊤ };

    ghost told = { tells_left };

    ghost state = { λ w. file_state w.slots };

    fn open_in(&mut self, slot: Slot, name: &str) -> Result<(), Failed>
        requires input { IsInputFile slot }
        ensures ok { OnOk result
            (OpensIn tells_left slot name.now (file_state self.old.slots)
            (file_state self.new.slots)) }
        ensures err { OnErr result
            (Fails slot (file_state self.old.slots) (file_state self.new.slots)) }
        ensures always { IsOk result }
        ensures bytes { (slot_in self.new.slots slot).left ≡ held self.old.files name.now }
        ensures files { self.new.files ≡ self.old.files }
    {
        let file = position_of(self.files.as_slice(), name);
        let source = self.sources[slot.index()];
        self.sources[slot.index()] = Source {
            file,
            taken: 0,
            ..source
        };
        Ok(())
    }

    fn open_out(&mut self, slot: Slot, _name: &str) -> Result<(), Failed>
        requires output { IsOutputFile slot }
        ensures ok { OnOk result
            (OpensOut tells_left slot _name.now (file_state self.old.slots)
            (file_state self.new.slots)) }
        ensures err { OnErr result
            (Fails slot (file_state self.old.slots) (file_state self.new.slots)) }
        ensures always { IsOk result }
        ensures files { self.new.files ≡ self.old.files }
    {
        let source = self.sources[slot.index()];
        self.sources[slot.index()] = Source {
            is_open: true,
            ..source
        };
        Ok(())
    }

    fn read(&mut self, slot: Slot, buf: &mut [u8]) -> Result<usize, Failed>
        requires input { IsInput slot }
        requires room { 0 < length buf.old }
        ensures ok { IfOk result (λ count.
            Takes tells_left slot count (file_state self.old.slots)
            (file_state self.new.slots) buf.new) }
        ensures err { OnErr result
            (Fails slot (file_state self.old.slots) (file_state self.new.slots)) }
        ensures always { result ≡
            Ok (min self.old.piece
            (min (length buf.old) (length (slot_in self.old.slots slot).left))) }
        ensures files { self.new.files ≡ self.old.files }
    {
        let source = self.sources[slot.index()];
        let left = left(self.files.as_slice(), source);
        let count = move_front(left, self.piece, buf);
        self.sources[slot.index()] = after(self.files.as_slice(), source, count);
        Ok(count)
    }

    fn write(&mut self, slot: Slot, bytes: &[u8]) -> Result<usize, Failed>
        requires output { IsOutput slot }
        requires opened { IsOutputFile slot → IsTrue (slot_in self.old.slots slot).is_open }
        requires some { 0 < length bytes.now }
        ensures within { IfOk result (λ count. (0 < count) × (count ≤ length bytes.now)) }
        ensures ok { IfOk result (λ count.
            Adds tells_left slot (take count bytes.now) (file_state self.old.slots)
            (file_state self.new.slots)) }
        ensures err { OnErr result
            (Fails slot (file_state self.old.slots) (file_state self.new.slots)) }
        ensures always { result ≡ Ok (min self.old.piece (length bytes.now)) }
        ensures same { self.new ≡ self.old }
    {
        Ok(self.piece.min(bytes.len()))
    }

    fn close_out(&mut self, slot: Slot) -> Result<(), Failed>
        requires output { IsOutputFile slot }
        requires opened { IsTrue (slot_in self.old.slots slot).is_open }
        ensures ok { OnOk result
            (Closes tells_left slot (file_state self.old.slots) (file_state self.new.slots)) }
        ensures err { OnErr result
            (Fails slot (file_state self.old.slots) (file_state self.new.slots)) }
        ensures always { IsOk result }
        ensures files { self.new.files ≡ self.old.files }
    {
        let source = self.sources[slot.index()];
        self.sources[slot.index()] = Source {
            is_open: false,
            ..source
        };
        Ok(())
    }
}
