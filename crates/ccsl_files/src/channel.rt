//! A slot over a real file.

ghost use Rattle.std.specs.Prelude.{◌≡◌, ◌≤◌, length, true, false, IfOk};
ghost use Rattle.ccsl_edge.specs.World.{risen, Rose};
ghost use Rattle.ccsl_edge.specs.SlotTable.{unused};

use crate::closing::{Close, finished};
use crate::file_id::FileId;
use crate::replacement::Replacement;
use crate::target::NamedTarget;
use ccsl_edge::Failed;
use std::fs::OpenFile;
use std::io::{Print, Read, Write};
use std::marker::Model;
use std::rt::Files;
use std::{io, mem};

/// What a slot reads or writes.
#[derive(Drop)]
pub(crate) enum End<F> {
    Nothing,
    /// A file that is read, or one that is written as it stands: a pipe, a device, or what a process has open.
    Opened(F),
    /// A new file, which is to replace another.
    Beside(Replacement<F>),
    StandardOutput,
}

/// What was opened for a slot, and the file that no other slot may write meanwhile.
#[derive(Drop)]
pub(crate) struct Opened<F> {
    pub(crate) end: End<F>,
    pub(crate) file_id: Option<FileId>,
}

/// What a slot reads or writes, and how often a call on the slot failed.
#[derive(Drop)]
pub(crate) struct Channel<F> {
    end: End<F>,
    /// The file that no other slot may write meanwhile.
    file_id: Option<FileId>,
    /// Whether standard output was closed by its reader.
    lost_reader: bool,
    is_open: bool,
    faults: u64,
}

impl<F> Model for Channel<F> {
    ghost use Rattle.std.specs.Prelude.{[]};
    ghost use Rattle.ccsl_edge.specs.World.{SlotState};

    ghost Value = { SlotState };

    ghost view = { λ c. record { left = []; written = []; name = []; is_open = c.is_open; faults = c.faults } };
}

impl<F: Drop> Channel<F> {
    pub(crate) fn new(is_open: bool, end: End<F>) -> Channel<F>
        ensures { result ≡ unused is_open }
    {
        Channel {
            end,
            file_id: None,
            lost_reader: false,
            is_open,
            faults: 0,
        }
    }

    /// Counts a call that failed.
    pub(crate) fn fail(&mut self) -> Failed
        ensures after { self.new ≡ record self.old { faults = risen self.old.faults } }
        ensures rose { Rose self.old.faults self.new.faults }
    {
        self.faults = self.faults.saturating_add(1);
        Failed
    }

    /// Gives up what was written to a new file: the file goes, and the one that it was to replace stands.
    pub(crate) fn give_up<R: Files<File = F>>(&mut self, rt: &R)
        ensures { self.new ≡ self.old }
    {
        if !matches!(self.end, End::Beside(_)) {
            return;
        }
        if let End::Beside(new) = mem::replace(&mut self.end, End::Nothing) {
            new.remove(rt);
        }
    }

    /// Whether this file is behind the slot.
    pub(crate) fn has(&self, file_id: FileId) -> bool {
        self.file_id == Some(file_id)
    }

    /// Whether the slot is to put a file in this place.
    pub(crate) fn replaces(&self, target: &NamedTarget) -> bool {
        match &self.end {
            End::Beside(new) => new.is_for(target),
            _ => false,
        }
    }

    pub(crate) fn has_lost_reader(&self) -> bool {
        self.lost_reader
    }
}

impl<F: Read + Write + OpenFile + Close + Drop> Channel<F> {
    pub(crate) fn open_in(&mut self, opened: Opened<F>)
        ensures { self.new ≡ self.old }
    {
        self.end = opened.end;
        self.file_id = opened.file_id;
    }

    pub(crate) fn open_out(&mut self, opened: Opened<F>)
        ensures { self.new ≡ record self.old { is_open = true } }
    {
        self.end = opened.end;
        self.file_id = opened.file_id;
        self.is_open = true;
    }

    /// Reads from the open file; nothing where no file was opened.
    pub(crate) fn read(&mut self, buf: &mut [u8]) -> io::Result<usize>
        ensures within { IfOk result (λ count. count ≤ length buf.new) }
        ensures same { self.new ≡ self.old }
    {
        match &mut self.end {
            End::Opened(file) => file.read(buf),
            _ => Ok(0),
        }
    }

    /// Writes to the open file; nothing where no file is open.
    pub(crate) fn write<R: Print>(&mut self, rt: &R, bytes: &[u8]) -> io::Result<usize>
        ensures within { IfOk result (λ count. count ≤ length bytes.now) }
        ensures same { self.new ≡ self.old }
    {
        match &mut self.end {
            End::Nothing => Ok(0),
            End::Opened(file) => file.write(bytes),
            End::Beside(new) => new.write(bytes),
            End::StandardOutput => {
                let written = rt.write_some(bytes);
                if let Err(error) = &written {
                    self.lost_reader = error.kind() == io::ErrorKind::BrokenPipe;
                }
                written
            }
        }
    }

    /// Closes what was opened, and puts a new file in the place of its target.
    pub(crate) fn finish<R: Files<File = F>>(&mut self, rt: &R) -> io::Result<()>
        ensures { self.new ≡ self.old }
    {
        self.file_id = None;
        match mem::replace(&mut self.end, End::Nothing) {
            End::Nothing => Err(io::Error::from(io::ErrorKind::NotFound)),
            End::Opened(file) => finished(file),
            End::Beside(new) => new.put_in_place(rt),
            End::StandardOutput => Ok(()),
        }
    }

    pub(crate) fn close(&mut self)
        ensures { self.new ≡ record self.old { is_open = false } }
    {
        self.is_open = false;
    }
}
