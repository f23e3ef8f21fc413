//! Opening what a slot reads or writes.

use crate::channel::{Channel, End, Opened};
use crate::closing::Close;
use crate::file_id::FileId;
use crate::replacement::Replacement;
use crate::target::{NamedTarget, Target, target_of};
use ccsl_edge::Slot;
use std::alloc::Global;
use std::fs::{Metadata, OpenFile, OpenOptions};
use std::random::RandomSource;
use std::rt::Files;
use std::{fs, io};

/// The names under which the system shows a process what it reads and writes unasked.
const STANDARD_INPUT: &str = "/dev/stdin";

const STANDARD_OUTPUT: &str = "/dev/stdout";

/// An output that can't be written without loss to another slot.
fn in_use() -> io::Error {
    io::Error::from(io::ErrorKind::ResourceBusy)
}

fn has_name<R: Files>(rt: &R, name: &str, file_id: FileId) -> bool {
    match fs::metadata(rt, name) {
        Ok(found) => FileId::of(&found) == file_id,
        Err(_) => false,
    }
}

/// Whether this file is behind another slot.
fn is_of_another<F: Drop>(slots: &[Channel<F>], slot: Slot, file_id: Option<FileId>) -> bool {
    let Some(file_id) = file_id else {
        return false;
    };
    let mut slots = slots.iter().enumerate();
    slots.any(|(i, channel)| i != slot.index() && channel.has(file_id))
}

/// Opens a file that is read.
pub(crate) fn open_source<R: Files>(rt: &R, name: &str) -> io::Result<Opened<R::File>> {
    let file = fs::open(rt, name)?;
    let file_id = match file.metadata() {
        Ok(found) => FileId::of_unshared(&found),
        Err(_) => None,
    };
    Ok(Opened {
        end: End::Opened(file),
        file_id,
    })
}

/// Opens what is written as it stands: nothing of it is emptied, and what is written is added at its end.
fn appended<R: Files>(rt: &R, name: &str) -> io::Result<R::File> {
    OpenOptions::new().append(true).open(rt, name)
}

/// Opens what a process has open. Standard output is written where it is, which another opening would not do.
fn open_descriptor<R: Files>(
    rt: &R,
    slots: &[Channel<R::File>],
    slot: Slot,
    name: &str,
) -> io::Result<Opened<R::File>> {
    let found = fs::metadata(rt, name)?;
    let file_id = FileId::of_unshared(&found);
    let is_read = found.is_file() && has_name(rt, STANDARD_INPUT, FileId::of(&found));
    if is_read || is_of_another(slots, slot, file_id) {
        return Err(in_use());
    }
    let end = if has_name(rt, STANDARD_OUTPUT, FileId::of(&found)) {
        End::StandardOutput
    } else {
        End::Opened(appended(rt, name)?)
    };
    Ok(Opened { end, file_id })
}

/// Makes a new file for a target. `old` is the regular file that stands there: standard input and standard output are
/// not to be replaced.
fn open_beside<R: Files<File: Close> + RandomSource>(
    rt: &R,
    alloc: Global,
    slots: &[Channel<R::File>],
    target: NamedTarget,
    old: Option<&Metadata>,
) -> io::Result<Opened<R::File>> {
    if let Some(old) = old {
        let file_id = FileId::of(old);
        if has_name(rt, STANDARD_INPUT, file_id) || has_name(rt, STANDARD_OUTPUT, file_id) {
            return Err(in_use());
        }
    }
    if slots.iter().any(|channel| channel.replaces(&target)) {
        return Err(in_use());
    }
    Ok(Opened {
        end: End::Beside(Replacement::create(rt, alloc, target, old)?),
        file_id: old.map(FileId::of),
    })
}

/// Opens what is written under a name in a folder. A file that stands there has to be one that may be written.
fn open_named<R: Files<File: Close> + RandomSource>(
    rt: &R,
    alloc: Global,
    slots: &[Channel<R::File>],
    slot: Slot,
    name: &str,
    target: NamedTarget,
) -> io::Result<Opened<R::File>> {
    let file = match appended(rt, name) {
        Ok(file) => file,
        Err(error) => {
            if error.kind() == io::ErrorKind::NotFound {
                return open_beside(rt, alloc, slots, target, None);
            }
            return Err(error);
        }
    };
    let found = file.metadata()?;
    let file_id = FileId::of_unshared(&found);
    if is_of_another(slots, slot, file_id) {
        return Err(in_use());
    }
    if found.is_file() {
        return open_beside(rt, alloc, slots, target, Some(&found));
    }
    Ok(Opened {
        end: End::Opened(file),
        file_id,
    })
}

/// Opens what is written under a name. It is an error where another slot reads or writes the same file.
pub(crate) fn open_sink<R: Files<File: Close> + RandomSource>(
    rt: &R,
    alloc: Global,
    slots: &[Channel<R::File>],
    slot: Slot,
    name: &str,
) -> io::Result<Opened<R::File>> {
    match target_of(rt, alloc, name)? {
        Target::Descriptor => open_descriptor(rt, slots, slot, name),
        Target::Named(target) => open_named(rt, alloc, slots, slot, name, target),
    }
}
