//! A new file beside the one that it is to replace.

ghost use Rattle.std.specs.Prelude.{◌≤◌, length, IfOk};

use crate::closing::{Close, finished};
use crate::file_id::FileId;
use crate::target::{NamedTarget, folder_and_name};
use std::alloc::Global;
use std::fs::{Metadata, OpenFile, OpenOptions};
use std::io::Write;
use std::os::unix::fs::{MetadataExt, OpenOptionsExt, PermissionsExt};
use std::random::RandomSource;
use std::rt::Files;
use std::{fs, io};

/// How often another name is tried where a new file's is taken.
const TRIES: u32 = 16;

/// How many bytes of its target's name a new file's shows, so that it is no longer than the system allows.
const SHOWN_BYTES: usize = 200;

/// Who may read and write a file that replaces none, before the user's own mask.
const NEW_MODE: u32 = 0o666;

/// A new file in the folder of its target, under a name of its own, until it is put in the target's place or removed.
#[derive(Drop)]
pub(crate) struct Replacement<F> {
    file: F,
    path: String,
    target: NamedTarget,
}

/// A name for a new file beside this one, as `.run.vcd.ccsl-3f9a1c07d2e48b60` beside `run.vcd`.
fn name_beside<R: RandomSource>(rt: &R, alloc: Global, path: &str) -> io::Result<String> {
    let (folder, name) = folder_and_name(path);
    let shown = name
        .get(..name.floor_char_boundary(SHOWN_BYTES))
        .unwrap_or(name);
    let mut drawn = [0; 8];
    rt.fill_bytes(&mut drawn)?;
    let drawn = u64::from_le_bytes(drawn);
    Ok(format!(in alloc; "{folder}/.{shown}.ccsl-{drawn:016x}")?)
}

/// Gives a new file the permissions of an old one, and its owner and group where the system lets us.
fn take_over<R: Files>(rt: &R, file: &R::File, path: &str, old: &Metadata) -> io::Result<()> {
    let new = file.metadata()?;
    if new.gid() != old.gid() {
        let _ = rt.chown(path, None, Some(old.gid()));
    }
    if new.uid() != old.uid() {
        let _ = rt.chown(path, Some(old.uid()), None);
    }
    if new.permissions() != old.permissions() {
        file.set_permissions(old.permissions())?;
    }
    Ok(())
}

impl<F: Write + OpenFile + Close + Drop> Replacement<F> {
    /// Makes a new file beside its target. `old` is the file that stands there.
    pub(crate) fn create<R: Files<File = F> + RandomSource>(
        rt: &R,
        alloc: Global,
        target: NamedTarget,
        old: Option<&Metadata>,
    ) -> io::Result<Replacement<F>> {
        let mode = match old {
            Some(old) => old.permissions().mode() & 0o777,
            None => NEW_MODE,
        };
        let mut how = OpenOptions::new();
        how.write(true).create_new(true).mode(mode);
        for _ in 0..TRIES {
            let path = name_beside(rt, alloc, target.path.as_str())?;
            match how.open(rt, path.as_str()) {
                Ok(file) => {
                    let new = Replacement { file, path, target };
                    return new.like(rt, old);
                }
                Err(error) => {
                    if error.kind() != io::ErrorKind::AlreadyExists {
                        return Err(error);
                    }
                }
            }
        }
        Err(io::Error::from(io::ErrorKind::AlreadyExists))
    }

    /// The same, with the permissions of the file that it replaces.
    fn like<R: Files<File = F>>(
        self,
        rt: &R,
        old: Option<&Metadata>,
    ) -> io::Result<Replacement<F>> {
        let Some(old) = old else {
            return Ok(self);
        };
        match take_over(rt, &self.file, self.path.as_str(), old) {
            Ok(()) => Ok(self),
            Err(error) => {
                self.remove(rt);
                Err(error)
            }
        }
    }

    pub(crate) fn write(&mut self, bytes: &[u8]) -> io::Result<usize>
        ensures { IfOk result (λ count. count ≤ length bytes.now) }
    {
        self.file.write(bytes)
    }

    /// Closes the new file and puts it in its target's place. Where that fails the new file goes, and the target is as
    /// it was.
    pub(crate) fn put_in_place<R: Files<File = F>>(self, rt: &R) -> io::Result<()> {
        let Replacement { file, path, target } = self;
        let put = match finished(file) {
            Ok(()) => fs::rename(rt, path.as_str(), target.path.as_str()),
            Err(error) => Err(error),
        };
        if put.is_err() {
            let _ = fs::remove_file(rt, path.as_str());
        }
        put
    }
}

impl<F: Drop> Replacement<F> {
    /// Whether its target has this name in this folder.
    pub(crate) fn is_for(&self, target: &NamedTarget) -> bool {
        let (_, name) = folder_and_name(self.target.path.as_str());
        let (_, other) = folder_and_name(target.path.as_str());
        self.target.folder == target.folder && name == other
    }

    /// Removes the new file.
    pub(crate) fn remove<R: Files<File = F>>(self, rt: &R) {
        let Replacement {
            file: _file,
            path,
            target: _target,
        } = self;
        let _ = fs::remove_file(rt, path.as_str());
    }
}
