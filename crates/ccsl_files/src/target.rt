//! Where the name of an output leads.

use crate::file_id::FileId;
use std::alloc::Global;
use std::path::Path;
use std::rt::Files;
use std::{fs, io};

/// How many links in a row are followed, which is as many as the system follows.
const MAX_LINKS: u32 = 40;

/// The folder that shows which files this process has open.
const OPEN_FILES: &str = "/proc/self/fd";

/// Where a name leads once its links are followed.
#[derive(Drop)]
pub(crate) enum Target {
    /// A file that a process has open, as under `/dev/stdout` and `/dev/fd`.
    Descriptor,
    Named(NamedTarget),
}

/// A name in a folder, whether or not there is a file of it.
#[derive(Drop)]
pub(crate) struct NamedTarget {
    pub(crate) path: String,
    pub(crate) folder: FileId,
}

/// The folder of a path, and the name in it.
pub(crate) fn folder_and_name(path: &str) -> (&str, &str) {
    match path.rsplit_once('/') {
        Some(("", name)) => ("/", name),
        Some((folder, name)) => (folder, name),
        None => (".", path),
    }
}

/// Whether a folder is one of the system's view of its processes, in which no file can be made.
fn is_of_processes<R: Files>(rt: &R, folder: FileId) -> bool {
    match fs::metadata(rt, OPEN_FILES) {
        Ok(open_files) => folder.is_beside(FileId::of(&open_files)),
        Err(_) => false,
    }
}

/// Where the link of this path leads; `None` where it is no link.
fn followed<R: Files>(rt: &R, alloc: Global, path: &str) -> io::Result<Option<String>> {
    match fs::symlink_metadata(rt, path) {
        Ok(found) => {
            if !found.is_symlink() {
                return Ok(None);
            }
        }
        Err(error) => {
            if error.kind() == io::ErrorKind::NotFound {
                return Ok(None);
            }
            return Err(error);
        }
    }
    let link = rt.read_link(alloc, path)?;
    let (folder, _) = folder_and_name(path);
    let path = Path::new(folder).join(alloc, link)?;
    Ok(Some(path.into_string()))
}

/// Where a name leads. It is an error where the name is no file's by its form, as that of a folder.
pub(crate) fn target_of<R: Files>(rt: &R, alloc: Global, name: &str) -> io::Result<Target> {
    let mut path = String::from_str(alloc, name)?;
    for _ in 0..MAX_LINKS {
        let (folder, last) = folder_and_name(path.as_str());
        if matches!(last, "" | "." | "..") {
            return Err(io::Error::from(io::ErrorKind::IsADirectory));
        }
        let folder = FileId::of(&fs::metadata(rt, folder)?);
        if is_of_processes(rt, folder) {
            return Ok(Target::Descriptor);
        }
        match followed(rt, alloc, path.as_str())? {
            Some(next) => path = next,
            None => return Ok(Target::Named(NamedTarget { path, folder })),
        }
    }
    Err(io::Error::from(io::ErrorKind::FilesystemLoop))
}
