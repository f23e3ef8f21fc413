//! Files by what the system knows them by.

use std::fs::Metadata;
use std::os::unix::fs::{FileTypeExt, MetadataExt};

/// A file by its device and its number there, which are the same under all its names.
#[derive(Clone, Copy, PartialEq, Eq)]
pub(crate) struct FileId {
    device: u64,
    number: u64,
}

impl FileId {
    pub(crate) fn of(found: &Metadata) -> FileId {
        FileId {
            device: found.dev(),
            number: found.ino(),
        }
    }

    /// A file that is not to be written by two, nor read and written; none of a terminal and its like or a socket.
    pub(crate) fn of_unshared(found: &Metadata) -> Option<FileId> {
        let kind = found.file_type();
        if kind.is_char_device() || kind.is_socket() {
            return None;
        }
        Some(FileId::of(found))
    }

    /// Whether both are on one device.
    pub(crate) fn is_beside(self, other: FileId) -> bool {
        self.device == other.device
    }
}
