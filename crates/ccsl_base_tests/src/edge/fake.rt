//! A system whose files read short and fail in mid-stream, for tests of the real files' world.

use ccsl_files::Close;
use std::alloc::Allocator;
use std::cell::Cell;
use std::fmt::Display;
use std::fs::{Metadata, OpenFile, OpenOptions};
use std::io;
use std::io::{BufRead, Input, Print, Read, Seek, SeekFrom, Write};
use std::random::RandomSource;
use std::rt::Files;

/// A file of so many bytes, of which the one at a place is that place modulo 251. It moves at most `piece` bytes in a
/// call, and fails once `fails_at` bytes were moved.
#[derive(Clone, Copy, Drop)]
pub struct FakeFile {
    pub size: usize,
    pub piece: usize,
    pub fails_at: usize,
    pub flush_fails: bool,
    pub close_fails: bool,
    pub moved: usize,
}

fn broken() -> io::Error {
    io::Error::from(io::ErrorKind::BrokenPipe)
}

fn unsupported() -> io::Error {
    io::Error::from(io::ErrorKind::Unsupported)
}

impl FakeFile {
    /// How many of so many bytes are moved.
    fn moves(&mut self, count: usize) -> io::Result<usize> {
        if self.moved >= self.fails_at {
            return Err(broken());
        }
        let count = count
            .min(self.piece)
            .min(self.size.saturating_sub(self.moved));
        self.moved = self.moved.saturating_add(count);
        Ok(count)
    }
}

impl Read for FakeFile {
    fn read(&mut self, buf: &mut [u8]) -> io::Result<usize> {
        let from = self.moved;
        let count = self.moves(buf.len())?;
        for i in 0..count.min(buf.len()) {
            buf[i] = (from.saturating_add(i) % 251) as u8;
        }
        Ok(count.min(buf.len()))
    }
}

impl Write for FakeFile {
    fn write(&mut self, buf: &[u8]) -> io::Result<usize> {
        Ok(self.moves(buf.len())?.min(buf.len()))
    }

    fn flush(&mut self) -> io::Result<()> {
        if self.flush_fails {
            return Err(broken());
        }
        Ok(())
    }
}

impl Close for FakeFile {
    fn close(self) -> io::Result<()> {
        if self.close_fails {
            return Err(broken());
        }
        Ok(())
    }
}

impl Seek for FakeFile {
    fn seek(&mut self, _to: SeekFrom) -> io::Result<u64> {
        Err(unsupported())
    }
}

impl OpenFile for FakeFile {
    fn metadata(&self) -> io::Result<Metadata> {
        Ok(Metadata::of_file(0))
    }

    fn set_len(&self, _size: u64) -> io::Result<()> {
        Err(unsupported())
    }

    fn sync_all(&self) -> io::Result<()> {
        Err(unsupported())
    }

    fn sync_data(&self) -> io::Result<()> {
        Err(unsupported())
    }
}

/// How many new files were made, put in place and removed.
#[derive(Clone, Copy, Debug, Default, PartialEq, Eq)]
pub struct Moves {
    pub made: u32,
    pub put: u32,
    pub removed: u32,
}

/// A system that opens one file under every name, and takes what is printed unless it is broken.
#[derive(Drop)]
pub struct FakeSystem {
    pub file: FakeFile,
    pub is_broken: bool,
    /// Whether a file stands under the name of an output.
    pub has_old: bool,
    /// How many of the next new files have a name that is taken.
    pub taken: Cell<u32>,
    pub rename_fails: bool,
    pub moves: Cell<Moves>,
}

impl FakeSystem {
    /// A system over this file, under whose outputs no file stands yet.
    pub fn of(file: FakeFile, is_broken: bool) -> FakeSystem {
        FakeSystem {
            file,
            is_broken,
            has_old: false,
            taken: Cell::new(0),
            rename_fails: false,
            moves: Cell::new(Moves::default()),
        }
    }

    fn make_new(&self) -> io::Result<FakeFile> {
        let taken = self.taken.get();
        if taken > 0 {
            self.taken.set(taken - 1);
            return Err(io::Error::from(io::ErrorKind::AlreadyExists));
        }
        let moves = self.moves.get();
        self.moves.set(Moves {
            made: moves.made.saturating_add(1),
            ..moves
        });
        Ok(self.file)
    }

    fn found(&self) -> io::Result<Metadata> {
        if !self.has_old {
            return Err(io::Error::from(io::ErrorKind::NotFound));
        }
        Ok(Metadata::of_file(0))
    }
}

impl Files for FakeSystem {
    type File = FakeFile;

    type Dir = FakeFile;

    fn open_file(&self, how: &OpenOptions, _path: &str) -> io::Result<FakeFile> {
        how.check()?;
        if how.asks_create_new() {
            return self.make_new();
        }
        if how.asks_append() {
            self.found()?;
        }
        Ok(self.file)
    }

    fn open_dir(&self, _path: &str) -> io::Result<FakeFile> {
        Err(unsupported())
    }

    fn metadata(&self, path: &str) -> io::Result<Metadata> {
        if path != "." {
            return Err(unsupported());
        }
        Ok(Metadata::of_dir())
    }

    fn symlink_metadata(&self, _path: &str) -> io::Result<Metadata> {
        self.found()
    }

    fn copy(&self, _from: &str, _to: &str) -> io::Result<u64> {
        Err(unsupported())
    }

    fn rename(&self, _from: &str, _to: &str) -> io::Result<()> {
        if self.rename_fails {
            return Err(unsupported());
        }
        let moves = self.moves.get();
        self.moves.set(Moves {
            put: moves.put.saturating_add(1),
            ..moves
        });
        Ok(())
    }

    fn remove_file(&self, _path: &str) -> io::Result<()> {
        let moves = self.moves.get();
        self.moves.set(Moves {
            removed: moves.removed.saturating_add(1),
            ..moves
        });
        Ok(())
    }

    fn create_dir(&self, _path: &str) -> io::Result<()> {
        Err(unsupported())
    }

    fn remove_dir(&self, _path: &str) -> io::Result<()> {
        Err(unsupported())
    }

    fn remove_dir_all<B: Allocator>(&self, _alloc: B, _path: &str) -> io::Result<()> {
        Err(unsupported())
    }
}

impl RandomSource for FakeSystem {
    fn fill_bytes(&self, _buf: &mut [u8]) -> io::Result<()> {
        Ok(())
    }
}

impl Input for FakeSystem {
    type Reader = FakeInput;

    fn read_line<A: Allocator + Clone>(&self, _buf: &mut String<A>) -> io::Result<usize> {
        Err(unsupported())
    }

    fn lines<A: Allocator>(&self, alloc: A) -> io::Lines<FakeInput, A> {
        self.reader().lines(alloc)
    }

    fn reader(&self) -> FakeInput {
        FakeInput {
            is_broken: self.is_broken,
        }
    }
}

/// Input that has ended, or is broken.
#[derive(Drop)]
pub struct FakeInput {
    is_broken: bool,
}

impl Read for FakeInput {
    fn read(&mut self, _buf: &mut [u8]) -> io::Result<usize> {
        if self.is_broken {
            return Err(broken());
        }
        Ok(0)
    }
}

impl BufRead for FakeInput {
    fn fill_buf(&mut self) -> io::Result<&[u8]> {
        Err(unsupported())
    }

    fn consume(&mut self, _amount: usize) {}
}

impl Print for FakeSystem {
    fn print<D: Display + Drop>(&self, _value: D) -> io::Result<()> {
        Err(unsupported())
    }

    fn println<D: Display + Drop>(&self, _value: D) -> io::Result<()> {
        Err(unsupported())
    }

    fn write_all(&self, _bytes: &[u8]) -> io::Result<()> {
        if self.is_broken {
            return Err(broken());
        }
        Ok(())
    }
}
