//! The world of the real files over a system that reads short and fails in mid-stream.

use crate::edge::fake::{FakeFile, FakeSystem, Moves};
use ccsl_edge::{Failed, ReadFault, Slot, World, read_all, write_all};
use ccsl_files::{Close, FileWorld};
use std::alloc::Global;
use std::cell::Cell;
use std::io::{Input, Print};
use std::random::RandomSource;
use std::rt::Files;
use std::test::Fail;

const NEVER: usize = usize::MAX;

/// A file of 200,000 bytes that moves at most `piece` in a call and fails once `fails_at` were moved.
fn file(piece: usize, fails_at: usize) -> FakeFile {
    FakeFile {
        size: 200_000,
        piece,
        fails_at,
        flush_fails: false,
        close_fails: false,
        moved: 0,
    }
}

fn are_in_order(bytes: &[u8]) -> bool {
    let mut expected = 0u8;
    for byte in bytes {
        if *byte != expected {
            return false;
        }
        expected = expected.wrapping_add(1) % 251;
    }
    true
}

fn is_whole(alloc: Global, world: &mut FileWorld<FakeSystem>) -> Result<bool, ReadFault> {
    world.open_in(Slot::Trace, "any")?;
    let all = read_all(alloc, world, Slot::Trace, 1_000_000)?;
    Ok(all.len() == 200_000 && are_in_order(all.as_slice()))
}

/// Pieces, the byte at which a file fails, and what is read: all, or a fault, which is no end.
const READS: &[(usize, usize, Result<bool, ReadFault>)] = &[
    (1000, NEVER, Ok(true)),
    (65_535, NEVER, Ok(true)),
    (65_536, NEVER, Ok(true)),
    (1_000_000, NEVER, Ok(true)),
    (65_536, 0, Err(ReadFault::Fault)),
    (65_536, 1000, Err(ReadFault::Fault)),
    (65_536, 65_536, Err(ReadFault::Fault)),
    (65_536, 131_072, Err(ReadFault::Fault)),
];

#[test]
fn short_reads_give_all_bytes_or_a_fault(rt: HostRuntime) -> Result<(), Fail> {
    for (piece, fails_at, want) in READS {
        let system = FakeSystem::of(file(*piece, *fails_at), false);
        let mut world = FileWorld::new(system, rt.alloc());
        let read = is_whole(rt.alloc(), &mut world);
        assert_eq!(rt; read, *want, "piece {piece}, at {fails_at}");
    }
    Ok(())
}

fn write_text<R>(world: &mut FileWorld<R>) -> Result<(), Failed>
where
    R: Files<File: Close> + Input + Print + RandomSource,
{
    world.open_out(Slot::TraceOut, "any")?;
    write_all(world, Slot::TraceOut, b"abcdefgh")?;
    world.close_out(Slot::TraceOut)
}

const MADE: Moves = Moves {
    made: 1,
    put: 0,
    removed: 0,
};

const PUT: Moves = Moves { put: 1, ..MADE };

const REMOVED: Moves = Moves { removed: 1, ..MADE };

/// Whether a file stood there, the byte at which the new one fails, whether its flush, its close or its renaming does,
/// and what a write of eight bytes gives and comes to.
const WRITES: &[(bool, usize, bool, bool, bool, Result<(), Failed>, Moves)] = &[
    (false, NEVER, false, false, false, Ok(()), PUT),
    (true, NEVER, false, false, false, Ok(()), PUT),
    (true, 8, false, false, false, Ok(()), PUT),
    (true, 6, false, false, false, Err(Failed), REMOVED),
    (false, 0, false, false, false, Err(Failed), REMOVED),
    (true, NEVER, true, false, false, Err(Failed), REMOVED),
    (true, NEVER, false, true, false, Err(Failed), REMOVED),
    (true, NEVER, false, false, true, Err(Failed), REMOVED),
];

#[test]
fn a_new_file_is_put_in_place_or_removed(rt: HostRuntime) -> Result<(), Fail> {
    for (has_old, fails_at, flush_fails, close_fails, rename_fails, want, moves) in WRITES {
        let file = FakeFile {
            flush_fails: *flush_fails,
            close_fails: *close_fails,
            ..file(3, *fails_at)
        };
        let system = FakeSystem {
            has_old: *has_old,
            rename_fails: *rename_fails,
            ..FakeSystem::of(file, false)
        };
        let mut world = FileWorld::new(&system, rt.alloc());
        assert_eq!(rt; write_text(&mut world), *want, "at {fails_at}");
        assert_eq!(rt; system.moves.get(), *moves, "at {fails_at}");
    }
    Ok(())
}

/// How many names are taken, and whether a new file is made under another.
const TAKEN: &[(u32, bool)] = &[(1, true), (15, true), (16, false)];

#[test]
fn a_name_that_is_taken_is_left(rt: HostRuntime) -> Result<(), Fail> {
    for (taken, is_made) in TAKEN {
        let system = FakeSystem {
            taken: Cell::new(*taken),
            ..FakeSystem::of(file(3, NEVER), false)
        };
        let mut world = FileWorld::new(&system, rt.alloc());
        assert_eq!(rt; write_text(&mut world).is_ok(), *is_made, "{taken} taken");
        assert_eq!(rt; system.moves.get().put == 1, *is_made, "{taken} taken");
    }
    Ok(())
}

fn open_twice<R>(world: &mut FileWorld<R>) -> Result<(), Failed>
where
    R: Files<File: Close> + Input + Print + RandomSource,
{
    world.open_out(Slot::TraceOut, "any")?;
    world.open_out(Slot::TraceOut, "other")?;
    write_all(world, Slot::TraceOut, b"abcdefgh")
}

#[test]
fn what_is_not_closed_is_removed(rt: HostRuntime) -> Result<(), Fail> {
    let system = FakeSystem::of(file(3, NEVER), false);
    let mut world = FileWorld::new(&system, rt.alloc());
    assert!(rt; open_twice(&mut world).is_ok());
    drop(world);
    let moves = Moves {
        made: 2,
        put: 0,
        removed: 2,
    };
    assert_eq!(rt; system.moves.get(), moves);
    Ok(())
}

/// To this system all files are one.
#[test]
fn a_file_in_use_is_not_written(rt: HostRuntime) -> Result<(), Fail> {
    let system = FakeSystem {
        has_old: true,
        ..FakeSystem::of(file(3, NEVER), false)
    };
    let mut world = FileWorld::new(&system, rt.alloc());
    assert!(rt; world.open_in(Slot::Spec, "any").is_ok());
    assert!(rt; world.open_out(Slot::TraceOut, "other").is_err());
    assert_eq!(rt; system.moves.get(), Moves::default());
    Ok(())
}

/// Whether output and input fail, and whether the reader of the output is known to have gone.
fn input_and_output_fail(alloc: Global, is_broken: bool) -> (bool, bool, bool) {
    let mut buf = [0; 8];
    let system = FakeSystem::of(file(1, NEVER), is_broken);
    let mut world = FileWorld::new(system, alloc);
    let written = write_all(&mut world, Slot::Report, b"text");
    let read = world.read(Slot::Input, &mut buf);
    (written.is_err(), read.is_err(), world.has_lost_reader())
}

#[test]
fn broken_input_and_output_are_told(rt: HostRuntime) -> Result<(), Fail> {
    assert_eq!(rt;
        input_and_output_fail(rt.alloc(), false),
        (false, false, false)
    );
    assert_eq!(rt; input_and_output_fail(rt.alloc(), true), (true, true, true));
    Ok(())
}
