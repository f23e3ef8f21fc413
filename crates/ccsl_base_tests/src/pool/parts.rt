//! How many parts there are: no more than workers or pieces.

use ccsl_base::Block;
use ccsl_pool::{Gate, Piece, check_all};
use std::sync::atomic::{AtomicU64, Ordering};
use std::test::*;

/// Does nothing.
#[derive(Drop)]
struct Idle;

impl Piece for Idle {
    ghost can_take = { λ p rows. Unit {0} };

    ghost takes = { λ p rows q. Unit {0} };

    fn work(&mut self, _block: &Block) {}
}

/// Counts how often the parts 0 and 1 enter, and all others together.
#[derive(Drop)]
struct Entries {
    first: AtomicU64,
    second: AtomicU64,
    others: AtomicU64,
}

impl Entries {
    fn none() -> Entries {
        Entries {
            first: AtomicU64::new(0),
            second: AtomicU64::new(0),
            others: AtomicU64::new(0),
        }
    }

    fn counts(&self) -> (u64, u64, u64) {
        (
            self.first.load(Ordering::SeqCst),
            self.second.load(Ordering::SeqCst),
            self.others.load(Ordering::SeqCst),
        )
    }
}

impl Gate for Entries {
    fn enter(&self, part: u32) {
        let count = match part {
            0 => &self.first,
            1 => &self.second,
            _ => &self.others,
        };
        count.fetch_add(1, Ordering::SeqCst);
    }
}

#[test]
fn there_are_as_many_parts_as_workers_and_pieces(rt: HostRuntime) -> Result<(), Fail> {
    let block = Block::with_room(rt.alloc(), 1)?;
    let mut pieces = [Idle, Idle, Idle];
    for (workers, counts) in [
        (1, (1, 0, 0)),
        (2, (1, 1, 0)),
        (3, (1, 1, 1)),
        (16, (1, 1, 1)),
    ] {
        let gate = Entries::none();
        check_all(&rt, &mut pieces, &block, workers, &gate);
        assert_eq!(rt; gate.counts(), counts, "{workers} workers");
    }
    let gate = Entries::none();
    check_all(&rt, &mut pieces[..0], &block, 2, &gate);
    assert_eq!(rt; gate.counts(), (0, 0, 0));
    Ok(())
}
