//! Which pieces are of which part, and that a part enters before it works.

use ccsl_base::Block;
use ccsl_pool::{Gate, Piece, check_all};
use std::sync::atomic::{AtomicU64, Ordering};
use std::test::*;

/// Lets the parts enter one by one: each once the parts on its left, of so many pieces each, have worked.
#[derive(Drop)]
struct Turns {
    share: u64,
    entered: AtomicU64,
    worked: AtomicU64,
    gave_up: AtomicU64,
}

impl Turns {
    fn of(share: u64) -> Turns {
        Turns {
            share,
            entered: AtomicU64::new(0),
            worked: AtomicU64::new(0),
            gave_up: AtomicU64::new(0),
        }
    }

    // Whether so many pieces have worked before the patience ends.
    fn waits_for(&self, count: u64) -> bool {
        for _ in 0..1_000_000_000u64 {
            if self.worked.load(Ordering::SeqCst) == count {
                return true;
            }
        }
        false
    }
}

impl Gate for Turns {
    fn enter(&self, part: u32) {
        let part = part as u64;
        if !self.waits_for(part.saturating_mul(self.share)) {
            self.gave_up.store(1, Ordering::SeqCst);
        }
        self.entered.store(part.saturating_add(1), Ordering::SeqCst);
    }
}

/// Notes how many parts have entered when it works.
#[derive(Drop)]
struct Witness<'t> {
    turns: &'t Turns,
    entered: u64,
}

impl<'t> Witness<'t> {
    fn of(turns: &'t Turns) -> Witness<'t> {
        Witness { turns, entered: 0 }
    }
}

impl<'t> Piece for Witness<'t> {
    ghost can_take = { λ p rows. Unit {0} };

    ghost takes = { λ p rows q. Unit {0} };

    fn work(&mut self, _block: &Block) {
        self.entered = self.turns.entered.load(Ordering::SeqCst);
        self.turns.worked.fetch_add(1, Ordering::SeqCst);
    }
}

#[test]
fn parts_are_numbered_from_the_left_and_enter_first(rt: HostRuntime) -> Result<(), Fail> {
    let block = Block::with_room(rt.alloc(), 1)?;
    let turns = Turns::of(1);
    let mut pieces = [
        Witness::of(&turns),
        Witness::of(&turns),
        Witness::of(&turns),
    ];
    check_all(&rt, &mut pieces, &block, 3, &turns);
    assert_eq!(rt;
        (pieces[0].entered, pieces[1].entered, pieces[2].entered),
        (1, 2, 3)
    );
    assert_eq!(rt; turns.gave_up.load(Ordering::SeqCst), 0);
    Ok(())
}

#[test]
fn two_parts_are_halves(rt: HostRuntime) -> Result<(), Fail> {
    let block = Block::with_room(rt.alloc(), 1)?;
    let turns = Turns::of(2);
    let mut pieces = [
        Witness::of(&turns),
        Witness::of(&turns),
        Witness::of(&turns),
        Witness::of(&turns),
    ];
    check_all(&rt, &mut pieces, &block, 2, &turns);
    assert_eq!(rt;
        (
            pieces[0].entered,
            pieces[1].entered,
            pieces[2].entered,
            pieces[3].entered
        ),
        (1, 1, 2, 2)
    );
    assert_eq!(rt; turns.gave_up.load(Ordering::SeqCst), 0);
    Ok(())
}
