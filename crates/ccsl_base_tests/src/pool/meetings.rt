//! That two parts enter and work side by side.

use ccsl_base::Block;
use ccsl_pool::{Gate, Piece, check_all};
use std::sync::atomic::{AtomicU64, Ordering};
use std::test::*;

/// Says on one side that it is there, and waits until the other side is, up to some patience.
#[derive(Drop)]
struct Meeting {
    left: AtomicU64,
    right: AtomicU64,
    gave_up: AtomicU64,
}

impl Meeting {
    fn new() -> Meeting {
        Meeting {
            left: AtomicU64::new(0),
            right: AtomicU64::new(0),
            gave_up: AtomicU64::new(0),
        }
    }

    fn meet(&self, is_left: bool) {
        let (own, other) = if is_left {
            (&self.left, &self.right)
        } else {
            (&self.right, &self.left)
        };
        own.store(1, Ordering::SeqCst);
        for _ in 0..1_000_000_000u64 {
            if other.load(Ordering::SeqCst) == 1 {
                return;
            }
        }
        self.gave_up.store(1, Ordering::SeqCst);
    }

    fn counts(&self) -> (u64, u64, u64) {
        (
            self.left.load(Ordering::SeqCst),
            self.right.load(Ordering::SeqCst),
            self.gave_up.load(Ordering::SeqCst),
        )
    }
}

/// The parts 0 and 1 meet at the gate.
impl Gate for Meeting {
    fn enter(&self, part: u32) {
        self.meet(part == 0);
    }
}

/// Meets its partner at work.
#[derive(Drop)]
struct Partner<'m> {
    meeting: &'m Meeting,
    is_left: bool,
}

impl<'m> Piece for Partner<'m> {
    ghost can_take = { λ p rows. Unit {0} };

    ghost takes = { λ p rows q. Unit {0} };

    fn work(&mut self, _block: &Block) {
        self.meeting.meet(self.is_left);
    }
}

#[test]
fn two_parts_meet_at_the_gate_and_at_work(rt: HostRuntime) -> Result<(), Fail> {
    let block = Block::with_room(rt.alloc(), 1)?;
    let (gate, meeting) = (Meeting::new(), Meeting::new());
    let mut pieces = [
        Partner {
            meeting: &meeting,
            is_left: true,
        },
        Partner {
            meeting: &meeting,
            is_left: false,
        },
    ];
    check_all(&rt, &mut pieces, &block, 2, &gate);
    assert_eq!(rt; gate.counts(), (1, 1, 0));
    assert_eq!(rt; meeting.counts(), (1, 1, 0));
    Ok(())
}
