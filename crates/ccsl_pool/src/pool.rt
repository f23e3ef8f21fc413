//! Dividing pieces among threads, one part after the other.

ghost use Rattle.std.specs.Prelude.{◌≡◌, ◌+◌, ◌<◌, ◌≤◌, ◌^◌, length};
ghost use Rattle.std.specs.Thread.{IsSync, IsSend};
ghost use Rattle.ccsl_pool.specs.Pairwise.{Pairwise, Every};

use crate::{Gate, Piece};
use ccsl_base::Block;
use std::thread::{Threads, join_mut};

/// Lets every piece take the block's rows, in as many parts as the lesser of `workers` and the number of pieces. Each
/// part is a run of neighbours, enters the gate once with its number from the left, and then works. Of two parts and
/// more each has a thread of its own, and the caller's waits; where none can be started the caller's does that part
/// too. No memory is taken, and the stack grows by the number of parts.
pub fn check_all<R: Threads + Sync, P: Piece, G: Gate>(
    rt: &R,
    pieces: &mut [P],
    block: &Block,
    workers: u32,
    gate: &G,
)
    requires ready { Every (λ p. P.can_take p block.now.rows) pieces.old }
    requires workers { 1 ≤ workers }
    ensures { Pairwise (λ p q. P.takes p block.now.rows q) pieces.old pieces.new }
{
    if pieces.is_empty() {
        return;
    }
    let parts = if pieces.len() < workers as usize {
        pieces.len() as u32
    } else {
        workers
    };
    if parts == 1 {
        part(gate, block, 0, pieces);
    } else {
        start_each(rt, gate, block, 0, parts, pieces);
    }
}

// One part: it enters the gate, and then each piece works.
fn part<P: Piece, G: Gate>(gate: &G, block: &Block, number: u32, pieces: &mut [P])
    requires { Every (λ p. P.can_take p block.now.rows) pieces.old }
    ensures { Pairwise (λ p q. P.takes p block.now.rows q) pieces.old pieces.new }
{
    gate.enter(number);
    work_each(block, pieces);
}

fn work_each<P: Piece>(block: &Block, pieces: &mut [P])
    requires { Every (λ p. P.can_take p block.now.rows) pieces.old }
    ensures { Pairwise (λ p q. P.takes p block.now.rows q) pieces.old pieces.new }
{
    for piece in pieces.iter_mut() {
        piece.work(block);
    }
}

// As many parts as `parts`, the leftmost with number `first`. This thread does none of them: the first that it starts
// often waits on its processor, while others are idle, until it waits itself. And it starts all of them, since a thread
// that is new and starts another one runs late.
#[cycle(parts)]
#[tactic(auto, using(crate::proofs::Taking::every_front, crate::proofs::Taking::every_back))]
fn start_each<R: Threads + Sync, P: Piece, G: Gate>(
    rt: &R,
    gate: &G,
    block: &Block,
    first: u32,
    parts: u32,
    pieces: &mut [P],
)
    requires ready { Every (λ p. P.can_take p block.now.rows) pieces.old }
    requires numbers { first + parts < 2 ^ 32 }
    ensures { Pairwise (λ p q. P.takes p block.now.rows q) pieces.old pieces.new }
{
    if parts <= 1 {
        start(rt, gate, block, first, pieces);
        return;
    }
    let (one, others) = pieces.split_at_mut(pieces.len() / parts as usize);
    start_one_of(rt, gate, block, first, parts, one, others);
}

// The pieces come last: a closure that lends them can read nothing else that it borrows after that.
#[cycle(parts)]
fn start_one_of<R: Threads + Sync, P: Piece, G: Gate>(
    rt: &R,
    gate: &G,
    block: &Block,
    first: u32,
    parts: u32,
    one: &mut [P],
    others: &mut [P],
)
    requires some { 2 ≤ parts }
    requires numbers { first + parts < 2 ^ 32 }
    requires one_ready { Every (λ p. P.can_take p block.now.rows) one.old }
    requires others_ready { Every (λ p. P.can_take p block.now.rows) others.old }
    ensures one_taken { Pairwise (λ p q. P.takes p block.now.rows q) one.old one.new }
    ensures others_taken { Pairwise (λ p q. P.takes p block.now.rows q) others.old others.new }
{
    let next = first + 1;
    let left = parts - 1;
    let mut front = ||
        requires { IsSync G.row × IsSend P.row × Every (λ p. P.can_take p block.now.rows) one.now }
        ensures { Pairwise (λ p q. P.takes p block.entry.now.rows q) one.entry.now one.exit.now }
    { part(gate, block, first, one) };
    let mut back = ||
        requires { IsSync R.row × IsSync G.row × IsSend P.row × (next + left < 2 ^ 32)
            × Every (λ p. P.can_take p block.now.rows) others.now }
        ensures { Pairwise (λ p q. P.takes p block.entry.now.rows q)
            others.entry.now others.exit.now }
    { start_each(rt, gate, block, next, left, others) };
    join_mut(rt, &mut front, &mut back);
}

// The part with this number, in a thread of its own.
fn start<R: Threads + Sync, P: Piece, G: Gate>(
    rt: &R,
    gate: &G,
    block: &Block,
    number: u32,
    pieces: &mut [P],
)
    requires { Every (λ p. P.can_take p block.now.rows) pieces.old }
    ensures { Pairwise (λ p q. P.takes p block.now.rows q) pieces.old pieces.new }
{
    let mut work = ||
        requires { IsSync G.row × IsSend P.row
            × Every (λ p. P.can_take p block.now.rows) pieces.now }
        ensures { Pairwise (λ p q. P.takes p block.entry.now.rows q)
            pieces.entry.now pieces.exit.now }
    { part(gate, block, number, pieces) };
    let mut wait = || {};
    join_mut(rt, &mut work, &mut wait);
}
