//! Which clock to decide next: one of a late conflict, at the value that it had last.

ghost use Rattle.std.specs.Prelude.{◌≡◌, ◌<◌, ◌≤◌, All, IfOk, length};
ghost use Rattle.ccsl_refute.specs.Below.{AreBelow};
ghost use Rattle.ccsl_refute.specs.LineLiterals.{literals};

use crate::problem::{Problem, clause_in};
use ccsl_base::Memory;
use ccsl_formula::Partial;
use ccsl_refute::{Line, Lit};

/// What is noted of a clock.
#[derive(Clone, Copy)]
struct Noted {
    /// Where it stands last in the queue.
    place: usize,
    /// Its last value, and when it got it.
    positive: bool,
    time: u64,
}

/// The clocks in the order of their last conflicts, the latest one last.
pub struct Order {
    /// A clock may stand at several places, of which the last one counts.
    queue: Vec<u32>,
    clocks: Vec<Noted>,
    /// From here on no clock of the queue is open.
    end: usize,
    now: u64,
    ghost noted: { All (λ c. c < length clocks.items) queue.items },
    ghost within: { end ≤ length queue.items },
}

// By hand and not derived: to the prover, an early return then drops one by a single call.
impl Drop for Order {
    fn drop(self) {
        let Order {
            queue: _,
            clocks: _,
            end: _,
            now: _,
        } = self;
    }
}

impl Order {
    /// Clocks by their numbers, each to be tried as false.
    pub fn open(problem: &Problem) -> Result<Order, Memory>
        ensures { IfOk result (λ o. length o.clocks.items ≡ problem.now.scope.named) }
    {
        let named = problem.scope.named;
        let mut queue = Vec::with_capacity(problem.alloc, named as usize)?;
        let mut clocks = Vec::with_capacity(problem.alloc, named as usize)?;
        for clock in (0..named).rev() {
            queue.push(clock)?;
            clocks.push(Noted {
                place: clock as usize,
                positive: false,
                time: 0,
            })?;
        }
        Ok(Order {
            queue,
            clocks,
            end: named as usize,
            now: 0,
        })
    }

    /// Puts a clock last.
    fn append(&mut self, clock: u32) -> Result<(), Memory>
        requires { clock < length self.old.clocks.items }
        ensures { length self.new.clocks.items ≡ length self.old.clocks.items }
    {
        self.clocks[clock as usize].place = self.queue.len();
        self.queue.push(clock)?;
        Ok(())
    }

    /// The last clock of the queue that is open.
    pub fn next(&mut self, part: &Partial) -> Option<Lit>
        ensures { length self.new.clocks.items ≡ length self.old.clocks.items }
    {
        while self.end > 0 {
            let lit = self.open_at(self.end - 1, part);
            if lit.is_some() {
                return lit;
            }
            self.end -= 1;
        }
        None
    }

    /// The clock at a place of the queue, where the place counts and the clock is open.
    fn open_at(&self, place: usize, part: &Partial) -> Option<Lit>
        requires { place < length self.now.queue.items }
    {
        let clock = self.queue[place];
        let noted = self.clocks[clock as usize];
        if noted.place == place && part.get(clock).is_none() {
            Some(Lit {
                clock,
                positive: noted.positive,
            })
        } else {
            None
        }
    }

    /// A literal becomes true.
    pub fn assigned(&mut self, lit: Lit)
        requires { lit.clock < length self.old.clocks.items }
        ensures { length self.new.clocks.items ≡ length self.old.clocks.items }
    {
        // No run gets to the last number; behind it the times would begin anew.
        self.now = self.now.wrapping_add(1);
        let noted = &mut self.clocks[lit.clock as usize];
        noted.positive = lit.positive;
        noted.time = self.now;
    }

    /// When a clock got its last value.
    pub fn time(&self, clock: u32) -> u64
        requires { clock < length self.now.clocks.items }
    {
        self.clocks[clock as usize].time
    }

    /// Clocks lose their values.
    pub fn restart(&mut self)
        ensures { length self.new.clocks.items ≡ length self.old.clocks.items }
    {
        self.end = self.queue.len();
    }

    /// Puts the clocks of a line last.
    pub fn bump(&mut self, problem: &Problem, line: &Line) -> Result<(), Memory>
        requires clocks { length self.old.clocks.items ≡ problem.now.scope.named }
        requires named { AreBelow problem.now.scope.named (literals line.now) }
        ensures { length self.new.clocks.items ≡ length self.old.clocks.items }
    {
        for lit in clause_in(problem, line) {
            self.append(lit.clock)?;
        }
        if self.queue.len() / 8 > self.clocks.len() {
            self.compact();
        }
        self.restart();
        Ok(())
    }

    /// Takes out the places that don't count.
    fn compact(&mut self)
        ensures { length self.new.clocks.items ≡ length self.old.clocks.items }
    {
        let mut kept = 0usize;
        for place in 0..self.queue.len() {
            let clock = self.queue[place];
            if self.clocks[clock as usize].place == place {
                self.clocks[clock as usize].place = kept;
                self.queue[kept] = clock;
                kept += 1;
            }
        }
        self.end = kept;
        self.queue.truncate(kept);
    }
}
