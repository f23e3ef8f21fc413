//! Which items read a clock.

ghost use Rattle.std.specs.Prelude.{ℕ, ◌≡◌, ◌<◌, ◌≤◌, ◌+◌, All, IfOk, length, slice_index_or};
ghost use Rattle.ccsl_formula.specs.Plain.{plain};
ghost use Rattle.ccsl_guide.specs.Named.{IsNamed};
ghost use Rattle.ccsl_guide.specs.declared.readers.Reader.{Reader};

use crate::problem::Problem;
use ccsl_base::Memory;
use ccsl_formula::Formula;

/// A place where the formula of an item reads a clock.
#[derive(Clone, Copy)]
pub struct Reader {
    pub item: u32,
    /// The number of the clock's next reader, or 0.
    pub next: usize,
}

/// For each clock the items that read it, once for each place, in the order of their numbers.
pub struct Readers {
    /// For each clock the number of its first reader, or 0.
    firsts: Vec<usize>,
    /// The readers, numbered from 1.
    readers: Vec<Reader>,
    ghost there: { All (λ number. number ≤ length readers.items) firsts.items },
    ghost falls: { (k : ℕ) (r : Reader) → k < length readers.items →
        (slice_index_or readers.items k r).next ≤ k },
}

// By hand and not derived: to the prover, an early return then drops one by a single call.
impl Drop for Readers {
    fn drop(self) {
        let Readers {
            firsts: _,
            readers: _,
        } = self;
    }
}

impl Readers {
    /// Looks through all formulas, the last one first.
    pub fn open(problem: &Problem) -> Result<Readers, Memory>
        ensures clocks { IfOk result (λ r. length r.firsts.items ≡ problem.now.scope.named) }
        ensures items { IfOk result (λ r.
            All (λ x. x.item < length problem.now.formulas.now) r.readers.items) }
    {
        let count = problem.formulas.len();
        let mut readers = Readers {
            firsts: vec![in problem.alloc; 0usize; problem.scope.named as usize]?,
            readers: Vec::with_capacity(problem.alloc, count)?,
        };
        for item in (0..count as u32).rev() {
            readers.enter(&problem.formulas[item as usize], item)?;
        }
        Ok(readers)
    }

    /// The number of a clock's first reader, or 0.
    pub fn first(&self, clock: u32) -> usize
        requires { clock < length self.now.firsts.items }
        ensures { result ≤ length self.now.readers.items }
    {
        self.firsts[clock as usize]
    }

    /// The reader of a number.
    pub fn reader(&self, number: usize) -> Reader
        requires some { 0 < number }
        requires there { number ≤ length self.now.readers.items }
        ensures next { result.next < number }
        ensures item { (n : ℕ) → All (λ x. x.item < n) self.now.readers.items → result.item < n }
    {
        self.readers[number - 1]
    }

    /// Enters an item at each clock that its formula reads.
    fn enter(&mut self, formula: &Formula, item: u32) -> Result<(), Memory>
        requires { IsNamed (length self.old.firsts.items) (plain formula.now) }
        ensures clocks { length self.new.firsts.items ≡ length self.old.firsts.items }
        ensures items { (n : ℕ) → item < n → All (λ x. x.item < n) self.old.readers.items →
            All (λ x. x.item < n) self.new.readers.items }
    {
        match formula {
            Formula::True => Ok(()),
            Formula::False => Ok(()),
            Formula::Var(x) => self.enter_at(*x, item),
            Formula::Not(f) => self.enter(f, item),
            Formula::And(f, g) | Formula::Or(f, g) | Formula::Iff(f, g) => {
                self.enter(f, item)?;
                self.enter(g, item)
            }
        }
    }

    /// Enters an item at a clock.
    fn enter_at(&mut self, clock: u32, item: u32) -> Result<(), Memory>
        requires { clock < length self.old.firsts.items }
        ensures clocks { length self.new.firsts.items ≡ length self.old.firsts.items }
        ensures items { (n : ℕ) → item < n → All (λ x. x.item < n) self.old.readers.items →
            All (λ x. x.item < n) self.new.readers.items }
    {
        let next = self.firsts[clock as usize];
        self.readers.push(Reader { item, next })?;
        self.firsts[clock as usize] = self.readers.len();
        Ok(())
    }
}
