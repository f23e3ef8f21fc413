//! What to do next: unit propagation over the formulas and the learned clauses, then a decision.

ghost use Rattle.std.specs.Prelude.{◌≡◌, ◌<◌, ◌≤◌, ◌*◌, All, IfOk, length};
ghost use Rattle.ccsl_guide.specs.Named.{AreNamed};

use crate::look::looked;
use crate::order::Order;
use crate::problem::Problem;
use crate::readers::Readers;
use crate::reason::Reason;
use crate::values::Operands;
use crate::watches::Watches;
use ccsl_base::Memory;
use ccsl_formula::Partial;
use ccsl_refute::{Line, Lit};

/// What to do next.
#[derive(Clone, Copy)]
pub enum Hint {
    /// The reason refutes the present values.
    Broken(Reason),
    /// The reason refutes the negation of the literal.
    Forced(Lit, Reason),
    /// Nothing is forced. A literal that may be tried.
    Decide(Option<Lit>),
}

/// A literal that a reason forces.
#[derive(Clone, Copy)]
pub struct Forced {
    pub lit: Lit,
    pub reason: Reason,
}

/// What is still to be looked at.
pub struct Guide {
    readers: Readers,
    watches: Watches,
    order: Order,
    /// Items of which a clock got a value, each once.
    items: Vec<u32>,
    is_waiting: Vec<bool>,
    /// Literals that became false.
    falsified: Vec<Lit>,
    forced: Vec<Forced>,
    /// For each item the last line that it gave, or 0.
    lines: Vec<u64>,
    /// The place where the values of operands are noted.
    pub noted: Vec<Operands>,
    ghost clocks: { length readers.firsts.items ≡ length order.clocks.items },
    ghost literals: { length watches.places.items ≡ 2 * length order.clocks.items },
    ghost read: { All (λ r. r.item < length is_waiting.items) readers.readers.items },
    ghost waiting: { All (λ item. item < length is_waiting.items) items.items },
    ghost named: { All (λ l. l.clock < length order.clocks.items) falsified.items },
    ghost given: { length lines.items ≡ length is_waiting.items },
}

// By hand and not derived: to the prover, an early return then drops one by a single call.
impl Drop for Guide {
    fn drop(self) {
        let Guide {
            readers: _,
            watches: _,
            order: _,
            items: _,
            is_waiting: _,
            falsified: _,
            forced: _,
            lines: _,
            noted: _,
        } = self;
    }
}

impl Guide {
    ghost use Rattle.ccsl_guide.specs.Fits.{Fits, clock_count, item_count};

    /// A guide that has looked at nothing yet.
    pub fn open(problem: &Problem, lines: &[Line], part: &Partial) -> Result<Guide, Memory>
        requires lines { AreNamed problem.now.scope.named lines.now }
        requires first { 0 < length lines.now }
        ensures { IfOk result (Fits problem.now) }
    {
        let alloc = problem.alloc;
        let count = problem.formulas.len();
        let mut guide = Guide {
            readers: Readers::open(problem)?,
            watches: Watches::open(problem)?,
            order: Order::open(problem)?,
            items: all_items(problem)?,
            is_waiting: vec![in alloc; true; count]?,
            lines: vec![in alloc; 0u64; count]?,
            falsified: Vec::new(alloc),
            forced: Vec::new(alloc),
            noted: Vec::new(alloc),
        };
        guide.watch(problem, lines, part, 1)?;
        Ok(guide)
    }

    /// The last line that an item gave, or 0.
    pub fn line_of(&self, item: u32) -> u64
        requires { item < item_count self.now }
    {
        self.lines[item as usize]
    }

    /// Notes the number of the last line that an item gave.
    pub fn note(&mut self, item: u32, line: u64)
        requires { item < item_count self.old }
        ensures clocks { clock_count self.new ≡ clock_count self.old }
        ensures items { item_count self.new ≡ item_count self.old }
    {
        self.lines[item as usize] = line;
    }

    /// What to do next.
    pub fn next(
        &mut self,
        problem: &Problem,
        lines: &[Line],
        part: &Partial,
    ) -> Result<Hint, Memory>
        requires lines { AreNamed problem.now.scope.named lines.now }
        requires fits { Fits problem.now self.old }
        ensures { Fits problem.now self.new }
    {
        if let Some(hint) = next_forced(&mut self.forced, part) {
            return Ok(hint);
        }
        while let Some(item) = self.items.pop() {
            self.is_waiting[item as usize] = false;
            let formula = &problem.formulas[item as usize];
            let reason = Reason::Item(item);
            if looked(formula, part, reason, &mut self.noted, &mut self.forced)? {
                return Ok(Hint::Broken(reason));
            }
            if let Some(hint) = next_forced(&mut self.forced, part) {
                return Ok(hint);
            }
        }
        while let Some(lit) = self.falsified.pop() {
            self.watches
                .visit(problem, lines, part, lit, &mut self.forced)?;
            if let Some(hint) = next_forced(&mut self.forced, part) {
                return Ok(hint);
            }
        }
        Ok(Hint::Decide(self.order.next(part)))
    }

    /// A literal becomes true.
    pub fn assigned(&mut self, lit: Lit) -> Result<(), Memory>
        requires { lit.clock < clock_count self.old }
        ensures clocks { clock_count self.new ≡ clock_count self.old }
        ensures items { item_count self.new ≡ item_count self.old }
    {
        let mut number = self.readers.first(lit.clock);
        while number > 0 {
            let reader = self.readers.reader(number);
            self.wait(reader.item)?;
            number = reader.next;
        }
        self.order.assigned(lit);
        self.falsified.push(Lit {
            clock: lit.clock,
            positive: !lit.positive,
        })?;
        Ok(())
    }

    /// An item is to be looked at.
    fn wait(&mut self, item: u32) -> Result<(), Memory>
        requires { item < item_count self.old }
        ensures readers { self.new.readers ≡ self.old.readers }
        ensures clocks { clock_count self.new ≡ clock_count self.old }
        ensures items { item_count self.new ≡ item_count self.old }
    {
        if !self.is_waiting[item as usize] {
            self.is_waiting[item as usize] = true;
            self.items.push(item)?;
        }
        Ok(())
    }

    /// The negation of a literal becomes true after the literal failed, as a line shows.
    pub fn flipped(
        &mut self,
        problem: &Problem,
        lines: &[Line],
        part: &Partial,
        lit: Lit,
        line: u64,
    ) -> Result<(), Memory>
        requires lines { AreNamed problem.now.scope.named lines.now }
        requires fits { Fits problem.now self.old }
        requires named { lit.clock < problem.now.scope.named }
        requires line { line ≤ length lines.now }
        ensures { Fits problem.now self.new }
    {
        while let Some(item) = self.items.pop() {
            self.is_waiting[item as usize] = false;
        }
        self.falsified.clear();
        self.forced.clear();
        self.order.restart();
        self.watches.force_units(&mut self.forced)?;
        self.watch(problem, lines, part, line)?;
        self.assigned(Lit {
            clock: lit.clock,
            positive: !lit.positive,
        })
    }

    /// Watches the clause of a line, where it is a new one that is no item's.
    fn watch(
        &mut self,
        problem: &Problem,
        lines: &[Line],
        part: &Partial,
        line: u64,
    ) -> Result<(), Memory>
        requires lines { AreNamed problem.now.scope.named lines.now }
        requires fits { Fits problem.now self.old }
        requires line { line ≤ length lines.now }
        ensures { Fits problem.now self.new }
    {
        if line <= self.watches.last() {
            return Ok(());
        }
        let clause = &lines[(line - 1) as usize];
        if let Line::Item(_, _) = clause {
            return Ok(());
        }
        self.order.bump(problem, clause)?;
        self.watches
            .watch(problem, clause, part, &self.order, line, &mut self.forced)
    }
}

/// The items of all formulas.
fn all_items(problem: &Problem) -> Result<Vec<u32>, Memory>
    ensures { IfOk result (λ items.
        All (λ item. item < length problem.now.formulas.now) items.items) }
{
    let count = problem.formulas.len();
    let mut items = Vec::with_capacity(problem.alloc, count)?;
    for item in 0..count as u32 {
        items.push(item)?;
    }
    Ok(items)
}

/// The next literal that is forced and not yet true.
fn next_forced(forced: &mut Vec<Forced>, part: &Partial) -> Option<Hint> {
    while let Some(next) = forced.pop() {
        match part.get(next.lit.clock) {
            None => return Some(Hint::Forced(next.lit, next.reason)),
            Some(value) => {
                if value != next.lit.positive {
                    return Some(Hint::Broken(next.reason));
                }
            }
        }
    }
    None
}
