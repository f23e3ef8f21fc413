//! Two literals of each learned clause that are watched: as long as neither is false the clause forces nothing.

ghost use Rattle.std.specs.Prelude.{ℕ, ◌≡◌, ◌+◌, ◌*◌, ◌<◌, ◌≤◌, ⊤, All, IfOk, MatchOption, length};
ghost use Rattle.ccsl_refute.specs.Below.{AreBelow};
ghost use Rattle.ccsl_refute.specs.LineLiterals.{literals};
ghost use Rattle.ccsl_guide.specs.Named.{AreNamed, HasAt, number};
ghost use Rattle.ccsl_guide.specs.Moves.{IsWithin};

use crate::guide::Forced;
use crate::order::Order;
use crate::problem::{Problem, clause_in};
use crate::reason::Reason;
use ccsl_base::Memory;
use ccsl_formula::{Partial, Truth3};
use ccsl_refute::clause::lit_value;
use ccsl_refute::{Line, Lit};

/// A clause, with the places of the two literals that are watched.
#[derive(Clone, Copy)]
struct Watch {
    line: u64,
    first: usize,
    second: usize,
}

/// What becomes of a watched literal that is false.
#[derive(Clone, Copy)]
enum Move {
    /// The clause is true.
    Stay,
    /// Another literal is watched in its place.
    To(Watch, Lit),
    /// No other literal can be watched: the other one is forced.
    Force(Lit),
}

/// The clauses of learned lines, and which of them a literal has to look at.
pub struct Watches {
    /// For each literal the places of its watches: for each clock those of its negative one, and of its positive one.
    places: Vec<Vec<usize>>,
    watches: Vec<Watch>,
    /// Clauses of one literal.
    units: Vec<Forced>,
    /// The last line that is watched.
    last: u64,
    ghost there: { All (λ list. All (λ place. place < length watches.items) list.items)
        places.items },
}

// By hand and not derived: to the prover, an early return then drops one by a single call.
impl Drop for Watches {
    fn drop(self) {
        let Watches {
            places: _,
            watches: _,
            units: _,
            last: _,
        } = self;
    }
}

impl Watches {
    /// No clause is watched.
    pub fn open(problem: &Problem) -> Result<Watches, Memory>
        ensures { IfOk result (λ w. length w.places.items ≡ 2 * problem.now.scope.named) }
    {
        Ok(Watches {
            places: empty_lists(problem)?,
            watches: Vec::new(problem.alloc),
            units: Vec::new(problem.alloc),
            last: 0,
        })
    }

    /// Forces the clauses of one literal again, after clocks lost their values.
    pub fn force_units(&self, forced: &mut Vec<Forced>) -> Result<(), Memory> {
        for unit in &self.units {
            forced.push(*unit)?;
        }
        Ok(())
    }

    /// Watches the clause of a line, where it is a later one than those watched.
    pub fn watch(
        &mut self,
        problem: &Problem,
        clause: &Line,
        part: &Partial,
        order: &Order,
        line: u64,
        forced: &mut Vec<Forced>,
    ) -> Result<(), Memory>
        requires clause { AreBelow problem.now.scope.named (literals clause.now) }
        requires order { length order.now.clocks.items ≡ problem.now.scope.named }
        requires places { length self.old.places.items ≡ 2 * problem.now.scope.named }
        ensures { length self.new.places.items ≡ length self.old.places.items }
    {
        let lits = clause_in(problem, clause);
        self.last = line;
        let Some(first) = best_watch(lits, part, order, None) else {
            return Ok(());
        };
        let lit = lits[first];
        let reason = Reason::Clause(line);
        let Some(second) = best_watch(lits, part, order, Some(first)) else {
            let unit = Forced { lit, reason };
            self.units.push(unit)?;
            forced.push(unit)?;
            return Ok(());
        };
        if let Truth3::No = lit_value(part, lits[second]) {
            forced.push(Forced { lit, reason })?;
        }
        let place = self.watches.len();
        self.watches.push(Watch {
            line,
            first,
            second,
        })?;
        self.enter(lit, place)?;
        self.enter(lits[second], place)
    }

    /// The last line that is watched.
    pub fn last(&self) -> u64 {
        self.last
    }

    /// Enters a watch of a literal.
    fn enter(&mut self, lit: Lit, place: usize) -> Result<(), Memory>
        requires named { 2 * lit.clock + 1 < length self.old.places.items }
        requires there { place < length self.old.watches.items }
        ensures places { length self.new.places.items ≡ length self.old.places.items }
        ensures watches { length self.new.watches.items ≡ length self.old.watches.items }
        ensures more { (k n : ℕ) → HasAt self.old.places.items k n →
            HasAt self.new.places.items k n }
    {
        self.places[number_of(lit)].push(place)?;
        Ok(())
    }

    /// Looks at the clauses in which a literal is watched that became false.
    pub fn visit(
        &mut self,
        problem: &Problem,
        lines: &[Line],
        part: &Partial,
        lit: Lit,
        forced: &mut Vec<Forced>,
    ) -> Result<(), Memory>
        requires lines { AreNamed problem.now.scope.named lines.now }
        requires named { lit.clock < problem.now.scope.named }
        requires places { length self.old.places.items ≡ 2 * problem.now.scope.named }
        ensures { length self.new.places.items ≡ length self.old.places.items }
    {
        for at in (0..self.places[number_of(lit)].len()).rev() {
            self.visit_one(problem, lines, part, lit, at, forced)?;
        }
        Ok(())
    }

    /// Looks at one of them.
    fn visit_one(
        &mut self,
        problem: &Problem,
        lines: &[Line],
        part: &Partial,
        lit: Lit,
        at: usize,
        forced: &mut Vec<Forced>,
    ) -> Result<(), Memory>
        requires lines { AreNamed problem.now.scope.named lines.now }
        requires named { lit.clock < problem.now.scope.named }
        requires places { length self.old.places.items ≡ 2 * problem.now.scope.named }
        requires there { HasAt self.old.places.items (number lit) (at + 1) }
        ensures places { length self.new.places.items ≡ length self.old.places.items }
        ensures left { HasAt self.new.places.items (number lit) at }
    {
        let place = self.places[number_of(lit)][at];
        let watch = self.watches[place];
        let Some(lits) = lits_of(problem, lines, watch.line) else {
            return Ok(());
        };
        match moved(lits, part, watch, lit) {
            Move::Stay => Ok(()),
            Move::Force(other) => {
                let reason = Reason::Clause(watch.line);
                forced.push(Forced { lit: other, reason })?;
                Ok(())
            }
            Move::To(next, other) => {
                self.watches[place] = next;
                self.leave(lit, at);
                self.enter(other, place)
            }
        }
    }

    /// Takes out a watch of a literal.
    fn leave(&mut self, lit: Lit, at: usize)
        requires named { 2 * lit.clock + 1 < length self.old.places.items }
        requires there { HasAt self.old.places.items (number lit) (at + 1) }
        ensures places { length self.new.places.items ≡ length self.old.places.items }
        ensures watches { length self.new.watches.items ≡ length self.old.watches.items }
        ensures left { HasAt self.new.places.items (number lit) at }
    {
        self.places[number_of(lit)].swap_remove(at);
    }
}

/// The number of a literal.
fn number_of(lit: Lit) -> usize
    ensures { result ≡ number lit }
{
    2 * lit.clock as usize + lit.positive as usize
}

/// For each literal an empty list.
fn empty_lists(problem: &Problem) -> Result<Vec<Vec<usize>>, Memory>
    ensures places { IfOk result (λ lists. length lists.items ≡ 2 * problem.now.scope.named) }
    ensures empty { IfOk result (λ lists. All (λ list. length list.items ≡ 0) lists.items) }
{
    let literals = 2 * problem.scope.named as usize;
    let mut lists = Vec::with_capacity(problem.alloc, literals)?;
    for _ in 0..literals {
        lists.push(Vec::new(problem.alloc))?;
    }
    Ok(lists)
}

/// The literals of a line's clause. No contract ties the lines to those that are watched, so there may be no such line.
fn lits_of<'a>(problem: &Problem<'a>, lines: &'a [Line], line: u64) -> Option<&'a [Lit]>
    requires { AreNamed problem.now.scope.named lines.now }
    ensures { MatchOption result ⊤
        (λ lits. All (λ l. l.clock < problem.now.scope.named) lits.now) }
{
    if line == 0 {
        return None;
    }
    let line = lines.get((line - 1) as usize)?;
    Some(clause_in(problem, line))
}

/// The place of a literal that is best watched, beside one that is watched: one that is not false, or that became false
/// last.
fn best_watch(lits: &[Lit], part: &Partial, order: &Order, other: Option<usize>) -> Option<usize>
    requires { All (λ l. l.clock < length order.now.clocks.items) lits.now }
    ensures { MatchOption result ⊤ (λ place. place < length lits.now) }
{
    let mut best = None;
    let mut latest = 0u64;
    for (place, lit) in lits.iter().enumerate() {
        let time = match lit_value(part, *lit) {
            Truth3::No => order.time(lit.clock),
            Truth3::Yes => u64::MAX,
            Truth3::Open => u64::MAX,
        };
        if other != Some(place) && (best.is_none() || time > latest) {
            best = Some(place);
            latest = time;
        }
    }
    best
}

/// What becomes of a watched literal that is false.
fn moved(lits: &[Lit], part: &Partial, watch: Watch, lit: Lit) -> Move
    ensures { (n : ℕ) → All (λ l. l.clock < n) lits.now → IsWithin n result }
{
    // No contract ties the clause to the one that is watched, so it may be shorter.
    let (Some(first), Some(second)) = (lits.get(watch.first), lits.get(watch.second)) else {
        return Move::Stay;
    };
    let (here, other, kept) = if first.clock == lit.clock {
        (watch.first, watch.second, *second)
    } else {
        (watch.second, watch.first, *first)
    };
    if let Truth3::Yes = lit_value(part, kept) {
        return Move::Stay;
    }
    let next = match free_place(lits, part, here, lits.len(), other) {
        None => free_place(lits, part, 0, here, other),
        found => found,
    };
    match next {
        None => Move::Force(kept),
        Some(place) => Move::To(
            Watch {
                line: watch.line,
                first: place,
                second: other,
            },
            lits[place],
        ),
    }
}

/// The place of a literal that is not false, from `from` on and before `end`, beside one that is watched.
fn free_place(lits: &[Lit], part: &Partial, from: usize, end: usize, other: usize) -> Option<usize>
    requires { end ≤ length lits.now }
    ensures { MatchOption result ⊤ (λ place. place < length lits.now) }
{
    for place in from..end {
        if place != other && !is_false(part, lits[place]) {
            return Some(place);
        }
    }
    None
}

/// Whether a literal is false.
fn is_false(part: &Partial, lit: Lit) -> bool {
    match lit_value(part, lit) {
        Truth3::No => true,
        Truth3::Yes => false,
        Truth3::Open => false,
    }
}
