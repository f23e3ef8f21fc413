//! Literals and clauses under a partial assignment.

ghost use Rattle.std.specs.Prelude.{◌≡◌, ℕ, IfOk};
ghost use Rattle.ccsl_formula.specs.Known.{known};
ghost use Rattle.ccsl_refute.specs.Literals.{lit_value, all_false, unit, positives};
ghost use Rattle.ccsl_refute.specs.Validity.{clause};

use crate::line::{Line, Lit};
use ccsl_base::Memory;
use ccsl_formula::{Partial, Truth3};
use std::alloc::Global;

/// The value of a literal.
pub fn lit_value(part: &Partial, lit: Lit) -> Truth3
    ensures { result ≡ lit_value (known part.now) lit }
{
    let value = part.value(lit.clock);
    if lit.positive { value } else { value.not() }
}

/// Whether all literals are false.
pub fn all_false(part: &Partial, lits: &[Lit]) -> bool
    ensures { result ≡ all_false (known part.now) lits.now }
{
    let mut rest = lits;
    while let [lit, more @ ..] = rest {
        match lit_value(part, *lit) {
            Truth3::No => rest = more,
            Truth3::Yes => return false,
            Truth3::Open => return false,
        }
    }
    true
}

/// The one literal that is not known, where all others are false.
pub fn unit(part: &Partial, lits: &[Lit]) -> Option<Lit>
    ensures { result ≡ unit (known part.now) lits.now }
{
    let mut rest = lits;
    while let [lit, more @ ..] = rest {
        match lit_value(part, *lit) {
            Truth3::No => rest = more,
            Truth3::Yes => return None,
            Truth3::Open => {
                return if all_false(part, more) {
                    Some(*lit)
                } else {
                    None
                };
            }
        }
    }
    None
}

/// The clause of a line.
pub fn clause_of<'a>(line: &'a Line, nonempty: &'a [Lit]) -> &'a [Lit]
    ensures { (declared : ℕ) → nonempty.now ≡ positives declared →
        result.now ≡ clause declared line.now }
{
    match line {
        Line::Nonempty => nonempty,
        Line::Item(_, lits) => lits.members(),
        Line::Derived(lits, _) => lits.members(),
    }
}

/// All declared clocks, positive.
pub fn positives(alloc: Global, declared: u32) -> Result<Vec<Lit>, Memory>
    ensures { IfOk result (λ v. v.items ≡ positives declared) }
{
    let mut lits = Vec::new(alloc);
    for clock in 0..declared {
        lits.push(Lit {
            clock,
            positive: true,
        })?;
    }
    Ok(lits)
}
