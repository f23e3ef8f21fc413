//! Formulas, their truth under a set of clocks, their Kleene value under a partial assignment, and what they read.

ghost use Rattle.std.specs.Prelude.{◌≡◌};
ghost use Rattle.ccsl_formula.specs.Formula.{eval, kleene};
ghost use Rattle.ccsl_formula.specs.Variables.{reads};
ghost use Rattle.ccsl_formula.specs.Known.{known};
ghost use Rattle.ccsl_formula.specs.Plain.{plain};

use crate::partial::Partial;
use crate::truth3::Truth3;
use ccsl_base::ClockSet;

/// A formula of propositional logic, whose variables are clock numbers.
pub enum Formula {
    True,
    False,
    Var(u32),
    Not(Box<Formula>),
    And(Box<Formula>, Box<Formula>),
    Or(Box<Formula>, Box<Formula>),
    Iff(Box<Formula>, Box<Formula>),
}

// By hand and not derived: to the prover, an early return then drops one by a single call.
impl Drop for Formula {
    #[cycle(formulas)]
    fn drop(self) {
        match self {
            Formula::True => {}
            Formula::False => {}
            Formula::Var(_) => {}
            Formula::Not(_f) => {}
            Formula::And(_f, _g) => {}
            Formula::Or(_f, _g) => {}
            Formula::Iff(_f, _g) => {}
        }
    }
}

impl Formula {
    /// The truth value where the members of a set tick.
    pub fn eval(&self, set: &ClockSet) -> bool
        ensures { result ≡ eval (plain self.now) set.now }
    {
        match self {
            Formula::True => true,
            Formula::False => false,
            Formula::Var(x) => set.has(*x),
            Formula::Not(f) => !f.eval(set),
            Formula::And(f, g) => f.eval(set) && g.eval(set),
            Formula::Or(f, g) => f.eval(set) || g.eval(set),
            Formula::Iff(f, g) => f.eval(set) == g.eval(set),
        }
    }

    /// The strong Kleene value.
    pub fn kleene(&self, part: &Partial) -> Truth3
        ensures { result ≡ kleene (plain self.now) (known part.now) }
    {
        match self {
            Formula::True => Truth3::Yes,
            Formula::False => Truth3::No,
            Formula::Var(x) => part.value(*x),
            Formula::Not(f) => f.kleene(part).not(),
            Formula::And(f, g) => match f.kleene(part) {
                Truth3::No => Truth3::No,
                left => left.and(g.kleene(part)),
            },
            Formula::Or(f, g) => match f.kleene(part) {
                Truth3::Yes => Truth3::Yes,
                left => left.or(g.kleene(part)),
            },
            Formula::Iff(f, g) => match f.kleene(part) {
                Truth3::Open => Truth3::Open,
                left => left.iff(g.kleene(part)),
            },
        }
    }

    /// Whether a variable occurs.
    pub fn reads(&self, v: u32) -> bool
        ensures { result ≡ reads (plain self.now) v }
    {
        match self {
            Formula::True => false,
            Formula::False => false,
            Formula::Var(x) => v == *x,
            Formula::Not(f) => f.reads(v),
            Formula::And(f, g) => f.reads(v) || g.reads(v),
            Formula::Or(f, g) => f.reads(v) || g.reads(v),
            Formula::Iff(f, g) => f.reads(v) || g.reads(v),
        }
    }
}
