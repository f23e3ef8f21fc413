//! The rows of the table for operators, as what they make of their operands' formulas and deaths.

ghost use Rattle.std.specs.Prelude.{◌≡◌, if◌then◌else◌};
ghost use Rattle.ccsl_formula.specs.Formula.{FFalse};
ghost use Rattle.ccsl_kernel.specs.Table.{Now};
ghost use Rattle.ccsl_plain.specs.Course.{operand_of};
ghost use Rattle.ccsl_plain.specs.Operators.{unary_row, binary_row, connected, joined_ticks, ahead};

use crate::ticks::{Since, count, ever, some_waits};
use ccsl_kernel::actual::{is_past_end, letter_at};
use ccsl_words::Word;

/// A unary operator. A filter has its word's number and an offset.
#[derive(Clone, Copy)]
pub enum Unary {
    Delay(u32),
    Await(u32),
    Filter(u32, u32),
}

impl Unary {
    /// Whether the operator lets its operand's formula through, after these ticks of it.
    pub fn is_open(self, words: &[Word], ticks: &[bool]) -> bool
        ensures { (a : Now) → (unary_row words.now self (operand_of a ticks.now)).formula ≡
            (if result then a.formula else FFalse) }
    {
        match self {
            Unary::Delay(m) => u64::from(m) <= count(ticks),
            Unary::Await(m) => count(ticks) + 1 == u64::from(m),
            Unary::Filter(word, offset) => letter_at(words, word, u64::from(offset) + count(ticks)),
        }
    }

    /// Whether the operator is dead, where its operand is or not.
    pub fn is_dead(self, words: &[Word], dead: bool, ticks: &[bool]) -> bool
        ensures { (a : Now) → a.dead ≡ dead →
            result ≡ (unary_row words.now self (operand_of a ticks.now)).dead }
    {
        match self {
            Unary::Delay(_) => dead,
            Unary::Await(m) => dead || u64::from(m) <= count(ticks),
            Unary::Filter(word, offset) => {
                dead || is_past_end(words, word, u64::from(offset) + count(ticks))
            }
        }
    }
}

/// A binary operator.
#[derive(Clone, Copy)]
pub enum Binary {
    Union,
    Inter,
    Minus,
    Inf,
    Sup,
    Upto,
    UptoWeakly,
    Sampled,
    SampledWeakly,
    Delayed(u32),
}

/// The connective by which a row joins its operands' formulas: the left or the right one alone, false, a disjunction, a
/// conjunction, the conjunction with the right one first, or the left one and not the right one.
#[derive(Clone, Copy)]
pub enum Connective {
    Left,
    Right,
    False,
    Or,
    And,
    RightAndLeft,
    AndNot,
}

impl Connective {
    /// Whether the joined formula holds, where those of the operands do or not.
    pub fn ticks(self, left: bool, right: bool) -> bool
        ensures { result ≡ joined_ticks self left right }
    {
        match self {
            Connective::Left => left,
            Connective::Right => right,
            Connective::False => false,
            Connective::Or => left || right,
            Connective::And | Connective::RightAndLeft => left && right,
            Connective::AndNot => left && !right,
        }
    }
}

impl Binary {
    /// How the operator joins its operands' formulas, after these ticks of theirs.
    pub fn connective(self, p: &[bool], q: &[bool]) -> Connective
        ensures { (a d : Now) →
            (binary_row self (operand_of a p.now) (operand_of d q.now)).formula ≡
            connected result a.formula d.formula }
    {
        match self {
            Binary::Union => Connective::Or,
            Binary::Inter => Connective::And,
            Binary::Minus => Connective::AndNot,
            Binary::Inf => ahead(count(p), count(q), Connective::Or),
            Binary::Sup => ahead(count(q), count(p), Connective::And),
            Binary::Upto => chosen(ever(q), Connective::False, Connective::AndNot),
            Binary::UptoWeakly => chosen(ever(q), Connective::False, Connective::Left),
            Binary::Sampled => {
                chosen(
                    some_waits(Since::NoneAfter, p, q),
                    Connective::Right,
                    Connective::False,
                )
            }
            Binary::SampledWeakly => {
                chosen(
                    some_waits(Since::NoneFrom, p, q),
                    Connective::Right,
                    Connective::RightAndLeft,
                )
            }
            Binary::Delayed(m) => {
                let since = Since::Just(u64::from(m).saturating_sub(1));
                chosen(
                    some_waits(since, p, q),
                    Connective::Right,
                    Connective::False,
                )
            }
        }
    }

    /// Whether the operator is dead, where its operands are or not.
    pub fn is_dead(self, x: bool, p: &[bool], y: bool, q: &[bool]) -> bool
        ensures { (a d : Now) → a.dead ≡ x → d.dead ≡ y →
            result ≡ (binary_row self (operand_of a p.now) (operand_of d q.now)).dead }
    {
        match self {
            Binary::Union | Binary::Inf => x && y,
            Binary::Inter => x || y,
            Binary::Minus => x,
            Binary::Sup => (x && count(p) <= count(q)) || (y && count(q) <= count(p)),
            Binary::Upto | Binary::UptoWeakly => x || ever(q),
            Binary::Sampled => y || (x && !some_waits(Since::NoneAfter, p, q)),
            Binary::SampledWeakly => y || (x && !some_waits(Since::NoneFrom, p, q)),
            Binary::Delayed(m) => y || (x && !some_waits(Since::Fewer(u64::from(m)), p, q)),
        }
    }
}

// The left operand where m is more than n, the right one where it is less.
fn ahead(m: u64, n: u64, level: Connective) -> Connective
    ensures { result ≡ ahead m n level }
{
    if n < m {
        Connective::Left
    } else if m < n {
        Connective::Right
    } else {
        level
    }
}

// One of two connectives, by a test.
fn chosen(test: bool, met: Connective, unmet: Connective) -> Connective
    ensures { result ≡ (if test then met else unmet) }
{
    if test { met } else { unmet }
}
