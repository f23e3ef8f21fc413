//! The cells that an operator has of its own.

ghost use Rattle.std.specs.Prelude.{◌≡◌, ◌≤◌, ℕ, length, option_map, if◌then◌else◌};
ghost use Rattle.ccsl_words.specs.Word.{rest};
ghost use Rattle.ccsl_kernel.specs.Actuals.{word_of};
ghost use Rattle.ccsl_kernel.specs.Fit.{SuffixFits};
ghost use Rattle.ccsl_state.specs.Tree.{Filtering, one_ticks, one_dead, one_next, two_next, two_opened};
ghost use Rattle.ccsl_state.specs.Layout.{offset_of, own_cells, two_at};
ghost use Rattle.ccsl_state.specs.Nodes.{one_at, node_ticks, node_dead};

use crate::cells::{bumped, count_at, is_next, suffix_at};
use crate::moved::Stepped;
use ccsl_kernel::actual::{is_past_end, letter_at};
use ccsl_kernel::{ExprOp, Suffix};
use ccsl_words::Word;

/// An operator of one operand. A filter has its word's number.
#[derive(Clone, Copy)]
pub enum Unary {
    Delay(u32),
    Await(u32),
    Filter(u32),
}

impl Unary {
    /// Rewrites the cell after a step in which the operand ticked or not, and is dead after it or not.
    pub fn stepped(self, words: &[Word], cell: &mut u64, t: bool, x: bool) -> Stepped
        ensures tick { result.tick ≡ one_ticks (one_at words.now self cell.old) t }
        ensures node { one_at words.now self cell.new
            ≡ one_next (one_at words.now self cell.old) t }
        ensures dead { result.dead ≡ one_dead (one_at words.now self cell.new) x }
    {
        let tick = self.ticks(words, *cell, t);
        *cell = self.moved(words, *cell, t);
        Stepped {
            tick,
            dead: self.is_dead(words, *cell, x),
        }
    }

    /// The cell after a step in which the operand ticked or not.
    fn moved(self, words: &[Word], cell: u64, t: bool) -> u64
        ensures { one_at words.now self result ≡ one_next (one_at words.now self cell) t }
    {
        match self {
            Unary::Delay(_) | Unary::Await(_) => bumped(t, count_at(cell)),
            Unary::Filter(word) => offset_moved(words, word, cell, t),
        }
    }

    /// Whether it ticks, where its operand ticks or not.
    pub fn ticks(self, words: &[Word], cell: u64, t: bool) -> bool
        ensures { result ≡ one_ticks (one_at words.now self cell) t }
    {
        match self {
            Unary::Delay(m) => u64::from(m) <= count_at(cell) && t,
            Unary::Await(m) => is_next(count_at(cell), m) && t,
            Unary::Filter(word) => letter_at(words, word, suffix_at(words, word, cell).offset) && t,
        }
    }

    /// Whether it is dead, where its operand is or not.
    pub fn is_dead(self, words: &[Word], cell: u64, x: bool) -> bool
        ensures { result ≡ one_dead (one_at words.now self cell) x }
    {
        match self {
            Unary::Delay(_) => x,
            Unary::Await(m) => x || u64::from(m) <= count_at(cell),
            Unary::Filter(word) => {
                x || is_past_end(words, word, suffix_at(words, word, cell).offset)
            }
        }
    }
}

/// The cell of a filter's offset after a step in which its operand ticked or not.
fn offset_moved(words: &[Word], word: u32, cell: u64, t: bool) -> u64
    ensures { let w = word_of words.now word in
        let o = offset_of w cell in
        offset_of w result ≡ (if t then rest w o else o) }
{
    let suffix = suffix_at(words, word, cell);
    if t {
        suffix.tail(words).offset
    } else {
        suffix.offset
    }
}

/// A filter at the start of a suffix, whose offset is its first cell.
pub fn filter_from(words: &[Word], suffix: Suffix) -> Unary
    requires { SuffixFits words.now suffix }
    ensures first { one_at words.now result suffix.offset ≡
        Filtering (word_of words.now suffix.word) suffix.offset }
    ensures filter { (n : ℕ) → let w = word_of words.now suffix.word in
        one_at words.now result n ≡ Filtering w (offset_of w n) }
{
    Unary::Filter(suffix.word)
}

/// Whether an operator ticks, where its operands tick or not. A then has no node.
#[inline(always)]
pub fn two_ticks(op: ExprOp, head: &[u64], t: bool, u: bool) -> bool
    requires { own_cells op ≤ length head.now }
    ensures { result ≡ node_ticks (two_at op head.now) t u }
{
    match op {
        ExprOp::Union => t || u,
        ExprOp::Inter => t && u,
        ExprOp::Minus => t && !u,
        ExprOp::Inf => {
            let (a, d) = (count_at(head[0]), count_at(head[1]));
            (t && d <= a) || (u && a <= d)
        }
        ExprOp::Sup => {
            let (a, d) = (count_at(head[0]), count_at(head[1]));
            (t || d < a) && (u || a < d)
        }
        ExprOp::Upto => head[0] == 0 && t && !u,
        ExprOp::UptoWeakly => head[0] == 0 && t,
        ExprOp::Then => false,
        ExprOp::Sampled => head[0] != 0 && u,
        ExprOp::SampledWeakly => u && (head[0] != 0 || t),
    }
}

/// Whether an operator is dead, where its operands are or not.
#[inline(always)]
pub fn two_dead(op: ExprOp, head: &[u64], x: bool, y: bool) -> bool
    requires { length head.now ≡ own_cells op }
    ensures { result ≡ node_dead (two_at op head.now) x y }
{
    match op {
        ExprOp::Union | ExprOp::Inf => x && y,
        ExprOp::Inter => x || y,
        ExprOp::Minus => x,
        ExprOp::Sup => {
            let (a, d) = (count_at(head[0]), count_at(head[1]));
            (x && a <= d) || (y && d <= a)
        }
        ExprOp::Upto | ExprOp::UptoWeakly => x || head[0] != 0,
        ExprOp::Then => false,
        ExprOp::Sampled | ExprOp::SampledWeakly => y || (x && head[0] == 0),
    }
}

/// Rewrites an operator's cells after a step in which its operands ticked or not.
#[inline(always)]
pub fn two_moved(op: ExprOp, head: &mut [u64], t: bool, u: bool)
    requires { length head.old ≡ own_cells op }
    ensures { two_at op head.new ≡ option_map (λ o. two_next o t u) (two_at op head.old) }
{
    match op {
        ExprOp::Inf | ExprOp::Sup => {
            head[0] = bumped(t, count_at(head[0]));
            head[1] = bumped(u, count_at(head[1]));
        }
        ExprOp::Upto | ExprOp::UptoWeakly => head[0] = u64::from(head[0] != 0 || u),
        ExprOp::Sampled => head[0] = u64::from(t || (head[0] != 0 && !u)),
        ExprOp::SampledWeakly => head[0] = u64::from((t || head[0] != 0) && !u),
        ExprOp::Union | ExprOp::Inter | ExprOp::Minus | ExprOp::Then => {}
    }
}

/// Writes an operator's cells at its birth.
pub fn two_born(op: ExprOp, head: &mut [u64])
    requires { length head.old ≡ own_cells op }
    ensures { two_at op head.new ≡ two_opened op }
{
    match op {
        ExprOp::Inf | ExprOp::Sup => {
            head[0] = 0;
            head[1] = 0;
        }
        _ => head[0] = 0,
    }
}
