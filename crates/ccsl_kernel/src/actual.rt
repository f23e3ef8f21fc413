//! What parameters stand for in one call, and so the numbers, words, tests and arguments that name them.
//!
//! The actual parameter number `i` stands at place `i` of a slice. One that is missing, or of another kind, reads as
//! the number 0, and as the first word of the table from its start; in accepted systems there is none such.

ghost use Rattle.std.specs.Prelude.{◌≡◌, ◌&&◌, length, nat_le, slice_get};
ghost use Rattle.ccsl_words.specs.Word.{letter, is_finite, has_ended};
ghost use Rattle.ccsl_kernel.specs.Actuals.{place_of, prim_of, number_of, word_of};
ghost use Rattle.ccsl_kernel.specs.Actuals.{suffix_of, suffix_in, tail_of, value_of, test_of};
ghost use Rattle.ccsl_kernel.specs.Fit.{PlaceFits, SuffixFits, TestFits, ValueFits};
ghost use Rattle.ccsl_kernel.specs.Fit.{ActualFits, ActualsFit};

use crate::expr::{ExprTest, NumPrim, NumSign, NumTerm, Place, Value, WordPlace};
use ccsl_words::Word;

/// A clock, a number, or a word of the system's table with an offset.
#[derive(Clone, Copy)]
pub enum Actual {
    Clock(u32),
    Number(u32),
    Word(u32, u64),
}

/// A word of the table from an offset on.
#[derive(Clone, Copy)]
pub struct Suffix {
    pub word: u32,
    pub offset: u64,
}

impl Place {
    /// The clock, or what the parameter stands for.
    pub fn actual(&self, actuals: &[Actual]) -> Actual
        ensures { result ≡ place_of self.now actuals.now }
    {
        match self {
            Place::Clock(x) => Actual::Clock(*x),
            Place::Param(i) => match actuals.get(*i as usize) {
                Some(actual) => *actual,
                None => Actual::Number(0),
            },
        }
    }
}

impl NumPrim {
    /// The number that it stands for among the values of a group's parameters; 0 where the parameter is none.
    pub fn number(&self, actuals: &[Actual]) -> u32
        ensures { result ≡ prim_of self.now actuals.now }
    {
        match self {
            NumPrim::Num(n) => *n,
            NumPrim::Param(i) => match actuals.get(*i as usize) {
                Some(Actual::Number(n)) => *n,
                _ => 0,
            },
        }
    }
}

impl NumTerm {
    /// The sum, from the left, in which no difference falls below 0 and no sum rises above the greatest number.
    pub fn number(&self, actuals: &[Actual]) -> u32
        ensures { result ≡ number_of self.now actuals.now }
    {
        let mut total = self.first.number(actuals);
        for (sign, prim) in self.rest.members() {
            let n = prim.number(actuals);
            total = match sign {
                NumSign::Plus => total.saturating_add(n),
                NumSign::Minus => total.saturating_sub(n),
            };
        }
        total
    }
}

/// The suffix of a word that parameter number `i` stands for.
fn param_suffix(actuals: &[Actual], i: u32) -> Suffix
    ensures { result ≡ suffix_in (slice_get actuals.now i) }
{
    match actuals.get(i as usize) {
        Some(Actual::Word(w, offset)) => Suffix {
            word: *w,
            offset: *offset,
        },
        _ => Suffix { word: 0, offset: 0 },
    }
}

/// The letter number `k` of a word of the table.
pub fn letter_at(words: &[Word], word: u32, k: u64) -> bool
    ensures { result ≡ letter (word_of words.now word) k }
{
    match words.get(word as usize) {
        Some(word) => word.letter(k),
        None => false,
    }
}

/// Whether a word of the table is finite and has no letter number `k`.
pub fn is_past_end(words: &[Word], word: u32, k: u64) -> bool
    ensures { let w = word_of words.now word in
        result ≡ (is_finite w && nat_le (length w.prefix) k) }
{
    match words.get(word as usize) {
        Some(word) => word.is_finite() && word.len() <= k,
        None => true,
    }
}

impl Suffix {
    /// Whether the offset is the end of a finite word.
    pub fn has_ended(&self, words: &[Word]) -> bool
        ensures { result ≡ has_ended (word_of words.now self.now.word) self.now.offset }
    {
        match words.get(self.word as usize) {
            Some(word) => word.is_finite() && self.offset == word.len(),
            None => self.offset == 0,
        }
    }

    /// The same word at the offset after.
    pub fn tail(&self, words: &[Word]) -> Suffix
        requires { SuffixFits words.now self.now }
        ensures tail { result ≡ tail_of words.now self.now }
        ensures fits { SuffixFits words.now result }
    {
        let offset = match words.get(self.word as usize) {
            Some(word) => {
                prove!(self.offset <= word.len());
                word.rest(self.offset)
            }
            None => 0,
        };
        Suffix {
            word: self.word,
            offset,
        }
    }
}

impl WordPlace {
    /// The word that it stands for, from an offset on.
    pub fn suffix(&self, words: &[Word], actuals: &[Actual]) -> Suffix
        requires place { PlaceFits words.now self.now }
        requires actuals { ActualsFit words.now actuals.now }
        ensures suffix { result ≡ suffix_of words.now self.now actuals.now }
        ensures fits { SuffixFits words.now result }
    {
        match self {
            WordPlace::Word(w, offset) => Suffix {
                word: *w,
                offset: *offset,
            },
            WordPlace::Param(i) => param_suffix(actuals, *i),
            WordPlace::Tail(i) => param_suffix(actuals, *i).tail(words),
        }
    }
}

impl Value {
    /// What an argument stands for among the values of the caller's parameters.
    pub fn actual(&self, words: &[Word], actuals: &[Actual]) -> Actual
        requires value { ValueFits words.now self.now }
        requires actuals { ActualsFit words.now actuals.now }
        ensures actual { result ≡ value_of words.now actuals.now self.now }
        ensures fits { ActualFits words.now result }
    {
        match self {
            Value::Clock(place) => place.actual(actuals),
            Value::Number(term) => Actual::Number(term.number(actuals)),
            Value::Word(place) => {
                let suffix = place.suffix(words, actuals);
                Actual::Word(suffix.word, suffix.offset)
            }
        }
    }
}

impl ExprTest {
    /// Whether the test of an `if` holds for these values, which it does from the birth on or never.
    pub fn holds(&self, words: &[Word], actuals: &[Actual]) -> bool
        requires test { TestFits words.now self.now }
        requires actuals { ActualsFit words.now actuals.now }
        ensures { result ≡ test_of words.now self.now actuals.now }
    {
        match self {
            ExprTest::Equal(t, u) => t.number(actuals) == u.number(actuals),
            ExprTest::Less(t, u) => t.number(actuals) < u.number(actuals),
            ExprTest::Head(place) => {
                let suffix = place.suffix(words, actuals);
                letter_at(words, suffix.word, suffix.offset)
            }
            ExprTest::Ended(place) => place.suffix(words, actuals).has_ended(words),
        }
    }
}
