//! A filter of a filter.

ghost use Rattle.std.specs.Prelude.{◌≡◌, ◌+◌, ◌*◌, ◌<◌, ◌≤◌, length, false, map, IfOk, IfErr};
ghost use Rattle.std.specs.List.{range_with_len};
ghost use Rattle.ccsl_words.specs.Word.{is_finite, word_len};
ghost use Rattle.ccsl_periodic.specs.Ones.{ones, period_ones};
ghost use Rattle.ccsl_periodic.specs.Filtered.{on_letter, IsOn, IsBehindBoth, IsPlainShape, IsPlainLength};
ghost use Rattle.ccsl_periodic.specs.Causes.{IsCauseOf};
ghost use Rattle.ccsl_periodic.specs.Filters.{FiltersCompose};

use crate::divisor::greatest_divisor;
use crate::letters::{ones, period_len, period_ones};
use crate::text::{prefix_len, word_of};
use ccsl_base::{MAX_LETTERS, Memory};
use ccsl_words::Word;
use std::alloc::Global;
use thiserror::Error;

/// Why a filter of a filter has no word.
#[derive(Clone, Copy, Debug, Error)]
pub enum OnFault {
    /// Its prefix and period, read off the two words, have so many letters, more than 4,096.
    #[error("{0} letters, at most 4,096")]
    TooLong(u64),
    /// No memory was to be had.
    #[error("out of memory")]
    Memory,
}

/// The word that filters as `left` and then `right` do. Prefix and period are as they come, without a search for
/// shorter ones.
pub fn on(alloc: Global, left: &Word, right: &Word) -> Result<Word, OnFault>
    requires left_infinite { is_finite left.now ≡ false }
    requires right_infinite { is_finite right.now ≡ false }
    ensures word { IfOk result (IsOn left.now right.now) }
    ensures plain { IfOk result (λ w. IsPlainLength left.now right.now (word_len w)) }
    ensures cause { IfErr result (IsCauseOf left.now right.now) }
    ensures composes { IfOk result (FiltersCompose left.now right.now) }
{
    let shape = plain_shape(left, right);
    let len = shape.prefix + shape.period;
    if len > MAX_LETTERS as u64 {
        return Err(OnFault::TooLong(len));
    }
    match plain_word(alloc, left, right, &shape) {
        Ok(word) => Ok(word),
        Err(Memory) => Err(OnFault::Memory),
    }
}

/// The word with so many letters of `left` on `right` as its prefix and so many as its period.
fn plain_word(alloc: Global, left: &Word, right: &Word, shape: &Shape) -> Result<Word, Memory>
    requires left_infinite { is_finite left.now ≡ false }
    requires right_infinite { is_finite right.now ≡ false }
    requires shape { IsPlainShape left.now right.now shape.now.prefix shape.now.period }
    requires some { 0 < shape.now.period }
    requires few { shape.now.prefix + shape.now.period ≤ MAX_LETTERS }
    ensures word { IfOk result (IsOn left.now right.now) }
    ensures len { IfOk result (λ w. word_len w ≡ shape.now.prefix + shape.now.period) }
{
    let letters = on_letters(alloc, left, right, shape.prefix + shape.period)?;
    word_of(alloc, letters.as_slice(), shape.prefix as usize)
}

/// The letters of a prefix and of a period.
#[derive(Drop)]
struct Shape {
    prefix: u64,
    period: u64,
}

fn plain_shape(left: &Word, right: &Word) -> Shape
    requires left_infinite { is_finite left.now ≡ false }
    requires right_infinite { is_finite right.now ≡ false }
    ensures shape { IsPlainShape left.now right.now result.prefix result.period }
    ensures some { 0 < result.period }
    ensures prefix_small { result.prefix ≤ MAX_LETTERS * MAX_LETTERS }
    ensures period_small { result.period ≤ MAX_LETTERS * MAX_LETTERS }
{
    let ones = period_ones(left);
    if ones == 0 {
        return Shape {
            prefix: prefix_len(left),
            period: period_len(left),
        };
    }
    let turns = period_len(right) / greatest_divisor(period_len(right), ones);
    Shape {
        prefix: behind_both(left, right),
        period: period_len(left) * turns,
    }
}

/// The first place behind the prefix of `left` where it has had a one for each letter of the prefix of `right`.
fn behind_both(left: &Word, right: &Word) -> u64
    requires infinite { is_finite left.now ≡ false }
    requires some { 0 < period_ones left.now }
    ensures place { IsBehindBoth left.now right.now result }
    ensures small { result ≤ MAX_LETTERS * MAX_LETTERS }
{
    let wanted = prefix_len(right);
    let start = prefix_len(left);
    let end = start + wanted * period_len(left);
    let mut count = ones(left, start);
    for k in start..end {
        if count >= wanted {
            return k;
        }
        count += u64::from(left.letter(k));
    }
    end
}

/// The first letters of `left` on `right`.
fn on_letters(alloc: Global, left: &Word, right: &Word, count: u64) -> Result<Vec<bool>, Memory>
    ensures { IfOk result
        (λ v. v.items ≡ map (on_letter left.now right.now) (range_with_len 0 count)) }
{
    let mut letters = Vec::new(alloc);
    let mut left_ones = 0;
    for k in 0..count {
        let left_ticks = left.letter(k);
        letters.push(left_ticks && right.letter(left_ones))?;
        left_ones += u64::from(left_ticks);
    }
    Ok(letters)
}
