//! The parts of a word, and its ones.

ghost use Rattle.std.specs.Prelude.{◌≡◌, ◌+◌, ◌<◌, ◌≤◌, false, length};
ghost use Rattle.ccsl_words.specs.Word.{is_finite};
ghost use Rattle.ccsl_periodic.specs.Ones.{ones, period_ones};

use crate::text::prefix_len;
use ccsl_base::MAX_LETTERS;
use ccsl_words::Word;

/// The letters of the period.
pub fn period_len(word: &Word) -> u64
    ensures period { result ≡ length word.now.period }
    ensures few { length word.now.prefix + result ≤ MAX_LETTERS }
{
    word.len() - prefix_len(word)
}

/// The ones among the first `end` letters.
pub fn ones(word: &Word, end: u64) -> u64
    ensures ones { result ≡ ones word.now end }
    ensures few { result ≤ end }
{
    let mut count = 0;
    for k in 0..end {
        if word.letter(k) {
            count += 1;
        }
    }
    count
}

/// The ones of the period.
pub fn period_ones(word: &Word) -> u64
    ensures ones { result ≡ period_ones word.now }
    ensures few { result ≤ length word.now.period }
{
    ones(word, word.len()) - ones(word, prefix_len(word))
}
