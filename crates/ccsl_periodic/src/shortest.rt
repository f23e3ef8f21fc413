//! The canonical spelling of a word.

ghost use Rattle.std.specs.Prelude.{◌≡◌, ◌+◌, ◌<◌, ◌≤◌, ◌↔◌, ℕ, IsTrue, false, length, IfOk};
ghost use Rattle.ccsl_words.specs.Word.{is_finite, letter};
ghost use Rattle.ccsl_periodic.specs.Canonical.{IsCanonical};
ghost use Rattle.ccsl_periodic.specs.Repeats.{RepeatsFrom};

use crate::letters::period_len;
use crate::text::{first_letters, prefix_len, word_of};
use ccsl_base::{MAX_LETTERS, Memory};
use ccsl_words::Word;
use std::alloc::Global;

/// The word with the shortest period, and then the shortest prefix, that has the same letters.
pub fn canonical(alloc: Global, word: &Word) -> Result<Word, Memory>
    requires { is_finite word.now ≡ false }
    ensures { IfOk result (λ c. IsCanonical c word.now) }
{
    let period = shortest_period(word);
    let prefix = shortest_prefix(word, period);
    let letters = first_letters(alloc, word, prefix + period)?;
    word_of(alloc, letters.as_slice(), prefix as usize)
}

/// The least number of letters after which the letters behind the prefix come again.
fn shortest_period(word: &Word) -> u64
    requires { is_finite word.now ≡ false }
    ensures some { 0 < result }
    ensures few { length word.now.prefix + result ≤ MAX_LETTERS }
    ensures repeats { RepeatsFrom word.now (length word.now.prefix) result }
    ensures least { (n : ℕ) → 0 < n → RepeatsFrom word.now (length word.now.prefix) n → result ≤ n }
{
    let len = period_len(word);
    for period in 1..len {
        if repeats(word, period) {
            return period;
        }
    }
    len
}

/// Whether the letters behind the prefix come again after so many.
fn repeats(word: &Word, period: u64) -> bool
    requires infinite { is_finite word.now ≡ false }
    requires few { length word.now.prefix + period ≤ MAX_LETTERS }
    ensures { IsTrue result ↔ RepeatsFrom word.now (length word.now.prefix) period }
{
    for k in prefix_len(word)..word.len() {
        if word.letter(k + period) != word.letter(k) {
            return false;
        }
    }
    true
}

/// The first place from which on the letters come again after so many, where they do so behind the prefix.
fn shortest_prefix(word: &Word, period: u64) -> u64
    requires repeats { RepeatsFrom word.now (length word.now.prefix) period }
    requires few { length word.now.prefix + period ≤ MAX_LETTERS }
    ensures within { result ≤ length word.now.prefix }
    ensures repeats { RepeatsFrom word.now result period }
    ensures least { (n : ℕ) → RepeatsFrom word.now n period → result ≤ n }
{
    let mut place = prefix_len(word);
    while place > 0 {
        if word.letter(place - 1 + period) != word.letter(place - 1) {
            return place;
        }
        place -= 1;
    }
    0
}
