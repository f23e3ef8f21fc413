//! The members of a set of clocks, one after the other.

ghost use Rattle.std.specs.Prelude.{◌≡◌, ◌<◌, ◌≤◌, ℕ, true, false, length};
ghost use Rattle.std.specs.Iterator.{YieldsFirst, item_count};
ghost use Rattle.ccsl_base.specs.Bits.{members_of, is_set};

use std::marker::Model;

/// An iterator over the members of a set of clocks, in ascending order. Contracts see the members that are left.
#[derive(Drop)]
pub struct Members<'a> {
    // what is left of the word that is walked
    word: u64,
    // the number of that word's first bit
    first: u32,
    // the words behind it
    words: &'a [u64],
}

impl<'a> Model for Members<'a> {
    ghost use Rattle.std.specs.Prelude.{◌≤◌, ◌+◌, ◌*◌, suc, List, ℕ, length};
    ghost use Rattle.ccsl_base.specs.Bits.{members_left};

    ghost Value = { List ℕ };

    ghost view = { λ m. members_left m.word m.first m.words.now };

    ghost invariant = { λ m. m.first + 64 * suc (length m.words.now) ≤ 1024 };
}

impl<'a> Members<'a> {
    /// Those of words.
    #[inline(always)]
    pub(crate) fn new(words: &'a [u64]) -> Members<'a>
        requires { length words.now ≤ 16 }
        ensures { result ≡ members_of words.now }
    {
        match words.split_first() {
            Some((word, others)) => Members {
                word: *word,
                first: 0,
                words: others,
            },
            None => Members {
                word: 0,
                first: 0,
                words,
            },
        }
    }
}

/// The place of the lowest bit that is set.
#[inline(always)]
fn lowest(word: u64) -> u32
    requires { 0 < word }
    ensures inside { result < u64.BITS }
    ensures here { is_set word result ≡ true }
    ensures below { (i : ℕ) → i < result → is_set word i ≡ false }
{
    word.trailing_zeros()
}

impl<'a> Iterator for Members<'a> {
    type Item = u32;

    ghost next_gives = { YieldsFirst (λ m. m) };

    ghost remaining = { item_count (λ m. m) };

    #[inline]
    fn next(&mut self) -> Option<u32> {
        'words: while self.word == 0 {
            let (word, others) = self.words.split_first()?;
            self.word = *word;
            self.first += u64::BITS;
            self.words = others;
        }
        let place = lowest(self.word);
        self.word &= !(1 << place);
        Some(self.first + place)
    }
}
