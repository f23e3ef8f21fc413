//! The laws of words and their texts. Each function does nothing; its contract is the law.

ghost use Rattle.std.specs.Prelude.{◌≡◌, ℕ, ◌+◌, ◌<◌, ◌≤◌, ◌↔◌, List, Result, Ok, Some, false, true, length};
ghost use Rattle.ccsl_words.specs.declared.fault.WordFault.{WordFault};
ghost use Rattle.ccsl_words.specs.Word.{BinaryWord, is_finite, word_len, letter, rest, has_ended};
ghost use Rattle.ccsl_words.specs.Offsets.{offset_at};
ghost use Rattle.ccsl_words.specs.Spelling.{spelling, read_word};
ghost use Rattle.ccsl_words.specs.Reads.{Reads};
ghost use Rattle.ccsl_words.specs.Verdict.{IsVerdict};

use ccsl_base::MAX_LETTERS;

/// Each text reads as a word or has a fault.
pub fn text_has_verdict()
    ensures { (text : List ℕ) → (v : Result BinaryWord WordFault) × IsVerdict text v }
{}

/// A text doesn't read as two words, has no two faults, and reads as none where it has one.
pub fn verdict_is_unique()
    ensures { (text : List ℕ) (v w : Result BinaryWord WordFault) → IsVerdict text v →
        IsVerdict text w → v ≡ w }
{}

/// Two words with one spelling are one.
pub fn spellings_differ()
    ensures { (v w : BinaryWord) → spelling v ≡ spelling w → v ≡ w }
{}

/// The spelling of a word with 1 to [`MAX_LETTERS`] letters reads as that word.
pub fn spelling_reads_back()
    ensures { (w : BinaryWord) → 0 < word_len w → word_len w ≤ MAX_LETTERS →
        read_word (spelling w) ≡ Some w }
{}

/// The word that is computed from a text is the one whose spelling the text is.
pub fn word_is_computed()
    ensures { (text : List ℕ) (w : BinaryWord) → (read_word text ≡ Some w) ↔ Reads text w }
{}

/// From the end of the prefix on, the letters come again after each turn of the period.
pub fn period_repeats()
    ensures { (w : BinaryWord) (k : ℕ) → is_finite w ≡ false → length w.prefix ≤ k →
        letter w (k + length w.period) ≡ letter w k }
{}

/// Past its end a finite word has only zeros.
pub fn finite_word_ends()
    ensures { (w : BinaryWord) (k : ℕ) → is_finite w ≡ true → word_len w ≤ k → letter w k ≡ false }
{}

/// The letters from the next offset on are those behind this one, at every offset.
pub fn rest_goes_on()
    ensures { (w : BinaryWord) (o k : ℕ) → letter w (rest w o + k) ≡ letter w (o + 1 + k) }
{}

/// The offset after n letters stands for place n: the letters from it on are those from n on.
pub fn offset_stands_for_place()
    ensures { (w : BinaryWord) (n k : ℕ) → letter w (offset_at w n + k) ≡ letter w (n + k) }
{}

/// A finite word has ended after n letters where it has no more than n.
pub fn offset_tells_the_end()
    ensures { (w : BinaryWord) (n : ℕ) → is_finite w ≡ true →
        (has_ended w (offset_at w n) ≡ true) ↔ (word_len w ≤ n) }
{}

/// The next offset doesn't pass a finite word's length, nor come to an infinite one's.
pub fn rest_stays_within()
    ensures finite { (w : BinaryWord) (o : ℕ) → is_finite w ≡ true → rest w o ≤ word_len w }
    ensures infinite { (w : BinaryWord) (o : ℕ) → is_finite w ≡ false →
        o < word_len w → rest w o < word_len w }
{}
