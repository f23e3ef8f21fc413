//! What stands by number in a system.

ghost use Rattle.std.specs.Prelude.{◌≡◌, bytes_eq, IfOk};
ghost use Rattle.std.specs.List.{position_or_len};
ghost use Rattle.ccsl_words.specs.Word.{rest};
ghost use Rattle.ccsl_kernel.specs.Actuals.{word_of};

use ccsl_base::{Memory, Names};
use ccsl_spaces::{Callee, Space};
use ccsl_words::Word;

/// The names of the system's clocks, its words, and what is called.
#[derive(Clone, Copy)]
pub struct Tables<'b, 'a> {
    pub names: &'b Names,
    pub words: &'b [Word],
    pub calls: &'b Space<'a, Callee<'a>>,
}

/// The number of a clock, by its whole name; that of the clock after the last for a name that is not there.
pub fn clock_number(names: &Names, whole: &[u8]) -> u32
    ensures { result ≡ position_or_len (λ x. bytes_eq x whole.now) names.now }
{
    match names.find(whole) {
        Some(number) => number,
        None => names.len(),
    }
}

/// The offset after an offset of a word of the table.
pub fn next_offset(words: &[Word], word: u32, offset: u64) -> Result<u64, Memory>
    ensures { IfOk result (λ next. next ≡ rest (word_of words.now word) offset) }
{
    if offset == u64::MAX {
        return Err(Memory);
    }
    match words.get(word as usize) {
        Some(word) => Ok(word.rest(offset)),
        None => Ok(0),
    }
}
