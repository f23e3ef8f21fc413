//! Words as texts.

ghost use Rattle.std.specs.Prelude.{◌≡◌, ◌+◌, ◌-◌, ◌<◌, ◌≤◌, ◌++◌, length, take, drop, map, IfOk, OnOk};
ghost use Rattle.std.specs.List.{range_with_len};
ghost use Rattle.ccsl_words.specs.Word.{letter, word_len};
ghost use Rattle.ccsl_words.specs.Spelling.{digits, spelling};

use ccsl_base::{MAX_LETTERS, Memory};
use ccsl_words::Word;
use std::alloc::Global;

/// The letters of the prefix, which for a finite word are all. Takes no memory.
pub fn prefix_len(word: &Word) -> u64
    ensures prefix { result ≡ length word.now.prefix }
    ensures within { result ≤ word_len word.now }
    ensures few { result ≤ MAX_LETTERS }
{
    if word.is_finite() {
        word.len()
    } else {
        word.rest(word.len() - 1)
    }
}

/// The text of a word, as 01(10).
pub fn write(alloc: Global, word: &Word) -> Result<Vec<u8>, Memory>
    ensures { IfOk result (λ text. text.items ≡ spelling word.now) }
{
    let letters = first_letters(alloc, word, word.len())?;
    spell(alloc, letters.as_slice(), prefix_len(word) as usize)
}

/// The first letters of a word.
pub(crate) fn first_letters(alloc: Global, word: &Word, count: u64) -> Result<Vec<bool>, Memory>
    ensures { IfOk result (λ v. v.items ≡ map (letter word.now) (range_with_len 0 count)) }
{
    let mut letters = Vec::new(alloc);
    for k in 0..count {
        letters.push(word.letter(k))?;
    }
    Ok(letters)
}

/// The word with these letters, of which so many are the prefix.
pub(crate) fn word_of(alloc: Global, letters: &[bool], prefix: usize) -> Result<Word, Memory>
    requires prefix { prefix ≤ length letters.now }
    requires some { 0 < length letters.now }
    requires few { length letters.now ≤ MAX_LETTERS }
    ensures { IfOk result
        (λ w. w ≡ record { prefix = take prefix letters.now; period = drop prefix letters.now }) }
{
    let text = spell(alloc, letters, prefix)?;
    match Word::read(alloc, text.as_slice()) {
        Ok(word) => Ok(word),
        // a text that is spelled has no other fault
        Err(_) => Err(Memory),
    }
}

/// The text of that word.
fn spell(alloc: Global, letters: &[bool], prefix: usize) -> Result<Vec<u8>, Memory>
    requires { prefix ≤ length letters.now }
    ensures { IfOk result (λ text.
        text.items ≡ spelling
        (record { prefix = take prefix letters.now; period = drop prefix letters.now })) }
{
    let mut text = Vec::new(alloc);
    push_digits(&mut text, &letters[..prefix])?;
    if prefix < letters.len() {
        text.push(b'(')?;
        push_digits(&mut text, &letters[prefix..])?;
        text.push(b')')?;
    }
    Ok(text)
}

/// Appends the digits of letters.
fn push_digits(text: &mut Vec<u8>, letters: &[bool]) -> Result<(), Memory>
    ensures { OnOk result (text.new.items ≡ text.old.items ++ digits letters.now) }
{
    for letter in letters {
        text.push(if *letter { b'1' } else { b'0' })?;
    }
    Ok(())
}
