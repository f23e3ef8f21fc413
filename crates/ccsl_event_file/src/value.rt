//! Values.

ghost use Rattle.std.specs.Prelude.{◌≡◌, ◌≤◌, [], ◌∷◌, IfOk, OnOk, option_map};
ghost use Rattle.ccsl_event_file.specs.Values.{bit, bits, or_zero, has_base, lower, of_digits, of_hex, of_decimal, of_word, of_letters};
ghost use Rattle.ccsl_event_file.specs.Letters.{hex_digit, extended};

use crate::token::cut;
use ccsl_base::{Memory, decimal, is_digit};
use std::alloc::Global;

fn hex_digit(b: u8) -> Option<u8>
    ensures { result ≡ hex_digit b }
{
    if is_digit(b) {
        Some(b - b'0')
    } else if b >= b'a' && b <= b'f' {
        Some(b - b'a' + 10)
    } else if b >= b'A' && b <= b'F' {
        Some(b - b'A' + 10)
    } else {
        None
    }
}

// The letter of a number's last bit, unless it is a zero at the front.
fn put_bit(number: u64, letters: &mut Vec<u8>) -> Result<(), Memory>
    ensures { OnOk result (letters.new.items ≡ extended letters.old.items (bit number ∷ [])) }
{
    if number % 2 == 1 {
        letters.push(b'1')?;
    } else if !letters.is_empty() {
        letters.push(b'0')?;
    }
    Ok(())
}

// The letters of so many bits of a number.
fn put_bits(count: u32, number: u64, letters: &mut Vec<u8>) -> Result<(), Memory>
    requires { count ≤ 64 }
    ensures { OnOk result (letters.new.items ≡ extended letters.old.items (bits count number)) }
{
    for i in 0..count {
        put_bit(number >> (count - 1 - i), letters)?;
    }
    Ok(())
}

// A number has at least one letter.
fn or_zero(mut letters: Vec<u8>) -> Result<Vec<u8>, Memory>
    ensures { IfOk result (λ v. v.items ≡ or_zero letters.items) }
{
    if letters.is_empty() {
        letters.push(b'0')?;
    }
    Ok(letters)
}

fn of_hex(alloc: Global, digits: &[u8]) -> Result<Option<Vec<u8>>, Memory>
    ensures { IfOk result (λ v. option_map (λ letters. letters.items) v ≡ of_hex digits.now) }
{
    let mut letters = Vec::new(alloc);
    for digit in digits {
        let Some(value) = hex_digit(*digit) else {
            return Ok(None);
        };
        put_bits(4, value as u64, &mut letters)?;
    }
    Ok(Some(or_zero(letters)?))
}

fn of_decimal(alloc: Global, digits: &[u8]) -> Result<Option<Vec<u8>>, Memory>
    ensures { IfOk result (λ v. option_map (λ letters. letters.items) v ≡ of_decimal digits.now) }
{
    let Some(value) = decimal(digits, u64::MAX) else {
        return Ok(None);
    };
    let mut letters = Vec::new(alloc);
    put_bits(64, value, &mut letters)?;
    Ok(Some(or_zero(letters)?))
}

fn has_base(word: &[u8]) -> bool
    ensures { result ≡ has_base word.now }
{
    word.len() >= 2 && (word[0] == b'0' && word[1] == b'x')
}

/// The letters of a number, without zeros at its front: a decimal one, or one of base 16 behind `0x`. `None` where the
/// word is no number below 2^64, or none of base 16.
pub(crate) fn of_word(alloc: Global, word: &[u8]) -> Result<Option<Vec<u8>>, Memory>
    ensures { IfOk result (λ v. option_map (λ letters. letters.items) v ≡ of_word word.now) }
{
    if !has_base(word) {
        return of_decimal(alloc, word);
    }
    let digits = cut(word, 2).1;
    if digits.is_empty() {
        return Ok(None);
    }
    of_hex(alloc, digits)
}

/// The same letters, in lower case. There is one at least.
pub(crate) fn of_letters(alloc: Global, text: &[u8]) -> Result<Option<Vec<u8>>, Memory>
    ensures { IfOk result (λ v. option_map (λ letters. letters.items) v ≡ of_letters text.now) }
{
    if text.is_empty() {
        return Ok(None);
    }
    let mut letters = Vec::new(alloc);
    for b in text {
        letters.push(*b | 32)?;
    }
    Ok(Some(letters))
}
