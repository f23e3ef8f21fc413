//! The names of the text language.

ghost use Rattle.std.specs.Prelude.{◌≡◌};
ghost use Rattle.std.specs.List.{list_all};
ghost use Rattle.ccsl_base.specs.Name.{is_word, is_name};
ghost use Rattle.ccsl_base.specs.Letters.{is_letter, is_digit, is_inner};
ghost use Rattle.ccsl_base.specs.Quoted.{is_quotable};
ghost use Rattle.ccsl_base.specs.KeptWords.{is_reserved};

use crate::{MAX_NAME_BYTES, Reserved};

/// Whether a name may begin with a byte.
pub fn is_letter(b: u8) -> bool
    ensures { result ≡ is_letter b }
{
    matches!(b, b'A'..=b'Z' | b'a'..=b'z' | b'_')
}

/// Whether a byte is a decimal digit, `0` to `9`.
pub fn is_digit(b: u8) -> bool
    ensures { result ≡ is_digit b }
{
    matches!(b, b'0'..=b'9')
}

/// Whether a byte may stand behind a name's first letter.
pub fn is_inner(b: u8) -> bool
    ensures { result ≡ is_inner b }
{
    is_letter(b) || is_digit(b)
}

/// Whether a byte may stand between quotes.
pub fn is_quotable(b: u8) -> bool
    ensures { result ≡ is_quotable b }
{
    matches!(b, 32..=126) && b != b'"'
}

/// Whether a text is a word that the language keeps for itself.
pub fn is_reserved(text: &[u8]) -> bool
    ensures { result ≡ is_reserved text.now }
{
    Reserved::spelled(text).is_some()
}

fn are_inner(text: &[u8]) -> bool
    ensures { result ≡ list_all is_inner text.now }
{
    text.iter().all(|b| is_inner(*b))
}

/// Whether a text is a letter and what may stand behind it, of any length.
pub fn is_word(text: &[u8]) -> bool
    ensures { result ≡ is_word text.now }
{
    match text.split_first() {
        Some((first, rest)) => is_letter(*first) && are_inner(rest),
        None => false,
    }
}

/// Whether a text is a name: a word of at most [`MAX_NAME_BYTES`] that is not reserved.
pub fn is_name(text: &[u8]) -> bool
    ensures { result ≡ is_name text.now }
{
    is_word(text) && text.len() <= MAX_NAME_BYTES && !is_reserved(text)
}
