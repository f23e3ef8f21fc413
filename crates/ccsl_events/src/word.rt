//! What a token says where a change may stand.

ghost use Rattle.std.specs.Prelude.{◌≡◌, ◌∷◌, true};
ghost use Rattle.std.specs.List.{list_all};
ghost use Rattle.ccsl_vcd.specs.Words.{is_scalar, command_of, change_of, word_of, time_of, number};
ghost use Rattle.ccsl_events.specs.Meant.{meant};

use ccsl_base::{decimal, is_text};

/// A time, a change, a command, or a fault. Letters and codes are those of the token.
#[derive(Clone, Copy)]
pub(crate) enum Word {
    Time(u64),
    Scalar,
    Vector,
    Skipped,
    Comment,
    Block,
    Gap,
    End,
    BadTime,
    BadChange,
    Unknown,
}

#[inline(always)]
pub(crate) fn is_letter(b: u8) -> bool
    ensures { result ≡ is_scalar b }
{
    b == b'0' || b == b'1' || b"01xXzZuUwWlLhH-".contains(&b)
}

// Whether all are letters of the values 0 and 1.
#[inline(always)]
fn are_bits(text: &[u8]) -> bool
    ensures { result ≡ true → list_all is_scalar text.now ≡ true }
{
    let mut others = 0;
    for b in text {
        others |= (*b & 0xfe) ^ b'0';
    }
    others == 0
}

pub(crate) fn are_letters(text: &[u8]) -> bool
    ensures { result ≡ list_all is_scalar text.now }
{
    are_bits(text) || text.iter().all(|b| is_letter(*b))
}

fn command_of(text: &[u8]) -> Word
    ensures { command_of text.now ≡ meant result text.now }
{
    if is_text(text, b"$comment") {
        Word::Comment
    } else if is_text(text, b"$dumpvars")
        || is_text(text, b"$dumpall")
        || is_text(text, b"$dumpon")
    {
        Word::Block
    } else if is_text(text, b"$dumpoff") {
        Word::Gap
    } else if is_text(text, b"$end") {
        Word::End
    } else {
        Word::Unknown
    }
}

fn change_of(first: u8, rest: &[u8]) -> Word
    ensures { change_of first rest.now ≡ meant result (first ∷ rest.now) }
{
    if (first == b'b' || first == b'B') && !rest.is_empty() && are_letters(rest) {
        Word::Vector
    } else if is_letter(first) && !rest.is_empty() {
        Word::Scalar
    } else if (first == b'r' || first == b'R') && !rest.is_empty() {
        Word::Skipped
    } else if first == b's' || first == b'S' {
        Word::Skipped
    } else {
        Word::BadChange
    }
}

#[tactic(auto, unfolding(ccsl_vcd::specs::Words::number))]
fn time_of(digits: &[u8]) -> Word
    ensures { time_of (number 18446744073709551615 digits.now) ≡ meant result digits.now }
{
    match decimal(digits, u64::MAX) {
        Some(time) => Word::Time(time),
        None => Word::BadTime,
    }
}

/// The word of a token.
#[tactic(auto, unfolding(ccsl_vcd::specs::Words::word_of))]
pub(crate) fn word_of(text: &[u8]) -> Word
    ensures { word_of text.now ≡ meant result text.now }
{
    match text {
        [] => Word::BadChange,
        [b'#', digits @ ..] => time_of(digits),
        [b'$', ..] => command_of(text),
        [first, rest @ ..] => change_of(*first, rest),
    }
}
