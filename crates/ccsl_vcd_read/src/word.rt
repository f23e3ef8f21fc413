//! What a token says where a change may stand.

ghost use Rattle.std.specs.Prelude.{◌≡◌, []};
ghost use Rattle.std.specs.List.{list_all};
ghost use Rattle.ccsl_vcd.specs.Words.{is_scalar, last_of, command_of, change_of, word_of, time_of, number};
ghost use Rattle.ccsl_vcd_read.specs.Meant.{meant, rest_of};

use crate::number::number;
use crate::scan::are_bits;
use ccsl_base::is_text;

/// A time, a change, a command, or a fault. A scalar's code is the rest of its token.
#[derive(Clone, Copy)]
pub enum Word {
    Time(u64),
    Scalar(bool),
    Vector(bool),
    Skipped,
    Comment,
    Dump,
    Gap,
    Close,
    BadTime,
    BadChange,
    Unknown,
}

#[inline(always)]
fn is_scalar(b: u8) -> bool
    ensures { result ≡ is_scalar b }
{
    b == b'0' || b == b'1' || b"01xXzZuUwWlLhH-".contains(&b)
}

#[inline(always)]
fn all_scalar(text: &[u8]) -> bool
    ensures { result ≡ list_all is_scalar text.now }
{
    are_bits(text) || text.iter().all(|b| is_scalar(*b))
}

fn command_of(text: &[u8]) -> Word
    ensures { command_of text.now ≡ meant result [] }
{
    if is_text(text, b"$comment") {
        Word::Comment
    } else if is_text(text, b"$dumpvars")
        || is_text(text, b"$dumpall")
        || is_text(text, b"$dumpon")
    {
        Word::Dump
    } else if is_text(text, b"$dumpoff") {
        Word::Gap
    } else if is_text(text, b"$end") {
        Word::Close
    } else {
        Word::Unknown
    }
}

#[inline(always)]
pub(crate) fn last_of(first: u8, rest: &[u8]) -> u8
    ensures { result ≡ last_of first rest.now }
{
    match rest {
        [.., last] => *last,
        [] => first,
    }
}

#[inline(always)]
fn change_of(first: u8, rest: &[u8]) -> Word
    ensures { change_of first rest.now ≡ meant result rest.now }
{
    if (first == b'b' || first == b'B') && !rest.is_empty() && all_scalar(rest) {
        Word::Vector(last_of(first, rest) == b'1')
    } else if is_scalar(first) && !rest.is_empty() {
        Word::Scalar(first == b'1')
    } else if (first == b'r' || first == b'R') && !rest.is_empty() {
        Word::Skipped
    } else if first == b's' || first == b'S' {
        Word::Skipped
    } else {
        Word::BadChange
    }
}

#[inline(always)]
fn time_of(digits: &[u8]) -> Word
    ensures { time_of (number 18446744073709551615 digits.now) ≡ meant result [] }
{
    match number(u64::MAX, digits) {
        Some(time) => Word::Time(time),
        None => Word::BadTime,
    }
}

// The word of a token.
#[inline(always)]
#[tactic(auto, unfolding(ccsl_vcd::specs::Words::word_of))]
pub(crate) fn word_of(text: &[u8]) -> Word
    ensures { word_of text.now ≡ meant result (rest_of text.now) }
{
    match text {
        [] => Word::BadChange,
        [b'#', digits @ ..] => time_of(digits),
        [b'$', ..] => command_of(text),
        [first, rest @ ..] => change_of(*first, rest),
    }
}
