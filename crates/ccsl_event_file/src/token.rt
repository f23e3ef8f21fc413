//! The tokens of a file of events.

ghost use Rattle.std.specs.Prelude.{◌≡◌, ◌<◌, ◌≤◌, ◌==◌, ◌||◌, not, false, take, drop, Some, position, IfSome, length};
ghost use Rattle.ccsl_event_file.specs.Tokens.{is_white, is_word_byte, is_letter, up_to, begins_with, begins_remark, quoted_piece, letters_piece, piece_at};
ghost use Rattle.ccsl_event_file.specs.Fronts.{seen, IsFront, IsBehindBlank};

use ccsl_base::is_inner;

/// What stands at the front of some text.
#[derive(Clone, Copy)]
pub(crate) enum Token<'a> {
    /// letters, digits, `_` and `$`
    Word(&'a [u8]),
    /// what stands between quotes
    Quoted(&'a [u8]),
    /// the letters behind `'b`
    Letters(&'a [u8]),
    /// `==`
    Equal,
    /// `!=`
    Unequal,
    /// any other byte
    Mark(u8),
    End,
}

fn is_white(b: u8) -> bool
    ensures { result ≡ is_white b }
{
    matches!(b, b' ' | 9..=13)
}

fn is_word_byte(b: u8) -> bool
    ensures { result ≡ is_word_byte b }
{
    is_inner(b) || b == b'$'
}

fn is_letter_of_value(b: u8) -> bool
    ensures { result ≡ is_letter b }
{
    b"01xXzZuUwWlLhH-".contains(&b)
}

//// So many bytes at the front of a text, and those behind them.
pub(crate) fn cut(text: &[u8], size: usize) -> (&[u8], &[u8])
    ensures front { result.0.now ≡ take size text.now }
    ensures behind { result.1.now ≡ drop size text.now }
{
    text.split_at(size.min(text.len()))
}

fn begins_with(c: u8, text: &[u8]) -> bool
    ensures { result ≡ begins_with c text.now }
{
    match text.first() {
        Some(b) => *b == c,
        None => false,
    }
}

fn begins_remark(first: u8, tail: &[u8]) -> bool
    ensures { result ≡ begins_remark first tail.now }
{
    first == b'/' && begins_with(b'/', tail)
}

/// The text behind the white space and the remarks at its front.
pub(crate) fn skip_blank(text: &[u8]) -> &[u8]
    ensures { IsBehindBlank text.now result.now }
{
    let mut rest = text;
    let mut is_remark = false;
    'blank: while !rest.is_empty() {
        let first = rest[0];
        let tail = cut(rest, 1).1;
        if is_remark {
            is_remark = first != b'\n';
        } else if begins_remark(first, tail) {
            is_remark = true;
        } else if !is_white(first) {
            return rest;
        }
        rest = tail;
    }
    rest
}

fn end_of_word(text: &[u8]) -> Option<usize>
    ensures value { result ≡ position (λ b. not (is_word_byte b)) text.now }
    ensures within { IfSome result (λ n. n < length text.now) }
{
    text.iter().position(|b| !is_word_byte(*b))
}

fn end_of_letters(text: &[u8]) -> Option<usize>
    ensures { result ≡ position (λ b. not (is_letter b)) text.now }
{
    text.iter().position(|b| !is_letter_of_value(*b))
}

// The place of a quote, or of the end of its line.
fn end_of_quoted(text: &[u8]) -> Option<usize>
    ensures { result ≡ position (λ b. b == 34 || b == 10) text.now }
{
    text.iter().position(|b| *b == b'"' || *b == b'\n')
}

// What a quote begins, by the text behind it.
fn quoted(text: &[u8]) -> (Token<'_>, &[u8])
    ensures token { seen result.0 ≡ Some (quoted_piece text.now).token }
    ensures behind { result.1.now ≡ drop (quoted_piece text.now).more text.now }
{
    let end = end_of_quoted(text).unwrap_or(text.len());
    if end < text.len() && text[end] == b'"' {
        return (Token::Quoted(&text[..end]), &text[end + 1..]);
    }
    (Token::Mark(b'"'), text)
}

// What `'b` begins, by the text behind it.
fn letters(text: &[u8]) -> (Token<'_>, &[u8])
    ensures token { seen result.0 ≡ Some (letters_piece text.now).token }
    ensures behind { result.1.now ≡ drop (up_to (λ b. not (is_letter b)) text.now) text.now }
{
    let (letters, behind) = cut(text, end_of_letters(text).unwrap_or(text.len()));
    (Token::Letters(letters), behind)
}

// What a byte begins that is of no word, by the text behind it.
#[tactic(auto, unfolding(crate::specs::Tokens::piece_at))]
fn sign(first: u8, rest: &[u8]) -> (Token<'_>, &[u8])
    requires { is_word_byte first ≡ false }
    ensures token { seen result.0 ≡ Some (piece_at first rest.now).token }
    ensures behind { result.1.now ≡ drop (piece_at first rest.now).more rest.now }
{
    if first == b'"' {
        return quoted(rest);
    }
    if first == b'\'' && begins_with(b'b', rest) {
        return letters(cut(rest, 1).1);
    }
    if begins_with(b'=', rest) && first == b'=' {
        return (Token::Equal, cut(rest, 1).1);
    }
    if begins_with(b'=', rest) && first == b'!' {
        return (Token::Unequal, cut(rest, 1).1);
    }
    (Token::Mark(first), rest)
}

/// The token at the front of some text, and the text behind it.
pub(crate) fn token_at_front(text: &[u8]) -> (Token<'_>, &[u8])
    ensures front { IsFront text.now result.0 result.1.now }
    ensures within { length result.1.now ≤ length text.now }
{
    if text.is_empty() {
        return (Token::End, text);
    }
    let first = text[0];
    let rest = cut(text, 1).1;
    if !is_word_byte(first) {
        return sign(first, rest);
    }
    let more = end_of_word(rest).unwrap_or(rest.len());
    (Token::Word(cut(text, more + 1).0), cut(rest, more).1)
}
