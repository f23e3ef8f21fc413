//! The piece in front of a text: a token, a comment or a byte of white space.

ghost use Rattle.std.specs.Prelude.{◌≡◌, ◌<◌, ◌∷◌, true, length, IfOk, IfErr};
ghost use Rattle.ccsl_base.specs.Letters.{is_digit, is_letter};
ghost use Rattle.ccsl_lex.specs.Tokens.{starts};
ghost use Rattle.ccsl_lex.specs.Found.{Found, BeginsFault};

use crate::byte::{is_mark, is_white};
use crate::fault::LexFault;
use crate::run::Run;
use crate::token::TokenKind;
use ccsl_base::{MAX_NAME_BYTES, MAX_NUMBER, Reserved, Text, decimal, is_digit, is_letter};
use std::alloc::Global;

/// How many bytes a piece has, and which token it is, if it is one.
#[derive(Drop)]
pub struct Piece {
    pub len: usize,
    pub kind: Option<TokenKind>,
}

/// The name or reserved word in front.
fn name_piece(alloc: Global, at: usize, text: &[u8]) -> Result<Piece, LexFault>
    requires { starts is_letter text.now ≡ true }
    ensures found { IfOk result (λ piece. Found text.now piece.len piece.kind) }
    ensures fault { IfErr result (λ e. BeginsFault e at text.now) }
{
    let len = Run::Inner.len(text);
    if len > MAX_NAME_BYTES {
        return Err(LexFault::NameTooLong(at));
    }
    let name = &text[..len];
    match Reserved::spelled(name) {
        Some(word) => Ok(Piece {
            len,
            kind: Some(TokenKind::Word(word)),
        }),
        None => {
            let bytes = Vec::from_slice(alloc, name)?;
            Ok(Piece {
                len,
                kind: Some(TokenKind::Name(Text::new(bytes))),
            })
        }
    }
}

/// The number in front.
fn number_piece(at: usize, text: &[u8]) -> Result<Piece, LexFault>
    requires { starts is_digit text.now ≡ true }
    ensures found { IfOk result (λ piece. Found text.now piece.len piece.kind) }
    ensures fault { IfErr result (λ e. BeginsFault e at text.now) }
{
    let len = Run::Digits.len(text);
    match decimal(&text[..len], u64::from(MAX_NUMBER)) {
        Some(value) => Ok(Piece {
            len,
            kind: Some(TokenKind::Num(value as u32)),
        }),
        None => Err(LexFault::NumberTooLarge(at)),
    }
}

/// The quoted text in front, of which `rest` stands behind the opening quote.
fn quoted_piece(alloc: Global, at: usize, rest: &[u8]) -> Result<Piece, LexFault>
    ensures found { IfOk result (λ piece. Found (34 ∷ rest.now) piece.len piece.kind) }
    ensures fault { IfErr result (λ e. BeginsFault e at (34 ∷ rest.now)) }
{
    let len = Run::Quotable.len(rest);
    if len < rest.len() && rest[len] == b'"' {
        let bytes = Vec::from_slice(alloc, &rest[..len])?;
        Ok(Piece {
            len: len + 2,
            kind: Some(TokenKind::Quoted(Text::new(bytes))),
        })
    } else {
        Err(LexFault::OpenText(at))
    }
}

/// The comment in front, of which `rest` stands behind the two slashes.
fn comment_piece(rest: &[u8]) -> Piece
    ensures { Found (47 ∷ 47 ∷ rest.now) result.len result.kind }
{
    Piece {
        len: Run::Remark.len(rest) + 2,
        kind: None,
    }
}

/// The piece in front of the text, which begins at byte `at` of the whole, or the fault that it begins with.
pub fn piece_at(alloc: Global, at: usize, text: &[u8]) -> Result<Piece, LexFault>
    requires { 0 < length text.now }
    ensures found { IfOk result (λ piece. Found text.now piece.len piece.kind) }
    ensures fault { IfErr result (λ e. BeginsFault e at text.now) }
{
    match text {
        [b, ..] if is_white(*b) => Ok(Piece { len: 1, kind: None }),
        [b, ..] if is_mark(*b) => Ok(Piece {
            len: 1,
            kind: Some(TokenKind::Symbol(*b)),
        }),
        [b, ..] if is_letter(*b) => name_piece(alloc, at, text),
        [b, ..] if is_digit(*b) => number_piece(at, text),
        [b'"', rest @ ..] => quoted_piece(alloc, at, rest),
        [b'/', b'/', rest @ ..] => Ok(comment_piece(rest)),
        _ => Err(LexFault::BadByte(at)),
    }
}
