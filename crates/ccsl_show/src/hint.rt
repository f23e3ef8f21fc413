//! What was met where a text is refused, and what to write.

use ccsl_base::{Memory, Reserved};
use ccsl_follow::TextFault;
use ccsl_lex::{LexFault, Token, TokenKind};
use ccsl_page::{Page, Piece};
use ccsl_parse::ParseFault;
use ccsl_rules::Refusal;

/// A kind of token that a hint turns on.
#[derive(Clone, Copy)]
enum Met {
    Nothing,
    Name,
    Number,
    Text,
    Word(Reserved),
    Symbol(u8),
}

fn kind_of(token: Option<&Token>) -> Met {
    match token {
        None => Met::Nothing,
        Some(token) => match &token.kind {
            TokenKind::Name(_) => Met::Name,
            TokenKind::Num(_) => Met::Number,
            TokenKind::Quoted(_) => Met::Text,
            TokenKind::Word(word) => Met::Word(*word),
            TokenKind::Symbol(byte) => Met::Symbol(*byte),
        },
    }
}

// The number of the token at a place, or of tokens where none stands there.
fn index_at(tokens: &[Token], at: usize) -> usize {
    tokens
        .iter()
        .position(|token| token.at == at)
        .unwrap_or(tokens.len())
}

// The token so many places in front of another.
fn before(tokens: &[Token], index: usize, places: usize) -> Met {
    match index.checked_sub(places) {
        Some(i) => kind_of(tokens.get(i)),
        None => Met::Nothing,
    }
}

// Whether a word stands between two operands of an expression.
fn is_operator(word: Reserved) -> bool {
    matches!(
        word,
        Reserved::Union
            | Reserved::Inter
            | Reserved::Minus
            | Reserved::Inf
            | Reserved::Sup
            | Reserved::Delay
            | Reserved::Await
            | Reserved::Filter
            | Reserved::Upto
            | Reserved::Sampled
            | Reserved::Delayed
            | Reserved::Then
    )
}

// Whether a word is a relation between two clocks.
fn is_relation(word: Reserved) -> bool {
    matches!(
        word,
        Reserved::Subclock | Reserved::Coincides | Reserved::Excludes | Reserved::Precedes
    )
}

// Whether a name is to follow.
fn wants_name(previous: Met) -> bool {
    match previous {
        Met::Word(word) => {
            is_relation(word)
                || is_operator(word)
                || matches!(
                    word,
                    Reserved::Clock | Reserved::Define | Reserved::Number | Reserved::Word
                )
        }
        Met::Symbol(byte) => byte == b',' || byte == b'(' || byte == b';' || byte == b'{',
        Met::Nothing | Met::Name | Met::Number | Met::Text => false,
    }
}

// Whether an expression may end with this.
fn ends_operand(previous: Met) -> bool {
    match previous {
        Met::Name | Met::Number | Met::Text => true,
        Met::Symbol(byte) => byte == b')',
        Met::Word(word) => word == Reserved::Never,
        Met::Nothing => false,
    }
}

// Whether the expression in front of a token has an operator without parentheses: one stands behind the last `=`, `(`,
// `,` or `;`.
fn follows_operator(tokens: &[Token], index: usize) -> bool {
    let mut depth = 0u32;
    for i in (0..index.min(tokens.len())).rev() {
        match kind_of(tokens.get(i)) {
            Met::Symbol(b')') => depth = depth.saturating_add(1),
            Met::Symbol(b'(') => {
                if depth == 0 {
                    return false;
                }
                depth -= 1;
            }
            Met::Symbol(b'=' | b',' | b';' | b'{') => return false,
            Met::Word(word) if depth == 0 && is_operator(word) => return true,
            _ => {}
        }
    }
    false
}

fn put_reserved(page: &mut Page, word: Reserved) -> Result<(), Memory> {
    page.put(&[
        Piece::Text("`"),
        Piece::Name(word.spelling()),
        Piece::Text("` is a word of the language and can be no name"),
    ])
}

// Whether the text begins with `ccsl 1`.
fn is_first_version(tokens: &[Token]) -> bool {
    match tokens {
        [first, second, ..] => {
            matches!(first.kind, TokenKind::Word(Reserved::Ccsl))
                && matches!(second.kind, TokenKind::Num(1))
        }
        _ => false,
    }
}

// What a reserved word is, where it can't stand.
fn put_word(page: &mut Page, tokens: &[Token], index: usize, word: Reserved) -> Result<(), Memory> {
    let previous = before(tokens, index, 1);
    if is_first_version(tokens) && matches!(word, Reserved::Within | Reserved::Weakly) {
        return page.put(&[Piece::Text("this form needs `ccsl 2;` in the first line")]);
    }
    if is_operator(word) && ends_operand(previous) {
        if follows_operator(tokens, index) {
            return page.put(&[Piece::Text(
                "an operand that is an operator's expression stands in parentheses",
            )]);
        }
        return page.put(&[Piece::Text(
            "an operand here is a name: give the expression one with `define`",
        )]);
    }
    if is_relation(word) && ends_operand(previous) {
        return page.put(&[Piece::Text(
            "a relation stands between two names: give an expression one with `define`",
        )]);
    }
    if wants_name(previous) {
        return put_reserved(page, word);
    }
    page.put(&[Piece::Text("is a `;` missing before this?")])
}

// What a name is, where it can't stand.
fn put_name(page: &mut Page, tokens: &[Token], index: usize) -> Result<(), Memory> {
    match before(tokens, index, 1) {
        Met::Name => match before(tokens, index, 2) {
            Met::Word(word) if is_relation(word) => {
                page.put(&[Piece::Text("a `;` is missing before this")])
            }
            Met::Word(_) => page.put(&[Piece::Text("a `;` or an operator is missing before this")]),
            _ => page.put(&[Piece::Text(
                "a relation of your own is called as NAME(a, b); between two clocks stands a word of the language",
            )]),
        },
        Met::Number if matches!(before(tokens, index, 2), Met::Word(Reserved::Delayed)) => {
            page.put(&[Piece::Text("`on` is missing before this")])
        }
        Met::Symbol(b')') | Met::Number | Met::Text => {
            page.put(&[Piece::Text("a `;` is missing before this")])
        }
        _ => page.put(&[Piece::Text("no name can stand here")]),
    }
}

fn put_syntax(page: &mut Page, tokens: &[Token], index: usize) -> Result<(), Memory> {
    if index == 0 {
        return page.put(&[Piece::Text("a specification begins with `ccsl 1;` or `ccsl 2;`")]);
    }
    match kind_of(tokens.get(index)) {
        Met::Nothing => page.put(&[Piece::Text("the text ends too early: is a `}` missing?")]),
        Met::Word(word) => put_word(page, tokens, index, word),
        Met::Name => put_name(page, tokens, index),
        Met::Number if index == 1 => {
            page.put(&[Piece::Text("the versions of the language are 1 and 2")])
        }
        Met::Symbol(b'}') => page.put(&[Piece::Text("is a `;` missing before this?")]),
        Met::Number | Met::Text | Met::Symbol(_) => page.put(&[Piece::Text(
            "this can't stand here",
        )]),
    }
}

fn put_token(page: &mut Page, text: &[u8], at: usize, fault: LexFault) -> Result<(), Memory> {
    match fault {
        LexFault::BadByte(_) => match text.get(at) {
            Some(b'.') => page.put(&[Piece::Text(
                "a name has no dots: ccsl-events gives names to paths",
            )]),
            Some(b'/') => page.put(&[Piece::Text("a comment begins with `//`")]),
            Some(239) => page.put(&[Piece::Text("a byte order mark: save the text without one")]),
            _ => page.put(&[Piece::Text("no token begins with this")]),
        },
        LexFault::NameTooLong(_) => page.put(&[Piece::Text("a name has at most 64 letters")]),
        LexFault::NumberTooLarge(_) => {
            page.put(&[Piece::Text("a number is at most 4294967295")])
        }
        LexFault::OpenText(_) => page.put(&[Piece::Text("this quote is not closed in its line")]),
        LexFault::Memory => Ok(()),
    }
}

fn put_refusal(
    page: &mut Page,
    tokens: &[Token],
    index: usize,
    refusal: Refusal,
) -> Result<(), Memory> {
    let said = match refusal {
        Refusal::Duplicate(_) => "this name is there already",
        Refusal::Unknown(_) => "nothing is called so",
        Refusal::Later(_) => "this is declared only later: move its line up",
        Refusal::WrongKind(_) =>
            "this is no clock, number, word, relation or expression as it is needed here",
        Refusal::Unguarded(_) => "a call of itself stands only on the right of `then`",
        Refusal::TooTall(_) => "calls within calls reach more than 8 levels",
        Refusal::Arguments(_) => match before(tokens, index, 1) {
            Met::Word(Reserved::Delayed) => "the number of `delayed` is from 1 to 4096",
            Met::Word(Reserved::Within) => "the number of `within` is at least 1",
            _ => "a call has as many arguments as its definition has parameters, at most 8",
        },
        Refusal::BadWord(_) =>
            "a word is letters 0 and 1, with its period in parentheses, as \"01(001)\"",
        Refusal::TooManyClocks(_)
        | Refusal::TooManyConstraints(_)
        | Refusal::StateTooLarge(_)
        | Refusal::Memory => "",
    };
    page.put(&[Piece::Text(said)])
}

/// Puts what was met at the place at which a text is refused.
pub(crate) fn put_hint(
    page: &mut Page,
    text: &[u8],
    tokens: &[Token],
    at: usize,
    fault: TextFault,
) -> Result<(), Memory> {
    let index = index_at(tokens, at);
    match fault {
        TextFault::Token(fault) => put_token(page, text, at, fault),
        TextFault::Syntax(ParseFault::Syntax(_)) => put_syntax(page, tokens, index),
        TextFault::Syntax(ParseFault::TooDeep(_)) => {
            page.put(&[Piece::Text("an expression has at most 128 levels")])
        }
        TextFault::Syntax(ParseFault::Memory) => Ok(()),
        TextFault::Refused(refusal) => put_refusal(page, tokens, index, refusal),
    }
}
