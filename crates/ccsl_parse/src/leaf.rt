//! Readers of one token.

ghost use Rattle.std.specs.Prelude.{◌≡◌, true, IfOk};
ghost use Rattle.ccsl_grammar.specs.Terminals.{terminal, terminals};
ghost use Rattle.ccsl_grammar.specs.Kinds.{is_word, is_symbol, is_name, is_quoted};
ghost use Rattle.ccsl_grammar.specs.Reader.{took, begins};
ghost use Rattle.ccsl_grammar.specs.Parser.{goes_on_by, word_at, symbol_at, name_at, num_at, quoted_at};
ghost use Rattle.ccsl_parse.specs.Reads.{Reads, ReadsAs, ReadsWhere, Passes, Skips};

use crate::room::Room;
use crate::stop::Stop;
use ccsl_ast::Spot;
use ccsl_base::Text;
use ccsl_lex::{Reserved, Token, TokenKind};
use std::alloc::{AllocError, Global};

/// Whether a token is this reserved word.
pub fn is_word(token: &Token, word: Reserved) -> bool
    ensures { result ≡ is_word word (terminal token.now) }
{
    match &token.kind {
        TokenKind::Word(other) => *other == word,
        _ => false,
    }
}

/// Whether a token is the symbol of this byte.
pub fn is_symbol(token: &Token, byte: u8) -> bool
    ensures { result ≡ is_symbol byte (terminal token.now) }
{
    match &token.kind {
        TokenKind::Symbol(other) => *other == byte,
        _ => false,
    }
}

/// Whether a token is a name.
pub fn is_name(token: &Token) -> bool
    ensures { result ≡ is_name (terminal token.now) }
{
    matches!(&token.kind, TokenKind::Name(_))
}

/// Whether the next token is there, and is this reserved word.
pub fn begins_word(tokens: &[Token], word: Reserved) -> bool
    ensures { result ≡ begins (is_word word) (terminals tokens.now) }
{
    match tokens {
        [token, ..] => is_word(token, word),
        [] => false,
    }
}

/// Whether the next token is there, and is the symbol of this byte.
pub fn begins_symbol(tokens: &[Token], byte: u8) -> bool
    ensures { result ≡ begins (is_symbol byte) (terminals tokens.now) }
{
    match tokens {
        [token, ..] => is_symbol(token, byte),
        [] => false,
    }
}

/// Whether the next token is there, and is a name.
pub fn begins_name(tokens: &[Token]) -> bool
    ensures { result ≡ begins is_name (terminals tokens.now) }
{
    match tokens {
        [token, ..] => is_name(token),
        [] => false,
    }
}

/// The tokens behind the next one, where that is the reserved word.
#[tactic(auto, unfolding(ccsl_grammar::specs::Parser::word_at))]
pub fn behind_word<'a>(tokens: &'a [Token], word: Reserved) -> Option<&'a [Token]>
    ensures { Passes result (is_word word) (word_at word) true tokens.now }
{
    match tokens {
        [token, rest @ ..] => {
            if is_word(token, word) {
                Some(rest)
            } else {
                None
            }
        }
        [] => None,
    }
}

/// The tokens behind the next one, where that is the reserved word and the text is of version 2.
#[tactic(auto, unfolding(ccsl_grammar::specs::Parser::word_at))]
pub fn behind_word_of_two<'a>(
    room: Room,
    tokens: &'a [Token],
    word: Reserved,
) -> Option<&'a [Token]>
    ensures { Passes result (goes_on_by room.two word) (word_at word) true tokens.now }
{
    match tokens {
        [token, rest @ ..] => {
            if is_word(token, word) && room.two {
                Some(rest)
            } else {
                None
            }
        }
        [] => None,
    }
}

/// The tokens behind the next one, where that is the symbol of this byte.
#[tactic(auto, unfolding(ccsl_grammar::specs::Parser::symbol_at))]
pub fn behind_symbol<'a>(tokens: &'a [Token], byte: u8) -> Option<&'a [Token]>
    ensures { Passes result (is_symbol byte) (symbol_at byte) true tokens.now }
{
    match tokens {
        [token, rest @ ..] => {
            if is_symbol(token, byte) {
                Some(rest)
            } else {
                None
            }
        }
        [] => None,
    }
}

/// The reserved word.
#[tactic(auto, unfolding(ccsl_grammar::specs::Parser::word_at))]
pub fn word_at<'a>(tokens: &'a [Token], word: Reserved) -> Result<&'a [Token], Stop<'a>>
    ensures { Skips result (word_at word) true tokens.now }
{
    match tokens {
        [token, rest @ ..] => {
            if is_word(token, word) {
                Ok(rest)
            } else {
                Err(Stop::Syntax(tokens))
            }
        }
        [] => Err(Stop::Syntax(tokens)),
    }
}

/// The symbol of this byte.
#[tactic(auto, unfolding(ccsl_grammar::specs::Parser::symbol_at))]
pub fn symbol_at<'a>(tokens: &'a [Token], byte: u8) -> Result<&'a [Token], Stop<'a>>
    ensures { Skips result (symbol_at byte) true tokens.now }
{
    match tokens {
        [token, rest @ ..] => {
            if is_symbol(token, byte) {
                Ok(rest)
            } else {
                Err(Stop::Syntax(tokens))
            }
        }
        [] => Err(Stop::Syntax(tokens)),
    }
}

/// The value, where the symbol of this byte stands behind it.
pub fn before_symbol<'a, T: Drop>(
    value: T,
    tokens: &'a [Token],
    byte: u8,
) -> Result<(T, &'a [Token]), Stop<'a>>
    ensures value { IfOk result (λ x. x.0 ≡ value) }
    ensures symbol { ReadsAs (λ _. true) result (symbol_at byte) tokens.now }
{
    let rest = symbol_at(tokens, byte)?;
    Ok((value, rest))
}

/// A text of its own with the same bytes.
pub fn copied(alloc: Global, text: &Text) -> Result<Text, AllocError>
    ensures { IfOk result (λ copy. copy ≡ text.now) }
{
    let bytes = Vec::from_slice(alloc, text.bytes())?;
    Ok(Text::new(bytes))
}

/// A name.
#[tactic(auto, unfolding(ccsl_grammar::specs::Parser::name_at))]
pub fn name_at<'a>(alloc: Global, tokens: &'a [Token]) -> Result<(Spot, &'a [Token]), Stop<'a>>
    ensures { Reads result name_at tokens.now }
{
    match tokens {
        [token, rest @ ..] => match &token.kind {
            TokenKind::Name(text) => {
                let name = copied(alloc, text)?;
                Ok((Spot { at: token.at, name }, rest))
            }
            _ => Err(Stop::Syntax(tokens)),
        },
        [] => Err(Stop::Syntax(tokens)),
    }
}

/// A name, where one stands here.
#[tactic(auto, unfolding(ccsl_grammar::specs::Parser::name_at))]
pub fn some_name_at<'a>(
    alloc: Global,
    tokens: &'a [Token],
) -> Result<Option<(Spot, &'a [Token])>, Stop<'a>>
    ensures { ReadsWhere (λ x. x) result is_name name_at tokens.now }
{
    match tokens {
        [token, rest @ ..] => match &token.kind {
            TokenKind::Name(text) => {
                let name = copied(alloc, text)?;
                Ok(Some((Spot { at: token.at, name }, rest)))
            }
            _ => Ok(None),
        },
        [] => Ok(None),
    }
}

/// A number: its place, and its value.
#[tactic(auto, unfolding(ccsl_grammar::specs::Parser::num_at))]
pub fn num_at<'a>(tokens: &'a [Token]) -> Result<((usize, u32), &'a [Token]), Stop<'a>>
    ensures { Reads result num_at tokens.now }
{
    match tokens {
        [token, rest @ ..] => match &token.kind {
            TokenKind::Num(value) => Ok(((token.at, *value), rest)),
            _ => Err(Stop::Syntax(tokens)),
        },
        [] => Err(Stop::Syntax(tokens)),
    }
}

/// A quoted text: the place of its opening quote, and the bytes between the quotes.
#[tactic(auto, unfolding(ccsl_grammar::specs::Parser::quoted_at))]
pub fn quoted_at<'a>(
    alloc: Global,
    tokens: &'a [Token],
) -> Result<((usize, Text), &'a [Token]), Stop<'a>>
    ensures { Reads result quoted_at tokens.now }
{
    match tokens {
        [token, rest @ ..] => match &token.kind {
            TokenKind::Quoted(text) => {
                let text = copied(alloc, text)?;
                Ok(((token.at, text), rest))
            }
            _ => Err(Stop::Syntax(tokens)),
        },
        [] => Err(Stop::Syntax(tokens)),
    }
}

/// A quoted text, where one stands here.
#[tactic(auto, unfolding(ccsl_grammar::specs::Parser::quoted_at))]
pub fn some_quoted_at<'a>(
    alloc: Global,
    tokens: &'a [Token],
) -> Result<Option<((usize, Text), &'a [Token])>, Stop<'a>>
    ensures { ReadsWhere (λ x. x) result is_quoted quoted_at tokens.now }
{
    match tokens {
        [token, rest @ ..] => match &token.kind {
            TokenKind::Quoted(text) => {
                let text = copied(alloc, text)?;
                Ok(Some(((token.at, text), rest)))
            }
            _ => Ok(None),
        },
        [] => Ok(None),
    }
}
