//! Sums and words.

ghost use Rattle.std.specs.Prelude.{◌≡◌};
ghost use Rattle.ccsl_grammar.specs.Terminals.{terminals};
ghost use Rattle.ccsl_grammar.specs.Reader.{many};
ghost use Rattle.ccsl_grammar.specs.Parser.{prim_at, sign_at, is_sign, signed_at, term_at, wterm_at};
ghost use Rattle.ccsl_parse.specs.Reads.{Reads, ReadsWhere};

use crate::leaf::{behind_word, copied, name_at, quoted_at, some_name_at};
use crate::stop::Stop;
use ccsl_ast::{Prim, Primary, Sign, Spot, Term, WordTerm};
use ccsl_base::Seq;
use ccsl_lex::{Reserved, Token, TokenKind};
use std::alloc::Global;

#[tactic(auto, unfolding(ccsl_grammar::specs::Parser::prim_at))]
fn prim_at<'a>(alloc: Global, tokens: &'a [Token]) -> Result<(Prim, &'a [Token]), Stop<'a>>
    ensures { Reads result prim_at tokens.now }
{
    match tokens {
        [token, rest @ ..] => match &token.kind {
            TokenKind::Name(text) => {
                let name = copied(alloc, text)?;
                Ok((Primary::Name(Spot { at: token.at, name }), rest))
            }
            TokenKind::Num(value) => Ok((Primary::Num(token.at, *value), rest)),
            _ => Err(Stop::Syntax(tokens)),
        },
        [] => Err(Stop::Syntax(tokens)),
    }
}

/// A sign and what it goes with, where one stands here.
#[tactic(auto, unfolding(ccsl_grammar::specs::Parser::signed_at, ccsl_grammar::specs::Parser::sign_at))]
fn some_signed_at<'a>(
    alloc: Global,
    tokens: &'a [Token],
) -> Result<Option<((Sign, Prim), &'a [Token])>, Stop<'a>>
    ensures { ReadsWhere (λ x. x) result is_sign signed_at tokens.now }
{
    let (sign, rest) = match tokens {
        [token, rest @ ..] => match &token.kind {
            TokenKind::Symbol(b'+') => (Sign::Plus, rest),
            TokenKind::Symbol(b'-') => (Sign::Minus, rest),
            _ => return Ok(None),
        },
        [] => return Ok(None),
    };
    let (prim, rest) = prim_at(alloc, rest)?;
    Ok(Some(((sign, prim), rest)))
}

fn further_signed<'a>(
    alloc: Global,
    tokens: &'a [Token],
) -> Result<(Seq<(Sign, Prim)>, &'a [Token]), Stop<'a>>
    ensures { Reads result (many is_sign signed_at) tokens.now }
{
    let mut members = Vec::new(alloc);
    let mut rest = tokens;
    'turns: while let Some((item, after)) = some_signed_at(alloc, rest)? {
        members.push(item)?;
        rest = after;
    }
    Ok((Seq::new(members), rest))
}

/// A sum.
#[tactic(auto, unfolding(ccsl_grammar::specs::Parser::term_at))]
pub fn term_at<'a>(alloc: Global, tokens: &'a [Token]) -> Result<(Term, &'a [Token]), Stop<'a>>
    ensures { Reads result term_at tokens.now }
{
    let (first, rest) = prim_at(alloc, tokens)?;
    let (signed, rest) = further_signed(alloc, rest)?;
    let term = Term {
        first,
        rest: signed,
    };
    Ok((term, rest))
}

/// What a filter goes by.
#[tactic(auto, unfolding(ccsl_grammar::specs::Parser::wterm_at))]
pub fn wterm_at<'a>(alloc: Global, tokens: &'a [Token]) -> Result<(WordTerm, &'a [Token]), Stop<'a>>
    ensures { Reads result wterm_at tokens.now }
{
    match some_name_at(alloc, tokens)? {
        Some((name, rest)) => return Ok((WordTerm::Name(name), rest)),
        None => {}
    }
    match behind_word(tokens, Reserved::Tail) {
        Some(rest) => {
            let (name, rest) = name_at(alloc, rest)?;
            Ok((WordTerm::Tail(name), rest))
        }
        None => {
            let ((at, text), rest) = quoted_at(alloc, tokens)?;
            Ok((WordTerm::Text(at, text), rest))
        }
    }
}
