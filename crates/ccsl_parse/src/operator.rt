//! The operators between two operands.

ghost use Rattle.std.specs.Prelude.{◌≡◌};
ghost use Rattle.ccsl_grammar.specs.Terminals.{terminal, terminals};
ghost use Rattle.ccsl_grammar.specs.Reader.{took};
ghost use Rattle.ccsl_grammar.specs.Parser.{binop_of, sampled_at, upto_at, binop_at, is_binop};
ghost use Rattle.ccsl_parse.specs.Reads.{Reads, ReadsWhere};

use crate::leaf::{behind_word, behind_word_of_two, is_word, word_at};
use crate::room::Room;
use crate::stop::Stop;
use ccsl_ast::BinaryOp;
use ccsl_lex::{Reserved, Token, TokenKind};

/// The operator of one word that the token is.
fn binop_of(token: &Token) -> Option<BinaryOp>
    ensures { result ≡ binop_of (terminal token.now) }
{
    match &token.kind {
        TokenKind::Word(Reserved::Union) => Some(BinaryOp::Union),
        TokenKind::Word(Reserved::Inter) => Some(BinaryOp::Inter),
        TokenKind::Word(Reserved::Minus) => Some(BinaryOp::Minus),
        TokenKind::Word(Reserved::Inf) => Some(BinaryOp::Inf),
        TokenKind::Word(Reserved::Sup) => Some(BinaryOp::Sup),
        TokenKind::Word(Reserved::Then) => Some(BinaryOp::Then),
        _ => None,
    }
}

/// What stands behind `sampled`.
#[tactic(auto, unfolding(ccsl_grammar::specs::Parser::sampled_at))]
fn sampled_at<'a>(tokens: &'a [Token]) -> Result<(BinaryOp, &'a [Token]), Stop<'a>>
    ensures { Reads result sampled_at tokens.now }
{
    match behind_word(tokens, Reserved::Weakly) {
        Some(rest) => {
            let rest = word_at(rest, Reserved::On)?;
            Ok((BinaryOp::SampledWeakly, rest))
        }
        None => {
            let rest = word_at(tokens, Reserved::On)?;
            Ok((BinaryOp::Sampled, rest))
        }
    }
}

/// What stands behind `upto`.
#[tactic(auto, unfolding(ccsl_grammar::specs::Parser::upto_at))]
fn upto_at<'a>(room: Room, tokens: &'a [Token]) -> (BinaryOp, &'a [Token])
    ensures { upto_at room.two (terminals tokens.now) ≡ took result.0 (terminals result.1.now) }
{
    match behind_word_of_two(room, tokens, Reserved::Weakly) {
        Some(rest) => (BinaryOp::UptoWeakly, rest),
        None => (BinaryOp::Upto, tokens),
    }
}

/// An operator between two operands, where one stands here.
#[tactic(auto, unfolding(ccsl_grammar::specs::Parser::binop_at, ccsl_grammar::specs::Parser::word_at))]
pub fn some_binop_at<'a>(
    room: Room,
    tokens: &'a [Token],
) -> Result<Option<(BinaryOp, &'a [Token])>, Stop<'a>>
    ensures { ReadsWhere (λ x. x) result is_binop (binop_at room.two) tokens.now }
{
    match tokens {
        [token, rest @ ..] => {
            if is_word(token, Reserved::Sampled) {
                let (op, rest) = sampled_at(rest)?;
                Ok(Some((op, rest)))
            } else if is_word(token, Reserved::Upto) {
                Ok(Some(upto_at(room, rest)))
            } else {
                match binop_of(token) {
                    Some(op) => Ok(Some((op, rest))),
                    None => Ok(None),
                }
            }
        }
        [] => Ok(None),
    }
}
