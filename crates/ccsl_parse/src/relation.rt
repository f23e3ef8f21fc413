//! The relations of the language between two clocks.

ghost use Rattle.ccsl_grammar.specs.Terminals.{terminals};
ghost use Rattle.ccsl_grammar.specs.Reader.{took, accept};
ghost use Rattle.ccsl_grammar.specs.Parser.{relop_of, within_at, precedes_at, relop_at};
ghost use Rattle.ccsl_parse.specs.Reads.{Reads};

use crate::leaf::{behind_word, behind_word_of_two, num_at};
use crate::room::Room;
use crate::stop::Stop;
use ccsl_ast::Relation;
use ccsl_lex::{Reserved, Token, TokenKind};

/// A relation of one word that no other begins.
fn word_relop_at<'a>(tokens: &'a [Token]) -> Result<(Relation, &'a [Token]), Stop<'a>>
    ensures { Reads result (accept relop_of) tokens.now }
{
    match tokens {
        [token, rest @ ..] => match &token.kind {
            TokenKind::Word(Reserved::Subclock) => Ok((Relation::Subclock, rest)),
            TokenKind::Word(Reserved::Coincides) => Ok((Relation::Coincides, rest)),
            TokenKind::Word(Reserved::Excludes) => Ok((Relation::Excludes, rest)),
            _ => Err(Stop::Syntax(tokens)),
        },
        [] => Err(Stop::Syntax(tokens)),
    }
}

/// What stands behind `precedes within`: how many steps the left clock may be ahead.
#[tactic(auto, unfolding(ccsl_grammar::specs::Parser::within_at))]
fn within_at<'a>(tokens: &'a [Token]) -> Result<(Relation, &'a [Token]), Stop<'a>>
    ensures { Reads result within_at tokens.now }
{
    let ((at, number), rest) = num_at(tokens)?;
    Ok((Relation::PrecedesWithin(at, number), rest))
}

/// What stands behind `precedes`.
#[tactic(auto, unfolding(ccsl_grammar::specs::Parser::precedes_at))]
fn precedes_at<'a>(room: Room, tokens: &'a [Token]) -> Result<(Relation, &'a [Token]), Stop<'a>>
    ensures { Reads result (precedes_at room.two) tokens.now }
{
    match behind_word(tokens, Reserved::Weakly) {
        Some(rest) => return Ok((Relation::PrecedesWeakly, rest)),
        None => {}
    }
    match behind_word_of_two(room, tokens, Reserved::Within) {
        Some(rest) => within_at(rest),
        None => Ok((Relation::Precedes, tokens)),
    }
}

/// A relation between two clocks.
#[tactic(auto, unfolding(ccsl_grammar::specs::Parser::relop_at))]
pub fn relop_at<'a>(room: Room, tokens: &'a [Token]) -> Result<(Relation, &'a [Token]), Stop<'a>>
    ensures { Reads result (relop_at room.two) tokens.now }
{
    match behind_word(tokens, Reserved::Precedes) {
        Some(rest) => precedes_at(room, rest),
        None => word_relop_at(tokens),
    }
}
