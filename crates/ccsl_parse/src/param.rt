//! The parameters of definitions.

ghost use Rattle.ccsl_grammar.specs.Terminals.{terminals};
ghost use Rattle.ccsl_grammar.specs.Reader.{took};
ghost use Rattle.ccsl_grammar.specs.Parser.{kind_at, param_at};
ghost use Rattle.ccsl_grammar.proofs.Loop.{further_param_falls};
ghost use Rattle.ccsl_parse.specs.Reads.{Reads};

use crate::leaf::name_at;
use crate::list::Listed;
use crate::stop::Stop;
use ccsl_ast::{Kind, Param};
use ccsl_lex::{Reserved, Token, TokenKind};
use std::alloc::Global;

#[tactic(auto, unfolding(ccsl_grammar::specs::Parser::kind_at))]
fn kind_at<'a>(tokens: &'a [Token]) -> Result<(Kind, &'a [Token]), Stop<'a>>
    ensures { Reads result kind_at tokens.now }
{
    match tokens {
        [token, rest @ ..] => match &token.kind {
            TokenKind::Word(Reserved::Clock) => Ok((Kind::Clock, rest)),
            TokenKind::Word(Reserved::Number) => Ok((Kind::Number, rest)),
            TokenKind::Word(Reserved::Word) => Ok((Kind::Word, rest)),
            _ => Err(Stop::Syntax(tokens)),
        },
        [] => Err(Stop::Syntax(tokens)),
    }
}

/// A parameter.
#[tactic(auto, unfolding(ccsl_grammar::specs::Parser::param_at))]
pub fn param_at<'a>(alloc: Global, tokens: &'a [Token]) -> Result<(Param, &'a [Token]), Stop<'a>>
    ensures { Reads result param_at tokens.now }
{
    let (kind, rest) = kind_at(tokens)?;
    let (name, rest) = name_at(alloc, rest)?;
    Ok((Param { kind, name }, rest))
}

impl Listed for Param {
    ghost reader = { param_at };

    ghost falls = { further_param_falls.at };

    fn read<'a>(alloc: Global, tokens: &'a [Token]) -> Result<(Param, &'a [Token]), Stop<'a>> {
        param_at(alloc, tokens)
    }
}
