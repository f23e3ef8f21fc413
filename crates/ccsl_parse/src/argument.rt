//! The arguments of calls.

ghost use Rattle.ccsl_grammar.specs.Terminals.{terminals};
ghost use Rattle.ccsl_grammar.specs.Reader.{took};
ghost use Rattle.ccsl_grammar.specs.Parser.{arg_at};
ghost use Rattle.ccsl_grammar.proofs.Loop.{further_arg_falls};
ghost use Rattle.ccsl_parse.specs.Reads.{Reads};

use crate::leaf::{behind_word, name_at, some_quoted_at};
use crate::list::Listed;
use crate::stop::Stop;
use crate::term::term_at;
use ccsl_ast::Argument;
use ccsl_lex::{Reserved, Token};
use std::alloc::Global;

#[tactic(auto, unfolding(ccsl_grammar::specs::Parser::arg_at))]
fn arg_at<'a>(alloc: Global, tokens: &'a [Token]) -> Result<(Argument, &'a [Token]), Stop<'a>>
    ensures { Reads result arg_at tokens.now }
{
    match some_quoted_at(alloc, tokens)? {
        Some(((at, text), rest)) => return Ok((Argument::Text(at, text), rest)),
        None => {}
    }
    match behind_word(tokens, Reserved::Tail) {
        Some(rest) => {
            let (name, rest) = name_at(alloc, rest)?;
            Ok((Argument::Tail(name), rest))
        }
        None => {
            let (term, rest) = term_at(alloc, tokens)?;
            Ok((Argument::Term(term), rest))
        }
    }
}

impl Listed for Argument {
    ghost reader = { arg_at };

    ghost falls = { further_arg_falls.at };

    fn read<'a>(alloc: Global, tokens: &'a [Token]) -> Result<(Argument, &'a [Token]), Stop<'a>> {
        arg_at(alloc, tokens)
    }
}
