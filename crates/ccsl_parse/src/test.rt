//! The tests of an `if`.

ghost use Rattle.ccsl_grammar.specs.Terminals.{terminals};
ghost use Rattle.ccsl_grammar.specs.Reader.{took};
ghost use Rattle.ccsl_grammar.specs.Parser.{comparison_at, test_at};
ghost use Rattle.ccsl_parse.specs.Reads.{Reads};

use crate::leaf::{behind_symbol, behind_word, name_at, symbol_at};
use crate::stop::Stop;
use crate::term::term_at;
use ccsl_ast::{Term, Test};
use ccsl_lex::{Reserved, Token};
use std::alloc::Global;

/// What stands behind a test's first term.
#[tactic(auto, unfolding(ccsl_grammar::specs::Parser::comparison_at))]
fn comparison_at<'a>(
    alloc: Global,
    left: Term,
    tokens: &'a [Token],
) -> Result<(Test, &'a [Token]), Stop<'a>>
    ensures { Reads result (comparison_at left) tokens.now }
{
    match behind_symbol(tokens, b'=') {
        Some(rest) => {
            let (right, rest) = term_at(alloc, rest)?;
            Ok((Test::Equal(left, right), rest))
        }
        None => {
            let rest = symbol_at(tokens, b'<')?;
            let (right, rest) = term_at(alloc, rest)?;
            Ok((Test::Less(left, right), rest))
        }
    }
}

/// What an `if` asks.
#[tactic(auto, unfolding(ccsl_grammar::specs::Parser::test_at))]
pub fn test_at<'a>(alloc: Global, tokens: &'a [Token]) -> Result<(Test, &'a [Token]), Stop<'a>>
    ensures { Reads result test_at tokens.now }
{
    match behind_word(tokens, Reserved::Head) {
        Some(rest) => {
            let (name, rest) = name_at(alloc, rest)?;
            return Ok((Test::Head(name), rest));
        }
        None => {}
    }
    match behind_word(tokens, Reserved::Ended) {
        Some(rest) => {
            let (name, rest) = name_at(alloc, rest)?;
            Ok((Test::Ended(name), rest))
        }
        None => {
            let (left, rest) = term_at(alloc, tokens)?;
            comparison_at(alloc, left, rest)
        }
    }
}
