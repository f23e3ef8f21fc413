//! Lists with commas.

ghost use Rattle.std.specs.Prelude.{◌≡◌};
ghost use Rattle.ccsl_grammar.specs.Terminals.{terminals};
ghost use Rattle.ccsl_grammar.specs.Kinds.{is_symbol};
ghost use Rattle.ccsl_grammar.specs.Reader.{took, many};
ghost use Rattle.ccsl_grammar.specs.Loop.{behind};
ghost use Rattle.ccsl_grammar.specs.Parser.{further_at, list_at};
ghost use Rattle.ccsl_parse.specs.Reads.{Reads, ReadsWhere};

use crate::leaf::{before_symbol, behind_symbol, name_at};
use crate::stop::Stop;
use ccsl_ast::Spot;
use ccsl_base::Seq;
use ccsl_lex::Token;
use std::alloc::Global;

/// What stands in lists with commas.
pub trait Listed: Drop {
    ghost use Rattle.std.specs.Prelude.{List, length, ◌<◌};
    ghost use Rattle.ccsl_grammar.specs.Terminals.{Terminal};
    ghost use Rattle.ccsl_grammar.specs.Reader.{Reader};

    ghost reader: { Reader Self };

    fn read<'a>(alloc: Global, tokens: &'a [Token]) -> Result<(Self, &'a [Token]), Stop<'a>>
        ensures { Reads result reader tokens.now };

    ghost falls: { (ts : List Terminal) (v : Self) (rest : List Terminal)
        → further_at reader ts ≡ took v rest → length rest < length ts };
}

/// What follows a comma, where one stands here.
#[tactic(auto, unfolding(ccsl_grammar::specs::Parser::further_at))]
fn some_further_at<'a, T: Listed>(
    alloc: Global,
    tokens: &'a [Token],
) -> Result<Option<(T, &'a [Token])>, Stop<'a>>
    ensures { ReadsWhere (λ x. x) result (is_symbol 44) (further_at T.reader) tokens.now }
{
    match behind_symbol(tokens, b',') {
        Some(rest) => {
            let (item, rest) = T::read(alloc, rest)?;
            Ok(Some((item, rest)))
        }
        None => Ok(None),
    }
}

/// The members behind the first ones, each with its comma.
pub fn further_members<'a, T: Listed>(
    alloc: Global,
    first: Vec<T>,
    tokens: &'a [Token],
) -> Result<(Seq<T>, &'a [Token]), Stop<'a>>
    ensures { Reads result
        (behind first.items (many (is_symbol 44) (further_at T.reader))) tokens.now }
{
    let mut members = first;
    let mut rest = tokens;
    'turns: while let Some((item, after)) = some_further_at(alloc, rest)? {
        members.push(item)?;
        rest = after;
    }
    Ok((Seq::new(members), rest))
}

/// A list that may be empty, and the parenthesis behind it.
#[tactic(auto, using(crate::proofs::Turns::led, crate::proofs::Turns::led_stops), unfolding(ccsl_grammar::specs::Parser::list_at))]
pub fn list_at<'a, T: Listed>(
    alloc: Global,
    tokens: &'a [Token],
) -> Result<(Seq<T>, &'a [Token]), Stop<'a>>
    ensures { Reads result (list_at T.reader) tokens.now }
{
    match behind_symbol(tokens, b')') {
        Some(rest) => return Ok((Seq::new(Vec::new(alloc)), rest)),
        None => {}
    }
    let (item, rest) = T::read(alloc, tokens)?;
    let mut first = Vec::new(alloc);
    first.push(item)?;
    let (members, rest) = further_members(alloc, first, rest)?;
    before_symbol(members, rest, b')')
}

impl Listed for Spot {
    ghost use Rattle.ccsl_grammar.specs.Parser as p;
    ghost use Rattle.ccsl_grammar.proofs.Loop.{further_clock_falls};

    ghost reader = { p.name_at };

    ghost falls = { further_clock_falls.at };

    fn read<'a>(alloc: Global, tokens: &'a [Token]) -> Result<(Spot, &'a [Token]), Stop<'a>> {
        name_at(alloc, tokens)
    }
}
