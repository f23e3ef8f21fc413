//! The lines of relations and of the system.

ghost use Rattle.std.specs.Prelude.{◌≡◌};
ghost use Rattle.ccsl_ast.specs.Trees.{Line, SLine};
ghost use Rattle.ccsl_ast.specs.Plain.{plain_line, plain_sline};
ghost use Rattle.ccsl_grammar.specs.Terminals.{terminals};
ghost use Rattle.ccsl_grammar.specs.Reader.{took, begins};
ghost use Rattle.ccsl_grammar.specs.Parser.{define_at, call_at, constraint_at, rline_at, clocks_at, sline_at, no_brace};
ghost use Rattle.ccsl_grammar.proofs.Loop.{rline_falls, sline_falls};
ghost use Rattle.ccsl_parse.specs.Reads.{ReadsAs};

use crate::expression::expr_at;
use crate::leaf::{before_symbol, behind_symbol, behind_word, is_symbol, name_at, symbol_at};
use crate::list::{further_members, list_at};
use crate::relation::relop_at;
use crate::repeat::Repeated;
use crate::room::Room;
use crate::stop::Stop;
use ccsl_ast::{RelationLine, Spot, SystemLine};
use ccsl_lex::{Reserved, Token};
use std::alloc::Global;

/// What stands behind the word of a definition.
#[tactic(auto, unfolding(ccsl_grammar::specs::Parser::define_at))]
fn define_at<'a>(
    alloc: Global,
    room: Room,
    tokens: &'a [Token],
) -> Result<(RelationLine, &'a [Token]), Stop<'a>>
    ensures { ReadsAs plain_line result (define_at room.two room.levels) tokens.now }
{
    let (name, rest) = name_at(alloc, tokens)?;
    let rest = symbol_at(rest, b'=')?;
    let (tree, rest) = expr_at(alloc, room, rest)?;
    before_symbol(RelationLine::Define(name, tree), rest, b';')
}

/// What stands behind the name of a called relation and its parenthesis.
#[tactic(auto, unfolding(ccsl_grammar::specs::Parser::call_at))]
fn call_at<'a>(
    alloc: Global,
    name: Spot,
    tokens: &'a [Token],
) -> Result<(RelationLine, &'a [Token]), Stop<'a>>
    ensures { ReadsAs plain_line result (call_at name) tokens.now }
{
    let (args, rest) = list_at(alloc, tokens)?;
    before_symbol(RelationLine::Call(name, args), rest, b';')
}

/// What stands behind the first name of a constraint.
#[tactic(auto, unfolding(ccsl_grammar::specs::Parser::constraint_at))]
fn constraint_at<'a>(
    alloc: Global,
    room: Room,
    left: Spot,
    tokens: &'a [Token],
) -> Result<(RelationLine, &'a [Token]), Stop<'a>>
    ensures { ReadsAs plain_line result (constraint_at room.two left) tokens.now }
{
    let (relation, rest) = relop_at(room, tokens)?;
    let (right, rest) = name_at(alloc, rest)?;
    before_symbol(RelationLine::Constraint(left, relation, right), rest, b';')
}

/// A line of a relation's body.
#[tactic(auto, unfolding(ccsl_grammar::specs::Parser::rline_at))]
pub fn rline_at<'a>(
    alloc: Global,
    room: Room,
    tokens: &'a [Token],
) -> Result<(RelationLine, &'a [Token]), Stop<'a>>
    ensures { ReadsAs plain_line result (rline_at room.two room.levels) tokens.now }
{
    match behind_word(tokens, Reserved::Define) {
        Some(rest) => return define_at(alloc, room, rest),
        None => {}
    }
    let (name, tokens) = name_at(alloc, tokens)?;
    match behind_symbol(tokens, b'(') {
        Some(rest) => call_at(alloc, name, rest),
        None => constraint_at(alloc, room, name, tokens),
    }
}

/// What stands behind the word of declared clocks.
#[tactic(auto, using(crate::proofs::Turns::led, crate::proofs::Turns::led_stops), unfolding(ccsl_grammar::specs::Parser::clocks_at))]
fn clocks_at<'a>(alloc: Global, tokens: &'a [Token]) -> Result<(SystemLine, &'a [Token]), Stop<'a>>
    ensures { ReadsAs plain_sline result clocks_at tokens.now }
{
    let (name, rest) = name_at(alloc, tokens)?;
    let mut first = Vec::new(alloc);
    first.push(name)?;
    let (names, rest) = further_members(alloc, first, rest)?;
    before_symbol(SystemLine::Clocks(names), rest, b';')
}

/// A line of the system.
#[tactic(auto, unfolding(ccsl_grammar::specs::Parser::sline_at))]
fn sline_at<'a>(
    alloc: Global,
    room: Room,
    tokens: &'a [Token],
) -> Result<(SystemLine, &'a [Token]), Stop<'a>>
    ensures { ReadsAs plain_sline result (sline_at room.two room.levels) tokens.now }
{
    match behind_word(tokens, Reserved::Clock) {
        Some(rest) => clocks_at(alloc, rest),
        None => {
            let (line, rest) = rline_at(alloc, room, tokens)?;
            Ok((SystemLine::Line(line), rest))
        }
    }
}

/// Whether a line has to stand here: a token does, and it closes no body.
fn begins_line(tokens: &[Token]) -> bool
    ensures { result ≡ begins no_brace (terminals tokens.now) }
{
    match tokens {
        [token, ..] => !is_symbol(token, b'}'),
        [] => false,
    }
}

impl Repeated for RelationLine {
    ghost Plain = { Line };

    ghost plain = { plain_line };

    ghost starts = { no_brace };

    ghost reader = { rline_at };

    ghost falls = { λ two levels. (rline_falls two levels).at };

    fn next<'a>(
        alloc: Global,
        room: Room,
        tokens: &'a [Token],
    ) -> Result<Option<(RelationLine, &'a [Token])>, Stop<'a>> {
        if !begins_line(tokens) {
            return Ok(None);
        }
        let (line, rest) = rline_at(alloc, room, tokens)?;
        Ok(Some((line, rest)))
    }
}

impl Repeated for SystemLine {
    ghost Plain = { SLine };

    ghost plain = { plain_sline };

    ghost starts = { no_brace };

    ghost reader = { sline_at };

    ghost falls = { λ two levels. (sline_falls two levels).at };

    fn next<'a>(
        alloc: Global,
        room: Room,
        tokens: &'a [Token],
    ) -> Result<Option<(SystemLine, &'a [Token])>, Stop<'a>> {
        if !begins_line(tokens) {
            return Ok(None);
        }
        let (line, rest) = sline_at(alloc, room, tokens)?;
        Ok(Some((line, rest)))
    }
}
