//! Definitions of relations and of groups of expressions.

ghost use Rattle.ccsl_ast.specs.Trees.{PlainMember, PlainDefinition};
ghost use Rattle.ccsl_ast.specs.Plain.{plain_member, plain_definition};
ghost use Rattle.ccsl_grammar.specs.Terminals.{terminals};
ghost use Rattle.ccsl_grammar.specs.Kinds.{is_word};
ghost use Rattle.ccsl_grammar.specs.Reader.{took};
ghost use Rattle.ccsl_grammar.specs.Parser.{relation_at, member_at, further_member_at, group_at, definition_at, is_definition};
ghost use Rattle.ccsl_base.specs.declared.reserved.Reserved.TheVariants as w;
ghost use Rattle.ccsl_grammar.proofs.Loop.{further_member_falls, definition_falls};
ghost use Rattle.ccsl_parse.specs.Reads.{ReadsAs};

use crate::expression::expr_at;
use crate::leaf::{before_symbol, behind_word, name_at, symbol_at};
use crate::line::rline_at;
use crate::list::list_at;
use crate::repeat::{Repeated, many_behind};
use crate::room::Room;
use crate::stop::Stop;
use ccsl_ast::{Definition, Member};
use ccsl_lex::{Reserved, Token};
use std::alloc::Global;

/// What stands behind the word of a relation.
#[tactic(auto, using(crate::proofs::Turns::led, crate::proofs::Turns::led_stops), unfolding(ccsl_grammar::specs::Parser::relation_at))]
fn relation_at<'a>(
    alloc: Global,
    room: Room,
    tokens: &'a [Token],
) -> Result<(Definition, &'a [Token]), Stop<'a>>
    ensures { ReadsAs plain_definition result (relation_at room.two room.levels) tokens.now }
{
    let (name, rest) = name_at(alloc, tokens)?;
    let rest = symbol_at(rest, b'(')?;
    let (params, rest) = list_at(alloc, rest)?;
    let rest = symbol_at(rest, b'{')?;
    let (line, rest) = rline_at(alloc, room, rest)?;
    let (lines, rest) = many_behind(alloc, room, line, rest)?;
    let relation = Definition::Relation {
        name,
        params,
        lines,
    };
    before_symbol(relation, rest, b'}')
}

/// A defined expression of a group.
#[tactic(auto, unfolding(ccsl_grammar::specs::Parser::member_at))]
fn member_at<'a>(
    alloc: Global,
    room: Room,
    tokens: &'a [Token],
) -> Result<(Member, &'a [Token]), Stop<'a>>
    ensures { ReadsAs plain_member result (member_at room.two room.levels) tokens.now }
{
    let (name, rest) = name_at(alloc, tokens)?;
    let rest = symbol_at(rest, b'(')?;
    let (params, rest) = list_at(alloc, rest)?;
    let rest = symbol_at(rest, b'=')?;
    let (body, rest) = expr_at(alloc, room, rest)?;
    Ok((Member { name, params, body }, rest))
}

/// What stands behind the word of a group.
#[tactic(auto, using(crate::proofs::Turns::led, crate::proofs::Turns::led_stops), unfolding(ccsl_grammar::specs::Parser::group_at))]
fn group_at<'a>(
    alloc: Global,
    room: Room,
    tokens: &'a [Token],
) -> Result<(Definition, &'a [Token]), Stop<'a>>
    ensures { ReadsAs plain_definition result (group_at room.two room.levels) tokens.now }
{
    let (member, rest) = member_at(alloc, room, tokens)?;
    let (members, rest) = many_behind(alloc, room, member, rest)?;
    before_symbol(Definition::Group(members), rest, b';')
}

/// The further members of a group, each with its `and`.
impl Repeated for Member {
    ghost Plain = { PlainMember };

    ghost plain = { plain_member };

    ghost starts = { is_word w.And };

    ghost reader = { further_member_at };

    ghost falls = { λ two levels. (further_member_falls two levels).at };

    #[tactic(auto, unfolding(ccsl_grammar::specs::Parser::further_member_at))]
    fn next<'a>(
        alloc: Global,
        room: Room,
        tokens: &'a [Token],
    ) -> Result<Option<(Member, &'a [Token])>, Stop<'a>> {
        match behind_word(tokens, Reserved::And) {
            Some(rest) => {
                let (member, rest) = member_at(alloc, room, rest)?;
                Ok(Some((member, rest)))
            }
            None => Ok(None),
        }
    }
}

impl Repeated for Definition {
    ghost Plain = { PlainDefinition };

    ghost plain = { plain_definition };

    ghost starts = { is_definition };

    ghost reader = { definition_at };

    ghost falls = { λ two levels. (definition_falls two levels).at };

    #[tactic(auto, unfolding(ccsl_grammar::specs::Parser::definition_at))]
    fn next<'a>(
        alloc: Global,
        room: Room,
        tokens: &'a [Token],
    ) -> Result<Option<(Definition, &'a [Token])>, Stop<'a>> {
        match behind_word(tokens, Reserved::Relation) {
            Some(rest) => {
                let (relation, rest) = relation_at(alloc, room, rest)?;
                return Ok(Some((relation, rest)));
            }
            None => {}
        }
        match behind_word(tokens, Reserved::Expression) {
            Some(rest) => {
                let (group, rest) = group_at(alloc, room, rest)?;
                Ok(Some((group, rest)))
            }
            None => Ok(None),
        }
    }
}
