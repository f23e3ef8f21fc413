//! Definitions of relations and of groups of expressions.

ghost use Rattle.std.specs.Prelude.{◌≡◌, ◌∷◌, ◌++◌, [], map, OnOk};
ghost use Rattle.std.specs.List.{flat_map};
ghost use Rattle.ccsl_ast.specs.Plain.{plain_member, plain_definition, plain_line};
ghost use Rattle.ccsl_grammar.specs.Terminals as t;
ghost use Rattle.ccsl_grammar.specs.Grammar.{opening, closing, right_brace, kind_spelled, param_spelled, params_spelled};
ghost use Rattle.ccsl_grammar.specs.Canonical.{outer, head_tokens, member_tokens, members_tokens, further_tokens, rline_tokens, body_lines, definition_lines};
ghost use Rattle.ccsl_print.specs.Pages.{after, line_after, lines_after};

use crate::expression::put_expression;
use crate::lines::{Lined, put_all};
use crate::list::{Spelled, put_list};
use crate::page::Page;
use ccsl_ast::{Definition, Kind, Member, Param, RelationLine, Spot};
use ccsl_base::{Memory, Seq};
use ccsl_lex::Reserved;

fn put_kind(page: &mut Page, kind: Kind) -> Result<(), Memory>
    ensures { OnOk result (page.new ≡ after page.old (kind_spelled kind ∷ [])) }
{
    match kind {
        Kind::Clock => page.word(Reserved::Clock),
        Kind::Number => page.word(Reserved::Number),
        Kind::Word => page.word(Reserved::Word),
    }
}

impl Spelled for Param {
    ghost tokens = { param_spelled };

    fn put(&self, page: &mut Page) -> Result<(), Memory> {
        put_kind(page, self.kind)?;
        page.name(&self.name)
    }
}

/// A defined name and its parameters, in parentheses also where there are none.
#[tactic(auto, using(crate::proofs::Steps::after_append))]
fn put_head(page: &mut Page, name: &Spot, params: &Seq<Param>) -> Result<(), Memory>
    ensures { OnOk result (page.new ≡ after page.old
        (t.name name.now ∷ opening ∷ (params_spelled params.now ++ closing ∷ []))) }
{
    page.name(name)?;
    page.symbol(b'(')?;
    put_list(page, params.members())?;
    page.symbol(b')')
}

#[tactic(auto, using(crate::proofs::Steps::after_append))]
fn put_member(page: &mut Page, member: &Member) -> Result<(), Memory>
    ensures { OnOk result (page.new ≡ after page.old (member_tokens (plain_member member.now))) }
{
    put_head(page, &member.name, &member.params)?;
    page.symbol(b'=')?;
    put_expression(page, &member.body)
}

fn put_further_members(page: &mut Page, members: &[Member]) -> Result<(), Memory>
    ensures { OnOk result (page.new ≡ after page.old
        (flat_map further_tokens (map plain_member members.now))) }
{
    for member in members {
        page.word(Reserved::And)?;
        put_member(page, member)?;
    }
    Ok(())
}

fn put_members(page: &mut Page, members: &[Member]) -> Result<(), Memory>
    ensures { OnOk result (page.new ≡ after page.old
        (members_tokens (map plain_member members.now))) }
{
    match members {
        [] => Ok(()),
        [first, rest @ ..] => {
            put_member(page, first)?;
            put_further_members(page, rest)
        }
    }
}

#[tactic(auto, using(crate::proofs::Steps::after_append))]
fn put_head_line(page: &mut Page, name: &Spot, params: &Seq<Param>) -> Result<(), Memory>
    ensures { OnOk result (page.new ≡ line_after page.old
        (outer (head_tokens name.now params.now))) }
{
    page.begin_line(false)?;
    page.word(Reserved::Relation)?;
    put_head(page, name, params)?;
    page.symbol(b'{')?;
    page.end_line()
}

/// The closing brace, on a line of its own.
pub fn put_closing_line(page: &mut Page) -> Result<(), Memory>
    ensures { OnOk result (page.new ≡ line_after page.old (outer (right_brace ∷ []))) }
{
    page.begin_line(false)?;
    page.symbol(b'}')?;
    page.end_line()
}

#[tactic(auto, using(crate::proofs::Steps::lines_append, crate::proofs::Steps::rlines_lined))]
fn put_relation(
    page: &mut Page,
    name: &Spot,
    params: &Seq<Param>,
    lines: &Seq<RelationLine>,
) -> Result<(), Memory>
    ensures { OnOk result (page.new ≡ lines_after page.old
        (outer (head_tokens name.now params.now)
        ∷ body_lines rline_tokens (map plain_line lines.now))) }
{
    put_head_line(page, name, params)?;
    put_all(page, lines.members())?;
    put_closing_line(page)
}

#[tactic(auto, using(crate::proofs::Steps::after_append))]
fn put_group(page: &mut Page, members: &[Member]) -> Result<(), Memory>
    ensures { OnOk result (page.new ≡ lines_after page.old
        (outer (t.word Reserved.Expression
        ∷ (members_tokens (map plain_member members.now) ++ t.symbol 59 ∷ []))
        ∷ [])) }
{
    page.begin_line(false)?;
    page.word(Reserved::Expression)?;
    put_members(page, members)?;
    page.symbol(b';')?;
    page.end_line()
}

impl Lined for Definition {
    ghost lines = { λ d. definition_lines (plain_definition d) };

    fn put_lines(&self, page: &mut Page) -> Result<(), Memory> {
        match self {
            Definition::Relation {
                name,
                params,
                lines,
            } => put_relation(page, name, params, lines),
            Definition::Group(members) => put_group(page, members.members()),
        }
    }
}
