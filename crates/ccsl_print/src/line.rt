//! The lines of a system and of a relation's body.

ghost use Rattle.std.specs.Prelude.{◌≡◌, ◌∷◌, ◌++◌, [], OnOk};
ghost use Rattle.ccsl_ast.specs.Trees.{SClocks};
ghost use Rattle.ccsl_ast.specs.Plain.{plain_line, plain_sline};
ghost use Rattle.ccsl_grammar.specs.Terminals as t;
ghost use Rattle.ccsl_grammar.specs.Grammar.{relop_spelled, clock_spelled};
ghost use Rattle.ccsl_grammar.specs.Canonical.{inner, rline_tokens, sline_tokens};
ghost use Rattle.ccsl_print.specs.Pages.{after};

use crate::expression::{put_call, put_expression};
use crate::lines::Lined;
use crate::list::{Spelled, put_list};
use crate::page::Page;
use ccsl_ast::{Relation, RelationLine, Spot, SystemLine, Tree};
use ccsl_base::{Memory, Seq};
use ccsl_lex::Reserved;

#[tactic(auto, using(crate::proofs::Steps::number_step))]
fn put_relop(page: &mut Page, relation: Relation) -> Result<(), Memory>
    ensures { OnOk result (page.new ≡ after page.old (relop_spelled relation)) }
{
    match relation {
        Relation::Subclock => page.word(Reserved::Subclock),
        Relation::Coincides => page.word(Reserved::Coincides),
        Relation::Excludes => page.word(Reserved::Excludes),
        Relation::Precedes => page.word(Reserved::Precedes),
        Relation::PrecedesWeakly => {
            page.word(Reserved::Precedes)?;
            page.word(Reserved::Weakly)
        }
        Relation::PrecedesWithin(_, number) => {
            page.word(Reserved::Precedes)?;
            page.word(Reserved::Within)?;
            page.number(number)
        }
    }
}

#[tactic(auto, using(crate::proofs::Steps::after_append))]
fn put_rline(page: &mut Page, line: &RelationLine) -> Result<(), Memory>
    ensures { OnOk result (page.new ≡ after page.old (rline_tokens (plain_line line.now))) }
{
    match line {
        RelationLine::Define(name, tree) => {
            page.word(Reserved::Define)?;
            page.name(name)?;
            page.symbol(b'=')?;
            put_expression(page, tree)?;
            page.symbol(b';')
        }
        RelationLine::Constraint(left, relation, right) => {
            page.name(left)?;
            put_relop(page, *relation)?;
            page.name(right)?;
            page.symbol(b';')
        }
        RelationLine::Call(name, args) => {
            put_call(page, name, args)?;
            page.symbol(b';')
        }
    }
}

impl Spelled for Spot {
    ghost tokens = { clock_spelled };

    fn put(&self, page: &mut Page) -> Result<(), Memory> {
        page.name(self)
    }
}

#[tactic(auto, using(crate::proofs::Steps::after_append))]
fn put_clocks(page: &mut Page, names: &Seq<Spot>) -> Result<(), Memory>
    ensures { OnOk result (page.new ≡ after page.old (sline_tokens (SClocks names.now))) }
{
    page.word(Reserved::Clock)?;
    put_list(page, names.members())?;
    page.symbol(b';')
}

impl Lined for RelationLine {
    ghost lines = { λ l. inner (rline_tokens (plain_line l)) ∷ [] };

    fn put_lines(&self, page: &mut Page) -> Result<(), Memory> {
        page.begin_line(true)?;
        put_rline(page, self)?;
        page.end_line()
    }
}

impl Lined for SystemLine {
    ghost lines = { λ l. inner (sline_tokens (plain_sline l)) ∷ [] };

    fn put_lines(&self, page: &mut Page) -> Result<(), Memory> {
        match self {
            SystemLine::Clocks(names) => {
                page.begin_line(true)?;
                put_clocks(page, names)?;
                page.end_line()
            }
            SystemLine::Line(line) => line.put_lines(page),
        }
    }
}
