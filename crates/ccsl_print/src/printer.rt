//! The canonical text of a file.

ghost use Rattle.std.specs.Prelude.{◌≡◌, ◌∷◌, ◌++◌, [], map, OnOk, IfOk, string_bytes};
ghost use Rattle.ccsl_ast.specs.Plain.{plain_sline};
ghost use Rattle.ccsl_ast.specs.Files.{plain_file};
ghost use Rattle.ccsl_grammar.specs.Terminals as t;
ghost use Rattle.ccsl_grammar.specs.Canonical.{outer, system_lines, file_lines};
ghost use Rattle.ccsl_print.specs.CanonicalText.{canonical_text};
ghost use Rattle.ccsl_print.specs.Pages.{line_after, lines_after};
ghost use Rattle.ccsl_print.specs.ReadsBack.{ReadsBack};

use crate::definition::put_closing_line;
use crate::lines::put_all;
use crate::page::Page;
use ccsl_ast::{File, SystemLine};
use ccsl_base::{Memory, Seq};
use ccsl_lex::Reserved;
use std::alloc::Global;

/// Puts the line of the version.
#[tactic(auto, using(crate::proofs::Steps::number_step))]
pub fn put_version(page: &mut Page, version: u32) -> Result<(), Memory>
    ensures { OnOk result (page.new ≡ line_after page.old
        (outer (t.word Reserved.Ccsl ∷ t.number 0 version ∷ t.symbol 59 ∷ []))) }
{
    page.begin_line(false)?;
    page.word(Reserved::Ccsl)?;
    page.number(version)?;
    page.symbol(b';')?;
    page.end_line()
}

fn put_system_head(page: &mut Page) -> Result<(), Memory>
    ensures { OnOk result (page.new ≡ line_after page.old
        (outer (t.word Reserved.System ∷ t.symbol 123 ∷ []))) }
{
    page.begin_line(false)?;
    page.word(Reserved::System)?;
    page.symbol(b'{')?;
    page.end_line()
}

/// Puts the system, with a line for each of its lines.
#[tactic(auto, using(crate::proofs::Steps::lines_append, crate::proofs::Steps::slines_lined))]
pub fn put_system(page: &mut Page, lines: &Seq<SystemLine>) -> Result<(), Memory>
    ensures { OnOk result (page.new ≡ lines_after page.old
        (system_lines (map plain_sline lines.now))) }
{
    put_system_head(page)?;
    put_all(page, lines.members())?;
    put_closing_line(page)
}

#[tactic(auto, using(crate::proofs::Steps::lines_append, crate::proofs::Steps::defined))]
fn put_file(page: &mut Page, file: &File) -> Result<(), Memory>
    ensures { OnOk result (page.new ≡ lines_after page.old (file_lines (plain_file file.now))) }
{
    put_version(page, file.version)?;
    put_all(page, file.definitions.members())?;
    put_system(page, &file.lines)
}

/// The canonical text of the file.
///
/// The first statement, each relation's head line, each line of a body, each closing brace, each group and the system's
/// head line stand on lines of their own. What the file keeps makes this a text whose tokens have the tree of the file.
pub fn print(alloc: Global, file: &File) -> Result<String, Memory>
    ensures text { IfOk result (λ text. string_bytes text ≡ canonical_text (plain_file file.now)) }
    ensures reads_back { IfOk result (λ text. ReadsBack (string_bytes text) (plain_file file.now)) }
{
    let mut page = Page::new(alloc);
    put_file(&mut page, file)?;
    Ok(page.into_text())
}
