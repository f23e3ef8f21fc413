//! The text of a specification, through lexer, parser and elaborator.

ghost use Rattle.std.specs.Prelude.{◌≡◌, ◌≢◌, ◌≤◌, length, IfOk, OnOk};
ghost use Rattle.ccsl_base.specs.declared.limits.TheConstants.{MAX_SPEC_BYTES};
ghost use Rattle.ccsl_ast.specs.Files.{plain_file};
ghost use Rattle.ccsl_report.specs.Texts.{lex_text, parse_text, refusal_text};
ghost use Rattle.ccsl_spec.specs.Found.{IsTree, IsElaborated, IsRead};

use ccsl_ast::File;
use ccsl_base::Memory;
use ccsl_elaborate::elaborate;
use ccsl_kernel::System;
use ccsl_lex::{LexFault, tokens};
use ccsl_library::library;
use ccsl_parse::{ParseFault, parse};
use ccsl_report::{lex_refused, parse_refused, refused};
use ccsl_rules::Refusal;
use std::alloc::Global;

/// What a specification is.
#[derive(Drop)]
pub enum Specification {
    /// It is accepted, as this system.
    Accepted(System),
    /// It is refused, with this line of report.
    Refused(Vec<u8>),
}

/// What the text of a specification is, before it is elaborated.
#[derive(Drop)]
pub enum Tree {
    Read(File),
    Refused(Vec<u8>),
}

// The line on a fault of tokens that is no want of memory.
fn lexical_line(alloc: Global, fault: &LexFault) -> Result<Vec<u8>, Memory>
    ensures cause { OnOk result (fault.now ≢ LexFault.Memory) }
    ensures line { IfOk result (λ line. line.items ≡ lex_text fault.now) }
{
    if matches!(fault, LexFault::Memory) {
        return Err(Memory);
    }
    lex_refused(alloc, fault)
}

// The line on a fault of syntax that is no want of memory.
fn syntax_line(alloc: Global, fault: &ParseFault) -> Result<Vec<u8>, Memory>
    ensures cause { OnOk result (fault.now ≢ ParseFault.Memory) }
    ensures line { IfOk result (λ line. line.items ≡ parse_text fault.now) }
{
    if matches!(fault, ParseFault::Memory) {
        return Err(Memory);
    }
    parse_refused(alloc, fault)
}

// The line on a refusal that is no want of memory.
fn refusal_line(alloc: Global, refusal: &Refusal) -> Result<Vec<u8>, Memory>
    ensures cause { OnOk result (refusal.now ≢ Refusal.Memory) }
    ensures line { IfOk result (λ line. line.items ≡ refusal_text refusal.now) }
{
    if matches!(refusal, Refusal::Memory) {
        return Err(Memory);
    }
    refused(alloc, refusal)
}

// The tree of a text, or the line on its first fault.
fn read_tree(alloc: Global, text: &[u8]) -> Result<Tree, Memory>
    ensures { IfOk result (λ tree. IsTree text.now tree) }
{
    let tokens = match tokens(alloc, text) {
        Ok(tokens) => tokens,
        Err(fault) => return Ok(Tree::Refused(lexical_line(alloc, &fault)?)),
    };
    match parse(alloc, tokens.as_slice()) {
        Ok(file) => Ok(Tree::Read(file)),
        Err(fault) => Ok(Tree::Refused(syntax_line(alloc, &fault)?)),
    }
}

// The system of a tree, or the line on its refusal.
fn elaborated(alloc: Global, file: &File) -> Result<Specification, Memory>
    ensures { IfOk result (λ found. IsElaborated (plain_file file.now) found) }
{
    let library = library(alloc)?;
    match elaborate(alloc, file, &library) {
        Ok(system) => Ok(Specification::Accepted(system)),
        Err(refusal) => Ok(Specification::Refused(refusal_line(alloc, &refusal)?)),
    }
}

/// What a text of at most [`ccsl_base::MAX_SPEC_BYTES`] bytes is: an accepted specification, with its system, or a
/// refused one, with the line of report: of its first fault of tokens, or of its first fault of syntax, or of its
/// refusal behind the library.
pub fn read(alloc: Global, text: &[u8]) -> Result<Specification, Memory>
    requires { length text.now ≤ MAX_SPEC_BYTES }
    ensures { IfOk result (λ found. IsRead text.now found) }
{
    match read_tree(alloc, text)? {
        Tree::Read(file) => elaborated(alloc, &file),
        Tree::Refused(line) => Ok(Specification::Refused(line)),
    }
}
