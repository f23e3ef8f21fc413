//! The parser.

ghost use Rattle.std.specs.Prelude.{◌≡◌, ◌⊎◌, ◌-◌, ◌≤◌, ℕ, [], Err, length, map, take, drop, IfOk, IfErr, IsOkAnd};
ghost use Rattle.ccsl_ast.specs.Trees.{PlainFile};
ghost use Rattle.ccsl_ast.specs.Plain.{plain_sline, plain_parts};
ghost use Rattle.ccsl_ast.specs.Files.{plain_file};
ghost use Rattle.ccsl_grammar.specs.Terminals.{terminals};
ghost use Rattle.ccsl_grammar.specs.Reader.{took, accept};
ghost use Rattle.ccsl_grammar.specs.Parser.{version_of, version_at, system_at, file_at};
ghost use Rattle.ccsl_grammar.specs.File.{Parses};
ghost use Rattle.ccsl_grammar.specs.Faults.{place, last_end, SyntaxAt, TooDeepAt};
ghost use Rattle.ccsl_parse.specs.Reads.{Reads, ReadsAs, Fails};
ghost use Rattle.ccsl_parse.specs.Answered.{StandsIn};

use crate::fault::ParseFault;
use crate::leaf::{before_symbol, symbol_at, word_at};
use crate::repeat::many_at;
use crate::room::Room;
use crate::stop::Stop;
use ccsl_ast::{Definition, File, SystemLine};
use ccsl_base::{MAX_LEVELS, Seq};
use ccsl_lex::{Reserved, Token, TokenKind};
use std::alloc::Global;

/// Which version a number is.
fn number_at<'a>(tokens: &'a [Token]) -> Result<(bool, &'a [Token]), Stop<'a>>
    ensures { Reads result (accept version_of) tokens.now }
{
    match tokens {
        [token, rest @ ..] => match &token.kind {
            TokenKind::Num(1) => Ok((false, rest)),
            TokenKind::Num(2) => Ok((true, rest)),
            _ => Err(Stop::Syntax(tokens)),
        },
        [] => Err(Stop::Syntax(tokens)),
    }
}

/// The first statement: whether it says version 2.
#[tactic(auto, unfolding(ccsl_grammar::specs::Parser::version_at))]
fn version_at<'a>(tokens: &'a [Token]) -> Result<(bool, &'a [Token]), Stop<'a>>
    ensures { Reads result version_at tokens.now }
{
    let rest = word_at(tokens, Reserved::Ccsl)?;
    let (two, rest) = number_at(rest)?;
    let rest = symbol_at(rest, b';')?;
    Ok((two, rest))
}

#[tactic(auto, using(crate::proofs::Lists::unled), unfolding(ccsl_grammar::specs::Parser::system_at))]
fn system_at<'a>(
    alloc: Global,
    room: Room,
    tokens: &'a [Token],
) -> Result<(Seq<SystemLine>, &'a [Token]), Stop<'a>>
    ensures { ReadsAs (map plain_sline) result (system_at room.two room.levels) tokens.now }
{
    let rest = word_at(tokens, Reserved::System)?;
    let rest = symbol_at(rest, b'{')?;
    let (lines, rest) = many_at(alloc, room, Vec::new(alloc), rest)?;
    before_symbol(lines, rest, b'}')
}

/// What a file is made of.
#[derive(Drop)]
struct Parts {
    version: u32,
    definitions: Seq<Definition>,
    lines: Seq<SystemLine>,
}

/// A file, behind which nothing stands.
#[tactic(auto, using(crate::proofs::Lists::unled), unfolding(ccsl_grammar::specs::Parser::file_at))]
fn file_at<'a>(
    alloc: Global,
    levels: u32,
    tokens: &'a [Token],
) -> Result<(Parts, &'a [Token]), Stop<'a>>
    ensures { ReadsAs (λ f. plain_parts f.version f.definitions f.lines) result
        (file_at levels) tokens.now }
{
    let (two, rest) = version_at(tokens)?;
    let version = if two { 2 } else { 1 };
    let room = Room { levels, two };
    let (definitions, rest) = many_at(alloc, room, Vec::new(alloc), rest)?;
    let (lines, rest) = system_at(alloc, room, rest)?;
    match rest {
        [] => Ok((
            Parts {
                version,
                definitions,
                lines,
            },
            rest,
        )),
        _ => Err(Stop::Syntax(rest)),
    }
}

fn last_end(tokens: &[Token]) -> usize
    ensures { result ≡ last_end tokens.now }
{
    match tokens.last() {
        Some(token) => token.end,
        None => 0,
    }
}

/// Where a fault stands that so many tokens are left from.
fn place(tokens: &[Token], left: usize) -> usize
    requires { left ≤ length tokens.now }
    ensures { result ≡ place (take (length tokens.now - left) tokens.now)
        (drop (length tokens.now - left) tokens.now) }
{
    let (front, back) = tokens.split_at(tokens.len() - left);
    match back {
        [token, ..] => token.at,
        [] => last_end(front),
    }
}

/// The fault at which the parser stopped.
fn fault(tokens: &[Token], stop: Stop) -> ParseFault
    requires { Fails stop (file_at MAX_LEVELS (terminals tokens.now)) }
    ensures { StandsIn result tokens.now }
{
    match stop {
        Stop::Memory => ParseFault::Memory,
        Stop::Syntax(rest) => ParseFault::Syntax(place(tokens, rest.len())),
        Stop::TooDeep(rest) => ParseFault::TooDeep(place(tokens, rest.len())),
    }
}

/// The tree of a list of tokens, or its first fault.
///
/// The list may be any list, and need not be that of a text.
pub fn parse(alloc: Global, tokens: &[Token]) -> Result<File, ParseFault>
    ensures tree { IfOk result (λ file.
        Parses MAX_LEVELS (terminals tokens.now) (plain_file file)) }
    ensures fault { IfErr result (λ fault. StandsIn fault tokens.now) }

    // Each answer comes wherever it is true of the tokens, unless memory runs out.
    ensures each_tree { (f : PlainFile) → Parses MAX_LEVELS (terminals tokens.now) f
        → IsOkAnd result (λ file. plain_file file ≡ f) ⊎ (result ≡ Err ParseFault.Memory) }
    ensures each_syntax { (at : ℕ) → SyntaxAt MAX_LEVELS tokens.now at
        → (result ≡ Err (ParseFault.Syntax at)) ⊎ (result ≡ Err ParseFault.Memory) }
    ensures each_too_deep { (at : ℕ) → TooDeepAt MAX_LEVELS tokens.now at
        → (result ≡ Err (ParseFault.TooDeep at)) ⊎ (result ≡ Err ParseFault.Memory) }
{
    match file_at(alloc, MAX_LEVELS, tokens) {
        Ok((parts, _)) => {
            let Parts {
                version,
                definitions,
                lines,
            } = parts;
            Ok(File {
                version,
                definitions,
                lines,
            })
        }
        Err(stop) => Err(fault(tokens, stop)),
    }
}
