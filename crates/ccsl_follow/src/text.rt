//! The text of a specification, read once more and understood.

ghost use Rattle.std.specs.Prelude.{OnOk};
ghost use Rattle.ccsl_edge.specs.declared.slot.Slot.TheVariants.{Spec};
ghost use Rattle.ccsl_edge.specs.Counts.{SameCounts};
ghost use Rattle.ccsl_follow.specs.OnlyReads.{OnlyReads};

use crate::reading::read_file;
use crate::stop::Stop;
use ccsl_ast::File;
use ccsl_base::{MAX_SPEC_BYTES, Memory};
use ccsl_edge::{Slot, World};
use ccsl_elaborate::elaborate;
use ccsl_kernel::System;
use ccsl_lex::{LexFault, tokens};
use ccsl_library::library;
use ccsl_parse::{ParseFault, parse};
use ccsl_rules::Refusal;
use std::alloc::Global;

/// Reads the whole text.
pub fn read_text<W: World>(alloc: Global, world: &mut W, name: &str) -> Result<Vec<u8>, Stop>
    requires { W.allows Spec name.now }
    ensures reads { OnlyReads (W.state world.old) (W.state world.new) }
    ensures calm { OnOk result (SameCounts (W.state world.old) (W.state world.new)) }
{
    match read_file(alloc, world, Slot::Spec, name, MAX_SPEC_BYTES) {
        Ok(Some(text)) => Ok(text),
        Ok(None) => Err(Stop::Fault),
        Err(stop) => Err(stop),
    }
}

/// What refuses a text: what it says, and where.
#[derive(Clone, Copy)]
pub enum TextFault {
    Token(LexFault),
    Syntax(ParseFault),
    Refused(Refusal),
}

/// A text as a tree and a system, or what refuses it.
#[derive(Drop)]
pub enum Understood {
    Accepted {
        file: File,
        library: File,
        system: System,
    },
    Refused(TextFault),
}

fn elaborated(alloc: Global, file: File) -> Result<Understood, Memory> {
    let library = library(alloc)?;
    match elaborate(alloc, &file, &library) {
        Ok(system) => Ok(Understood::Accepted {
            file,
            library,
            system,
        }),
        Err(refusal) => Ok(Understood::Refused(TextFault::Refused(refusal))),
    }
}

/// Understands a text.
pub fn understand(alloc: Global, text: &[u8]) -> Result<Understood, Memory> {
    let tokens = match tokens(alloc, text) {
        Ok(tokens) => tokens,
        Err(fault) => return Ok(Understood::Refused(TextFault::Token(fault))),
    };
    match parse(alloc, tokens.as_slice()) {
        Ok(file) => elaborated(alloc, file),
        Err(fault) => Ok(Understood::Refused(TextFault::Syntax(fault))),
    }
}

impl TextFault {
    /// The byte at which the text is refused. None where that is a total.
    pub fn at(self) -> Option<usize> {
        match self {
            TextFault::Token(fault) => match fault {
                LexFault::BadByte(at)
                | LexFault::NameTooLong(at)
                | LexFault::NumberTooLarge(at)
                | LexFault::OpenText(at) => Some(at),
                LexFault::Memory => None,
            },
            TextFault::Syntax(fault) => match fault {
                ParseFault::Syntax(at) | ParseFault::TooDeep(at) => Some(at),
                ParseFault::Memory => None,
            },
            TextFault::Refused(refusal) => match refusal {
                Refusal::Duplicate(at)
                | Refusal::Unknown(at)
                | Refusal::Later(at)
                | Refusal::WrongKind(at)
                | Refusal::Unguarded(at)
                | Refusal::TooTall(at)
                | Refusal::Arguments(at)
                | Refusal::BadWord(at) => Some(at),
                Refusal::TooManyClocks(_)
                | Refusal::TooManyConstraints(_)
                | Refusal::StateTooLarge(_)
                | Refusal::Memory => None,
            },
        }
    }
}
