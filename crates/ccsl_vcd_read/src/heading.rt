//! The tokens of a header.

ghost use Rattle.std.specs.Prelude.{◌≡◌, ◌≢◌, ◌<◌, ◌+◌, ◌++◌, ◌∷◌, [], ℕ, List, length, IfOk, IfErr};
ghost use Rattle.ccsl_vcd.specs.declared.fault.VcdFault.TheVariants.{Memory};
ghost use Rattle.ccsl_vcd_read.specs.declared.command.Command.TheVariants.{Between};
ghost use Rattle.ccsl_vcd.specs.Header.{header_word, end_command};
ghost use Rattle.ccsl_vcd_lex.specs.Tokens.{token, word};
ghost use Rattle.ccsl_vcd.specs.Binding.{Wanted, Declaration};
ghost use Rattle.ccsl_vcd.specs.Reading.{Story, next};
ghost use Rattle.ccsl_bind.specs.Gathered.{StandsFor};
ghost use Rattle.ccsl_vcd_read.specs.Meant.{header_meant};
ghost use Rattle.ccsl_vcd_read.specs.Heading.{start_of, size_in, code_in, word_in, end_in, reference_in, Becomes, HeadShows, HeadGoes, Refuses, Caused};
ghost use Rattle.ccsl_vcd_read.specs.Heading.{declared_in};

use crate::buffer::Buffer;
use crate::command::{Command, HeaderWord, header_word};
use crate::number::number;
use ccsl_base::is_text;
use ccsl_bind::Binder;
use ccsl_vcd::{Limits, VcdFault, is_code};
use std::alloc::Global;

/// What is kept of a header that is being read: the words of the declaration that is open, and of all before it what
/// the binder keeps.
#[derive(Drop)]
pub(crate) struct Heading {
    pub binder: Binder,
    pub depth: u32,
    pub vars: u32,
    pub command: Command,
    pub kind: Buffer,
    pub size: u32,
    pub code: Buffer,
    pub reference: Buffer,
    /// how many bytes of the reference are its first token's
    pub first: usize,
}

// The reference of a declaration, by all its tokens joined and the length of the first.
fn reference_in(all: &[u8], first: usize) -> &[u8]
    ensures { result.now ≡ reference_in all.now first }
{
    if first <= all.len() && is_text(&all[first..], b"[0:0]") {
        return &all[..first];
    }
    all
}

impl Heading {
    // A token in a command's place.
    fn start(&mut self, limits: Limits, at: u64, word: HeaderWord) -> Result<(), VcdFault>
        ensures { Becomes (start_of limits self.old at (header_meant word)) result self.new }
    {
        self.command = match word {
            HeaderWord::End | HeaderWord::Plain => return Err(VcdFault::BadHeader { at }),
            HeaderWord::Var if self.vars >= limits.vars => {
                return Err(VcdFault::TooManyVars { at });
            }
            HeaderWord::Var => Command::Kind,
            HeaderWord::Scope => Command::Scope(at),
            HeaderWord::Upscope => Command::Upscope,
            HeaderWord::EndDefinitions => Command::EndDefinitions,
            HeaderWord::OtherCommand => Command::Other,
        };
        Ok(())
    }

    fn take_size(&mut self, at: u64, text: &[u8]) -> Result<(), VcdFault>
        ensures { Becomes (size_in self.old at text.now) result self.new }
    {
        let Some(size) = number(u64::from(u32::MAX), text) else {
            return Err(VcdFault::BadHeader { at });
        };
        self.size = size as u32;
        self.command = Command::Code;
        Ok(())
    }

    fn take_code(&mut self, at: u64, text: &[u8]) -> Result<(), VcdFault>
        ensures { Becomes (code_in self.old at text.now) result self.new }
    {
        if !is_code(text) {
            return Err(VcdFault::BadHeader { at });
        }
        self.code.set(text)?;
        self.command = Command::Reference;
        Ok(())
    }

    // A token inside a command that does not end it.
    fn take_word(&mut self, at: u64, text: &[u8]) -> Result<(), VcdFault>
        ensures { Becomes (word_in self.old at text.now self.old.command) result self.new }
    {
        match self.command {
            Command::Kind => {
                self.kind.set(text)?;
                self.command = Command::Size;
            }
            Command::Size => return self.take_size(at, text),
            Command::Code => return self.take_code(at, text),
            Command::Reference => {
                self.reference.set(text)?;
                self.first = text.len();
                self.command = Command::More;
            }
            Command::More => self.reference.add(text)?,
            _ => {}
        }
        Ok(())
    }

    // The end of a command that is no whole declaration, and not the header's last.
    fn end(&mut self, limits: Limits, at: u64) -> Result<(), VcdFault>
        ensures { Becomes (end_in limits self.old at self.old.command) result self.new }
    {
        match self.command {
            Command::Scope(head) => {
                if self.depth >= limits.scopes {
                    return Err(VcdFault::TooDeep { at: head });
                }
                self.depth += 1;
            }
            Command::Upscope => self.depth = self.depth.saturating_sub(1),
            Command::Other | Command::EndDefinitions | Command::More => {}
            _ => return Err(VcdFault::BadHeader { at }),
        }
        self.command = Command::Between;
        Ok(())
    }

    // The end of a whole declaration.
    fn declare(&mut self) -> Result<(), VcdFault>
        requires { (wanted : Wanted) × (ds : List Declaration) × StandsFor wanted self.old.binder ds
            × (length ds < 4294967295) × (self.old.vars ≡ length ds) }
        ensures declared { IfOk result (λ _. (wanted : Wanted) (ds : List Declaration) →
            StandsFor wanted self.old.binder ds →
            StandsFor wanted self.new.binder (ds ++ declared_in self.old ∷ [])) }
        ensures kept { IfOk result (λ _. self.new ≡ record self.old {
          binder = self.new.binder;
          vars = self.old.vars + 1;
          command = Between;
        }) }
        ensures memory { IfErr result (λ f. f ≡ Memory) }
    {
        self.binder.declare(
            self.depth,
            self.kind.bytes(),
            self.size,
            self.code.bytes(),
            reference_in(self.reference.bytes(), self.first),
        )?;
        self.vars += 1;
        self.command = Command::Between;
        Ok(())
    }

    // The end of a command, and whether it ends the header.
    fn end_command(&mut self, limits: Limits, at: u64) -> Result<bool, VcdFault>
        requires stands { (wanted : Wanted) × (st : Story) × HeadShows wanted limits self.old st }
        requires inside { self.old.command ≢ Between }
        ensures goes { IfOk result (λ over. (wanted : Wanted) (st : Story) (text : List ℕ) →
            HeadShows wanted limits self.old st → header_word text ≡ end_command →
            HeadGoes over wanted limits self.new st
            (next wanted limits st (word (token at text)))) }
        ensures refuses { IfErr result (λ f.
            Caused f ((wanted : Wanted) (st : Story) (text : List ℕ) →
            HeadShows wanted limits self.old st → header_word text ≡ end_command →
            Refuses f st (next wanted limits st (word (token at text))))) }
    {
        match self.command {
            Command::EndDefinitions => Ok(true),
            Command::More => match self.declare() {
                Ok(()) => Ok(false),
                Err(fault) => Err(fault),
            },
            _ => match self.end(limits, at) {
                Ok(()) => Ok(false),
                Err(fault) => Err(fault),
            },
        }
    }

    /// A token that ended, at a place, and whether it ends the header.
    pub(crate) fn hear(&mut self, limits: Limits, at: u64, text: &[u8]) -> Result<bool, VcdFault>
        requires { (wanted : Wanted) × (st : Story) × HeadShows wanted limits self.old st }
        ensures goes { IfOk result (λ over. (wanted : Wanted) (st : Story) →
            HeadShows wanted limits self.old st →
            HeadGoes over wanted limits self.new st
            (next wanted limits st (word (token at text.now)))) }
        ensures refuses { IfErr result (λ f.
            Caused f ((wanted : Wanted) (st : Story) → HeadShows wanted limits self.old st →
            Refuses f st (next wanted limits st (word (token at text.now))))) }
    {
        match self.command {
            Command::Between => match self.start(limits, at, header_word(text)) {
                Ok(()) => Ok(false),
                Err(fault) => Err(fault),
            },
            _ if is_text(text, b"$end") => self.end_command(limits, at),
            _ => match self.take_word(at, text) {
                Ok(()) => Ok(false),
                Err(fault) => Err(fault),
            },
        }
    }
}
