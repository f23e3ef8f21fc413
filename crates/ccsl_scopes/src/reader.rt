//! Reading a header.

ghost use Rattle.std.specs.Prelude.{◌≡◌, ◌⊎◌, ◌<◌, ◌≤◌, ◌++◌, ◌+◌, ◌∷◌, [], ℕ, List, length, nat_le, nat_lt, if◌then◌else◌, true, false, Option, Some, None};
ghost use Rattle.std.specs.Prelude.{OnOk, IfOk, IfErr};
ghost use Rattle.ccsl_base.specs.Names.{find_name};
ghost use Rattle.ccsl_vcd_lex.specs.Tokens.{Token, token};
ghost use Rattle.ccsl_vcd.specs.Places.{Among, commands};
ghost use Rattle.ccsl_vcd.specs.Header.{is_code};
ghost use Rattle.ccsl_scopes.specs.Headings.{Heading, kind_named, size_of, with_code, header_word, put_spaced, word_fits, declares, starts, ends};
ghost use Rattle.ccsl_scopes.specs.Headings.{heading_says, outer, begin};
ghost use Rattle.ccsl_scopes.specs.Standing.{Holds, StandsIn, StandsBetween, Counts, Stands, Answers, Extends, Fits, Declares, Opens, IsOver, IsHeaderOf};
ghost use Rattle.ccsl_scopes.specs.Standing.{text_in};

use crate::command::{HeaderWord, header_word};
use crate::header::Header;
use crate::reference::split;
use crate::variable::{Kind, Variable};
use ccsl_base::{HashKeys, Memory, decimal, is_text};
use ccsl_vcd::{Limits, VcdFault, is_code};
use std::alloc::Global;

/// Takes the tokens of a header.
#[derive(Drop)]
pub struct HeaderReader {
    alloc: Global,
    pub(crate) limits: Limits,
    pub(crate) header: Header,
    // the names of the open scopes, with a blank behind each, and where each begins
    pub(crate) scopes: Vec<u8>,
    pub(crate) begins: Vec<usize>,
    // the word that began the open command, and its place
    pub(crate) command: Option<HeaderWord>,
    pub(crate) head: u64,
    // how many words the open command has, none counted behind the fourth
    pub(crate) words: u64,
    // of an open declaration
    pub(crate) kind: Kind,
    pub(crate) size: u32,
    pub(crate) code: u32,
    pub(crate) reference: Vec<u8>,
    // how many bytes of the reference are its first word's
    pub(crate) first: usize,
}

fn kind_of(text: &[u8]) -> Kind
    ensures { result ≡ kind_named text.now }
{
    if is_text(text, b"event") {
        Kind::Event
    } else if is_text(text, b"real") || is_text(text, b"realtime") || is_text(text, b"string") {
        Kind::Other
    } else {
        Kind::Bits
    }
}

// A word behind others, with a blank between.
fn put_spaced(text: &[u8], scale: &mut Vec<u8>) -> Result<(), Memory>
    ensures { OnOk result (scale.new.items ≡ put_spaced scale.old.items text.now) }
{
    if !scale.is_empty() {
        scale.push(b' ')?;
    }
    scale.extend_from_slice(text)?;
    Ok(())
}

impl HeaderReader {
    /// A reader before the first token. The keys hash the codes.
    pub fn new(alloc: Global, keys: HashKeys, limits: Limits) -> HeaderReader
        ensures { Stands limits begin commands result }
    {
        HeaderReader {
            alloc,
            limits,
            header: Header::new(alloc, keys),
            scopes: Vec::new(alloc),
            begins: Vec::new(alloc),
            command: None,
            head: 0,
            words: 0,
            kind: Kind::Bits,
            size: 0,
            code: 0,
            reference: Vec::new(alloc),
            first: 0,
        }
    }

    // A command begins.
    fn enter(&mut self, word: HeaderWord, at: u64)
        ensures { self.new ≡ record self.old { command = Some word; head = at; words = 0 } }
    {
        self.command = Some(word);
        self.head = at;
        self.words = 0;
    }

    // Whether there is no room for one more variable.
    fn is_full(&self) -> bool
        ensures { result ≡ nat_le self.now.limits.vars (length self.now.header.variables.items) }
    {
        self.header.variables.len() as u64 >= u64::from(self.limits.vars)
    }

    // A token in a command's place.
    fn start(&mut self, at: u64, text: &[u8]) -> Result<(), VcdFault>
        ensures { (limits : Limits) (h : Heading) → StandsBetween limits h self.old →
            Opens limits (starts limits h (token at text.now) (header_word text.now)) result
            self.new }
    {
        let word = header_word(text);
        match word {
            HeaderWord::End | HeaderWord::Plain => Err(VcdFault::BadHeader { at }),
            HeaderWord::Var => {
                if self.is_full() {
                    return Err(VcdFault::TooManyVars { at });
                }
                Ok(self.enter(word, at))
            }
            HeaderWord::Scope => {
                self.begins.push(self.scopes.len())?;
                Ok(self.enter(word, at))
            }
            HeaderWord::Timescale => {
                self.header.timescale = Some(Vec::new(self.alloc));
                Ok(self.enter(word, at))
            }
            HeaderWord::Upscope | HeaderWord::EndDefinitions | HeaderWord::OtherCommand => {
                Ok(self.enter(word, at))
            }
        }
    }

    fn take_size(&mut self, at: u64, text: &[u8]) -> Result<(), VcdFault>
        ensures ok { OnOk result (size_of text.now ≡ Some self.new.size) }
        ensures kept { self.new ≡ record self.old { size = self.new.size } }
        ensures refused { IfErr result (λ f. (f ≡ VcdFault.BadHeader at)
            × (size_of text.now ≡ None)) }
    {
        let Some(size) = decimal(text, u64::from(u32::MAX)) else {
            return Err(VcdFault::BadHeader { at });
        };
        self.size = size as u32;
        Ok(())
    }

    fn take_code(&mut self, at: u64, text: &[u8]) -> Result<(), VcdFault>
        ensures fits { OnOk result (is_code text.now ≡ true) }
        ensures known { OnOk result (self.new.header.codes
            ≡ with_code self.old.header.codes text.now) }
        ensures number { OnOk result
            (find_name text.now self.new.header.codes ≡ Some self.new.code) }
        ensures variables { OnOk result (self.new.header.variables ≡ self.old.header.variables) }
        ensures timescale { OnOk result (self.new.header.timescale ≡ self.old.header.timescale) }
        ensures kept { OnOk result (self.new ≡ record self.old {
          header = self.new.header;
          code = self.new.code;
        }) }
        ensures refused { IfErr result (λ f.
            ((f ≡ VcdFault.BadHeader at) × (is_code text.now ≡ false))
            ⊎ ((is_code text.now ≡ true)
            × ((f ≡ VcdFault.Memory) ⊎ (self.old.limits.vars ≤ length self.old.header.codes)))) }
    {
        if !is_code(text) {
            return Err(VcdFault::BadHeader { at });
        }
        self.code = self.header.code(self.limits.vars, at, text)?;
        Ok(())
    }

    // The first word of a reference.
    fn take_first(&mut self, text: &[u8]) -> Result<(), Memory>
        ensures reference { OnOk result (self.new.reference.items ≡ text.now) }
        ensures kept { OnOk result (self.new ≡ record self.old {
          reference = self.new.reference;
          first = length text.now;
        }) }
    {
        self.reference.clear();
        self.reference.extend_from_slice(text)?;
        self.first = text.len();
        Ok(())
    }

    // Another one.
    fn take_more(&mut self, text: &[u8]) -> Result<(), Memory>
        ensures reference { OnOk result (self.new.reference.items
            ≡ self.old.reference.items ++ text.now) }
        ensures kept { OnOk result (self.new ≡ record self.old { reference = self.new.reference }) }
    {
        self.reference.extend_from_slice(text)?;
        Ok(())
    }

    // A word of a declaration: its type, size and code, and those of its reference.
    fn take_part(&mut self, at: u64, text: &[u8]) -> Result<(), VcdFault>
        ensures parts { (limits : Limits) (h : Heading) (head : Token) (words : List Token) →
            StandsIn limits h HeaderWord.Var head words self.old → Counts words self.old →
            Extends (word_fits HeaderWord.Var words (token at text.now))
            limits h HeaderWord.Var head words (token at text.now) result self.new }
        ensures count { OnOk result (self.new.words ≡ self.old.words) }
    {
        match self.words {
            0 => {
                self.kind = kind_of(text);
                Ok(())
            }
            1 => self.take_size(at, text),
            2 => self.take_code(at, text),
            3 => Ok(self.take_first(text)?),
            _ => Ok(self.take_more(text)?),
        }
    }

    // A word of a scope: its name stands behind its type.
    fn take_name(&mut self, text: &[u8]) -> Result<(), Memory>
        ensures name { OnOk result (self.new.scopes.items
            ≡ self.old.scopes.items ++ (if nat_lt 0 self.old.words then text.now else [])) }
        ensures kept { OnOk result (self.new ≡ record self.old { scopes = self.new.scopes }) }
    {
        if self.words > 0 {
            self.scopes.extend_from_slice(text)?;
        }
        Ok(())
    }

    fn take_timescale(&mut self, text: &[u8]) -> Result<(), Memory>
        ensures text { OnOk result ((before : List ℕ) →
            text_in self.old.header.timescale ≡ Some before →
            text_in self.new.header.timescale ≡ Some (put_spaced before text.now)) }
        ensures variables { OnOk result (self.new.header.variables ≡ self.old.header.variables) }
        ensures codes { OnOk result (self.new.header.codes ≡ self.old.header.codes) }
        ensures kept { OnOk result (self.new ≡ record self.old { header = self.new.header }) }
    {
        if let Some(scale) = &mut self.header.timescale {
            put_spaced(text, scale)?;
        }
        Ok(())
    }

    // One word more is counted.
    fn count(&mut self)
        ensures { self.new ≡ record self.old {
          words = if nat_lt self.old.words 4 then self.old.words + 1 else self.old.words;
        } }
    {
        if self.words < 4 {
            self.words += 1;
        }
    }

    // A token inside a command that does not end it.
    fn take_word(&mut self, word: HeaderWord, at: u64, text: &[u8]) -> Result<(), VcdFault>
        ensures { (limits : Limits) (h : Heading) (head : Token) (words : List Token) →
            StandsIn limits h word head words self.old → Counts words self.old →
            Fits (word_fits word words (token at text.now))
            limits h word head words (token at text.now) result self.new }
    {
        match word {
            HeaderWord::Var => {
                self.take_part(at, text)?;
                Ok(self.count())
            }
            HeaderWord::Scope => {
                self.take_name(text)?;
                Ok(self.count())
            }
            HeaderWord::Timescale => {
                self.take_timescale(text)?;
                Ok(self.count())
            }
            HeaderWord::Upscope
            | HeaderWord::EndDefinitions
            | HeaderWord::OtherCommand
            | HeaderWord::End
            | HeaderWord::Plain => Ok(self.count()),
        }
    }

    fn end_scope(&mut self) -> Result<(), VcdFault>
        ensures ok { OnOk result (length self.old.begins.items ≤ self.old.limits.scopes) }
        ensures name { OnOk result (self.new.scopes.items ≡ self.old.scopes.items ++ 32 ∷ []) }
        ensures kept { OnOk result (self.new ≡ record self.old { scopes = self.new.scopes }) }
        ensures refused { IfErr result (λ f. (f ≡ VcdFault.Memory)
            ⊎ ((f ≡ VcdFault.TooDeep self.old.head)
            × (self.old.limits.scopes < length self.old.begins.items))) }
    {
        if self.begins.len() as u64 > u64::from(self.limits.scopes) {
            return Err(VcdFault::TooDeep { at: self.head });
        }
        self.scopes.push(b' ')?;
        Ok(())
    }

    fn end_upscope(&mut self)
        ensures { (limits : Limits) (h : Heading) (known : List (List ℕ))
            (scale : Option (List ℕ)) →
            Holds limits h [] [] known scale self.old →
            Holds limits (record h { scopes = outer h.scopes }) [] [] known scale self.new }
    {
        if let Some(begin) = self.begins.pop() {
            self.scopes.truncate(begin);
        }
    }

    // The path of a variable in the open scopes.
    fn path(&self) -> Result<Vec<u8>, Memory>
        ensures { IfOk result (λ path. path.items
            ≡ self.now.scopes.items ++ self.now.reference.items) }
    {
        let room = self.scopes.len().saturating_add(self.reference.len());
        let mut path = Vec::with_capacity(self.alloc, room)?;
        path.extend_from_slice(self.scopes.as_slice())?;
        path.extend_from_slice(self.reference.as_slice())?;
        Ok(path)
    }

    // The end of a declaration, which is to have four words at least. Its code is declared then; the test of it stands
    // for the fact that a header keeps of its variables.
    fn declare(&mut self, at: u64) -> Result<(), VcdFault>
        ensures { (limits : Limits) (h : Heading) (head : Token) (words : List Token) →
            StandsIn limits h HeaderWord.Var head words self.old → Counts words self.old →
            Declares limits h at (declares h.scopes words) result self.new }
    {
        if self.words < 4 || self.code >= self.header.codes.len() {
            return Err(VcdFault::BadHeader { at });
        }
        let path = self.path()?;
        let first = self.first.min(self.reference.len());
        let reference = split(self.reference.as_slice(), first);
        self.header.put(Variable {
            kind: self.kind,
            size: self.size,
            code: self.code,
            path,
            bare: self.scopes.len().saturating_add(reference.bare),
            range: reference.range,
        })?;
        Ok(())
    }

    // The open command is over, and the header is not.
    fn close(&mut self) -> bool
        ensures value { result ≡ false }
        ensures closed { self.new ≡ record self.old { command = None } }
    {
        self.command = None;
        false
    }

    // The end of the open command, and whether it ends the header.
    fn end(&mut self, word: HeaderWord, at: u64) -> Result<bool, VcdFault>
        ensures { (limits : Limits) (h : Heading) (head : Token)
            (words : List Token) (text : List ℕ) →
            StandsIn limits h word head words self.old → Counts words self.old →
            Answers limits (ends limits h word head words (token at text)) result self.new }
    {
        match word {
            HeaderWord::EndDefinitions => Ok(true),
            HeaderWord::Var => {
                self.declare(at)?;
                Ok(self.close())
            }
            HeaderWord::Scope => {
                self.end_scope()?;
                Ok(self.close())
            }
            HeaderWord::Upscope => {
                self.end_upscope();
                Ok(self.close())
            }
            HeaderWord::Timescale
            | HeaderWord::OtherCommand
            | HeaderWord::End
            | HeaderWord::Plain => Ok(self.close()),
        }
    }

    /// Takes a token that ended, at a place, and answers whether it ends the header.
    pub fn hear(&mut self, at: u64, text: &[u8]) -> Result<bool, VcdFault>
        ensures { (limits : Limits) (h : Heading) (among : Among) → Stands limits h among self.old →
            Answers limits (heading_says limits h (token at text.now) among) result self.new }
    {
        let Some(word) = self.command else {
            self.start(at, text)?;
            return Ok(false);
        };
        if is_text(text, b"$end") {
            return self.end(word, at);
        }
        self.take_word(word, at, text)?;
        Ok(false)
    }

    /// What was declared.
    pub fn into_header(self) -> Header
        ensures { (h : Heading) → IsOver h self → IsHeaderOf h result }
    {
        self.header
    }
}
