//! Reading paths and conditions.

ghost use Rattle.std.specs.Prelude.{◌≡◌, ◌≤◌, ◌++◌, ◌==◌, [], ℕ, List, IfOk, OnOk, true, false, not, filter, length, is_some, option_map};
ghost use Rattle.std.specs.Option.{unwrap_or};
ghost use Rattle.ccsl_event_file.specs.Fronts.{seen};
ghost use Rattle.ccsl_event_file.specs.File.{Draft, first_part, behind_part, behind_left, bracket, behind_path, behind, path, with_condition, is_mark};
ghost use Rattle.ccsl_event_file.specs.File.{index_of, comparison_of};
ghost use Rattle.ccsl_event_file.specs.Parsing.{ahead, next_is, next_token, part_seen, value_seen, path_in, condition_in, is_condition, IsPart, Reads};
ghost use Rattle.ccsl_event_file.specs.Parsing.{ReadsValue};
ghost use Rattle.ccsl_event_file.specs.Values.{value_of};

use crate::event::{Condition, Located};
use crate::fault::EventFault;
use crate::parser::Parser;
use crate::token::Token;
use crate::value::{of_letters, of_word};
use ccsl_base::{Memory, decimal};
use ccsl_scopes::{Path, Select};

fn put_without_blanks(text: &[u8], parts: &mut Vec<u8>) -> Result<(), Memory>
    ensures { OnOk result (parts.new.items
        ≡ parts.old.items ++ filter (λ b. not (b == 32)) text.now) }
{
    for b in text {
        if *b != b' ' {
            parts.push(*b)?;
        }
    }
    Ok(())
}

// Puts the part of a path that a token is behind others, if it is one. Blanks between quotes are left out, since no
// name in a dump has one.
fn put_part(next: Token<'_>, parts: &mut Vec<u8>) -> Result<bool, Memory>
    ensures is { IfOk result (λ put. put ≡ is_some (part_seen (seen next.entry))) }
    ensures put { OnOk result (parts.new.items
        ≡ parts.old.items ++ unwrap_or (part_seen (seen next.entry)) []) }
{
    match next {
        Token::Word(word) => {
            parts.extend_from_slice(word)?;
            Ok(true)
        }
        Token::Quoted(text) => {
            put_without_blanks(text, parts)?;
            Ok(true)
        }
        _ => Ok(false),
    }
}

impl Parser<'_> {
    fn part(&mut self, parts: &mut Vec<u8>) -> Result<(), EventFault>
        ensures len { self.new.len ≡ self.old.len }
        ensures reads { IsPart result self.old.len parts.old.items parts.new.items
            (ahead self.old.len self.old.rest.now) (ahead self.new.len self.new.rest.now) }
        ensures within { length self.new.rest.now ≤ length self.old.rest.now }
    {
        if !put_part(self.peek(), parts)? {
            return Err(self.syntax());
        }
        self.advance();
        Ok(())
    }

    fn index(&mut self) -> Result<u32, EventFault>
        ensures len { self.new.len ≡ self.old.len }
        ensures reads { ReadsValue result index_of (λ n. n) self.old.len
            (ahead self.old.len self.old.rest.now) (ahead self.new.len self.new.rest.now) }
        ensures within { length self.new.rest.now ≤ length self.old.rest.now }
    {
        let Token::Word(word) = self.peek() else {
            return Err(self.syntax());
        };
        match decimal(word, u64::from(u32::MAX - 1)) {
            Some(value) => {
                self.advance();
                Ok(value as u32)
            }
            None => Err(self.syntax()),
        }
    }

    // The end of what stands in brackets.
    fn bracket(&mut self, select: Select) -> Result<Select, EventFault>
        ensures len { self.new.len ≡ self.old.len }
        ensures reads { (d : Draft) (at : ℕ) (parts : List ℕ) →
            Reads result self.old.len (bracket d (path at parts select))
            (ahead self.old.len self.old.rest.now)
            (λ select. behind_path d (path at parts select))
            (ahead self.new.len self.new.rest.now) }
        ensures within { length self.new.rest.now ≤ length self.old.rest.now }
    {
        self.expect_mark(b']')?;
        Ok(select)
    }

    // What stands in brackets, behind the first number.
    fn range(&mut self, left: u32) -> Result<Select, EventFault>
        ensures len { self.new.len ≡ self.old.len }
        ensures reads { (d : Draft) (at : ℕ) (parts : List ℕ) →
            Reads result self.old.len (behind_left d at parts left)
            (ahead self.old.len self.old.rest.now)
            (λ select. behind_path d (path at parts select))
            (ahead self.new.len self.new.rest.now) }
        ensures within { length self.new.rest.now ≤ length self.old.rest.now }
    {
        if !self.takes_mark(b':') {
            return self.bracket(Select::Bit(left));
        }
        let right = self.index()?;
        self.bracket(Select::Range(left, right))
    }

    // What stands in brackets behind the parts of a path, if anything does.
    fn select(&mut self) -> Result<Select, EventFault>
        ensures len { self.new.len ≡ self.old.len }
        ensures reads { (d : Draft) (at : ℕ) (parts : List ℕ) →
            next_is (is_mark 46) (ahead self.old.len self.old.rest.now) ≡ false →
            Reads result self.old.len (behind_part d at parts)
            (ahead self.old.len self.old.rest.now)
            (λ select. behind_path d (path at parts select))
            (ahead self.new.len self.new.rest.now) }
        ensures within { length self.new.rest.now ≤ length self.old.rest.now }
    {
        if !self.takes_mark(b'[') {
            return Ok(Select::Whole);
        }
        let left = self.index()?;
        self.range(left)
    }

    // The parts of a path behind the first, each put behind the others.
    fn more_parts(&mut self, parts: &mut Vec<u8>) -> Result<(), EventFault>
        ensures len { self.new.len ≡ self.old.len }
        ensures reads { (d : Draft) (at : ℕ) →
            Reads result self.old.len (behind_part d at parts.old.items)
            (ahead self.old.len self.old.rest.now)
            (λ _. behind_part d at parts.new.items) (ahead self.new.len self.new.rest.now) }
        ensures ended { OnOk result
            (next_is (is_mark 46) (ahead self.new.len self.new.rest.now) ≡ false) }
        ensures within { length self.new.rest.now ≤ length self.old.rest.now }
    {
        'parts: while self.takes_mark(b'.') {
            parts.push(b' ')?;
            self.part(parts)?;
        }
        Ok(())
    }

    pub(crate) fn path(&mut self) -> Result<Located, EventFault>
        ensures len { self.new.len ≡ self.old.len }
        ensures reads { (d : Draft) →
            Reads result self.old.len (first_part d) (ahead self.old.len self.old.rest.now)
            (λ located. behind_path d (path_in located)) (ahead self.new.len self.new.rest.now) }
        ensures within { length self.new.rest.now ≤ length self.old.rest.now }
    {
        let at = self.at();
        let mut parts = Vec::new(self.alloc);
        self.part(&mut parts)?;
        self.more_parts(&mut parts)?;
        let select = self.select()?;
        Ok(Located {
            at,
            path: Path { parts, select },
        })
    }

    // The letters of the next token, if it is a value.
    fn letters(&self) -> Result<Option<Vec<u8>>, Memory>
        ensures { IfOk result (λ v. option_map (λ letters. letters.items) v
            ≡ value_seen (next_token (ahead self.now.len self.now.rest.now))) }
    {
        match self.peek() {
            Token::Word(word) => of_word(self.alloc, word),
            Token::Letters(letters) => of_letters(self.alloc, letters),
            _ => Ok(None),
        }
    }

    fn value(&mut self) -> Result<Vec<u8>, EventFault>
        ensures len { self.new.len ≡ self.old.len }
        ensures reads { ReadsValue result value_of (λ v. v.items) self.old.len
            (ahead self.old.len self.old.rest.now) (ahead self.new.len self.new.rest.now) }
        ensures within { length self.new.rest.now ≤ length self.old.rest.now }
    {
        match self.letters()? {
            Some(letters) => {
                self.advance();
                Ok(letters)
            }
            None => Err(self.syntax()),
        }
    }

    // Whether two are to be equal.
    fn comparison(&mut self) -> Result<bool, EventFault>
        ensures len { self.new.len ≡ self.old.len }
        ensures reads { ReadsValue result comparison_of (λ is. is) self.old.len
            (ahead self.old.len self.old.rest.now) (ahead self.new.len self.new.rest.now) }
        ensures within { length self.new.rest.now ≤ length self.old.rest.now }
    {
        let is_equal = match self.peek() {
            Token::Equal => true,
            Token::Unequal => false,
            _ => return Err(self.syntax()),
        };
        self.advance();
        Ok(is_equal)
    }

    pub(crate) fn condition(&mut self) -> Result<Condition, EventFault>
        ensures len { self.new.len ≡ self.old.len }
        ensures reads { (d : Draft) → is_condition d.use_of ≡ true →
            Reads result self.old.len (first_part d) (ahead self.old.len self.old.rest.now)
            (λ condition. behind d.events (with_condition d (condition_in condition) d.use_of))
            (ahead self.new.len self.new.rest.now) }
        ensures within { length self.new.rest.now ≤ length self.old.rest.now }
    {
        let path = self.path()?;
        let is_equal = self.comparison()?;
        let at = self.at();
        let letters = self.value()?;
        Ok(Condition {
            path,
            is_equal,
            at,
            letters,
        })
    }
}
