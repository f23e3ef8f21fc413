//! Reading the tokens of a statement.

ghost use Rattle.std.specs.Prelude.{◌≡◌, ◌≤◌, ◌<◌, IsTrue, OnOk, false, length};
ghost use Rattle.ccsl_event_file.specs.Fronts.{seen, is_blank};
ghost use Rattle.ccsl_event_file.specs.File.{is_word, is_mark, text_of};
ghost use Rattle.ccsl_event_file.specs.Parsing.{ahead, place_of, next_token, behind_next, Takes, Expects, ReadsValue};

use crate::fault::EventFault;
use crate::token::{Token, skip_blank, token_at_front};
use std::alloc::Global;

/// The text that is left to read. No white space stands at its front.
pub(crate) struct Parser<'a> {
    pub(crate) alloc: Global,
    pub(crate) len: usize,
    pub(crate) rest: &'a [u8],
    ghost bare: { is_blank rest.now ≡ false },
    ghost within: { length rest.now ≤ len },
}

impl Drop for Parser<'_> {
    fn drop(self) {
        let Parser {
            alloc: _,
            len: _,
            rest: _,
        } = self;
    }
}

impl<'a> Parser<'a> {
    pub(crate) fn new(alloc: Global, text: &'a [u8]) -> Parser<'a>
        ensures len { result.len ≡ length text.now }
        ensures ahead { ahead result.len result.rest.now ≡ ahead (length text.now) text.now }
    {
        Parser {
            alloc,
            len: text.len(),
            rest: skip_blank(text),
        }
    }

    /// The place of the next token.
    pub(crate) fn at(&self) -> u64
        ensures { result ≡ place_of self.now.len (ahead self.now.len self.now.rest.now) }
    {
        (self.len - self.rest.len()) as u64
    }

    pub(crate) fn syntax(&self) -> EventFault
        ensures { result ≡ EventFault.Syntax
            (place_of self.now.len (ahead self.now.len self.now.rest.now)) }
    {
        EventFault::Syntax { at: self.at() }
    }

    pub(crate) fn peek(&self) -> Token<'a>
        ensures { seen result ≡ next_token (ahead self.now.len self.now.rest.now) }
    {
        token_at_front(self.rest).0
    }

    pub(crate) fn advance(&mut self)
        ensures len { self.new.len ≡ self.old.len }
        ensures ahead { ahead self.new.len self.new.rest.now
            ≡ behind_next (ahead self.old.len self.old.rest.now) }
        ensures shorter { 0 < length self.old.rest.now →
            length self.new.rest.now < length self.old.rest.now }
        ensures within { length self.new.rest.now ≤ length self.old.rest.now }
    {
        self.rest = skip_blank(token_at_front(self.rest).1);
    }

    /// Takes the next token where it is this mark.
    pub(crate) fn takes_mark(&mut self, mark: u8) -> bool
        ensures len { self.new.len ≡ self.old.len }
        ensures takes { Takes result (is_mark mark)
            (ahead self.old.len self.old.rest.now) (ahead self.new.len self.new.rest.now) }
        ensures shorter { IsTrue result → length self.new.rest.now < length self.old.rest.now }
        ensures within { length self.new.rest.now ≤ length self.old.rest.now }
    {
        match self.peek() {
            Token::Mark(next) if next == mark => {
                self.advance();
                true
            }
            _ => false,
        }
    }

    /// The next token, which has to be this mark.
    pub(crate) fn expect_mark(&mut self, mark: u8) -> Result<(), EventFault>
        ensures len { self.new.len ≡ self.old.len }
        ensures expects { Expects result (is_mark mark) self.old.len
            (ahead self.old.len self.old.rest.now) (ahead self.new.len self.new.rest.now) }
        ensures within { length self.new.rest.now ≤ length self.old.rest.now }
    {
        if self.takes_mark(mark) {
            return Ok(());
        }
        Err(self.syntax())
    }

    /// Takes the next token where it is this word.
    pub(crate) fn takes_word(&mut self, text: &[u8]) -> bool
        ensures len { self.new.len ≡ self.old.len }
        ensures takes { Takes result (is_word text.now)
            (ahead self.old.len self.old.rest.now) (ahead self.new.len self.new.rest.now) }
        ensures shorter { IsTrue result → length self.new.rest.now < length self.old.rest.now }
        ensures within { length self.new.rest.now ≤ length self.old.rest.now }
    {
        match self.peek() {
            Token::Word(next) if next == text => {
                self.advance();
                true
            }
            _ => false,
        }
    }

    /// The next token, which has to be this word.
    pub(crate) fn expect_word(&mut self, text: &[u8]) -> Result<(), EventFault>
        ensures len { self.new.len ≡ self.old.len }
        ensures expects { Expects result (is_word text.now) self.old.len
            (ahead self.old.len self.old.rest.now) (ahead self.new.len self.new.rest.now) }
        ensures within { length self.new.rest.now ≤ length self.old.rest.now }
    {
        if self.takes_word(text) {
            return Ok(());
        }
        Err(self.syntax())
    }

    /// The next token, which has to be a word.
    pub(crate) fn word(&mut self) -> Result<&'a [u8], EventFault>
        ensures len { self.new.len ≡ self.old.len }
        ensures reads { ReadsValue result text_of (λ text. text.now) self.old.len
            (ahead self.old.len self.old.rest.now) (ahead self.new.len self.new.rest.now) }
        ensures shorter { OnOk result (length self.new.rest.now < length self.old.rest.now) }
        ensures within { length self.new.rest.now ≤ length self.old.rest.now }
    {
        match self.peek() {
            Token::Word(text) => {
                self.advance();
                Ok(text)
            }
            _ => Err(self.syntax()),
        }
    }
}
