//! The page that the printer writes on, token by token.

ghost use Rattle.std.specs.Prelude.{◌≡◌, ◌++◌, OnOk, string_bytes};
ghost use Rattle.std.specs.Str.{IsUtf8};

use crate::edge::Edge;
use ccsl_ast::Spot;
use ccsl_base::{Memory, Text};
use ccsl_lex::Reserved;
use itoa::Buffer;
use std::alloc::Global;
use std::marker::Model;

/// The text so far, and what its last line ends with.
#[derive(Drop)]
pub struct Page {
    text: Vec<u8>,
    edge: Edge,
}

impl Model for Page {
    ghost use Rattle.ccsl_print.specs.Pages.{PlainPage};

    ghost Value = { PlainPage };

    ghost view = { λ p. record { text = p.text.items; edge = p.edge } };
}

impl Page {
    ghost use Rattle.ccsl_grammar.specs.Terminals as t;
    ghost use Rattle.ccsl_print.specs.Pages.{PlainPage, empty_page, blank_if, step, begun, ended};

    /// A page with nothing on it.
    pub fn new(alloc: Global) -> Page
        ensures { result ≡ empty_page }
    {
        Page {
            text: Vec::new(alloc),
            edge: Edge::Start,
        }
    }

    /// The text as it stands.
    pub fn into_text(self) -> String
        requires { IsUtf8 self.text }
        ensures { string_bytes result ≡ self.text }
    {
        let Page { text, edge: _ } = self;
        match String::from_utf8(text) {
            Ok(text) => text,
            Err(_) => unreachable!(),
        }
    }

    fn put(&mut self, parted: bool, edge: Edge, token: &[u8]) -> Result<(), Memory>
        ensures { OnOk result (self.new ≡ record
            { text = self.old.text ++ (blank_if parted ++ token.now); edge = edge }) }
    {
        if parted {
            self.text.push(b' ')?;
        }
        self.edge = edge;
        self.text.extend_from_slice(token)?;
        Ok(())
    }

    /// Puts a reserved word, parted from what stands before it.
    #[tactic(auto, unfolding(crate::specs::Pages::step))]
    pub fn word(&mut self, word: Reserved) -> Result<(), Memory>
        ensures { OnOk result (self.new ≡ step self.old (t.word word)) }
    {
        let parted = self.edge.is_parted();
        self.put(parted, Edge::Other, word.spelling())
    }

    /// Puts a symbol, with the blanks that belong to it.
    #[tactic(auto, unfolding(crate::specs::Pages::step))]
    pub fn symbol(&mut self, symbol: u8) -> Result<(), Memory>
        ensures { OnOk result (self.new ≡ step self.old (t.symbol symbol)) }
    {
        let parted = self.edge.is_parted_symbol(symbol);
        self.put(parted, Edge::behind(symbol), &[symbol])
    }

    /// Puts a name.
    #[tactic(auto, unfolding(crate::specs::Pages::step))]
    pub fn name(&mut self, name: &Spot) -> Result<(), Memory>
        ensures { OnOk result (self.new ≡ step self.old (t.name name.now)) }
    {
        let parted = self.edge.is_parted();
        self.put(parted, Edge::Named, name.name.bytes())
    }

    /// Puts a number, without leading zeros.
    #[tactic(auto, unfolding(crate::specs::Pages::step))]
    pub fn number(&mut self, number: u32) -> Result<(), Memory>
        ensures { OnOk result (self.new ≡ step self.old (t.number 0 number)) }
    {
        let parted = self.edge.is_parted();
        self.put(parted, Edge::Other, Buffer::new().format(number).as_bytes())
    }

    /// Puts a text in quotes.
    #[tactic(auto, unfolding(crate::specs::Pages::step))]
    pub fn quoted(&mut self, bytes: &Text) -> Result<(), Memory>
        ensures { OnOk result (self.new ≡ step self.old (t.quoted 0 bytes.now)) }
    {
        let parted = self.edge.is_parted();
        self.put(parted, Edge::Other, b"\"")?;
        self.text.extend_from_slice(bytes.bytes())?;
        self.text.push(b'"')?;
        Ok(())
    }

    /// Begins a line, with two blanks where it stands in a body.
    #[tactic(auto, unfolding(crate::specs::Pages::begun))]
    pub fn begin_line(&mut self, inside: bool) -> Result<(), Memory>
        ensures { OnOk result (self.new ≡ begun self.old inside) }
    {
        if inside {
            self.text.extend_from_slice(b"  ")?;
        }
        self.edge = Edge::Start;
        Ok(())
    }

    /// Ends a line.
    #[tactic(auto, unfolding(crate::specs::Pages::ended))]
    pub fn end_line(&mut self) -> Result<(), Memory>
        ensures { OnOk result (self.new ≡ ended self.old) }
    {
        self.text.push(b'\n')?;
        self.edge = Edge::Start;
        Ok(())
    }
}
