//! A page of text, to which pieces are put one behind the other.

ghost use Rattle.std.specs.Prelude.{◌≡◌, ◌++◌, [], OnOk};
ghost use Rattle.std.specs.List.{concat};
ghost use Rattle.ccsl_page.specs.Pieces.{piece_text, piece_texts, line};

use crate::paint::Paint;
use ccsl_base::Memory;
use itoa::Buffer;
use std::alloc::Global;
use std::marker::Model;

/// A piece of a text.
#[derive(Clone, Copy)]
pub enum Piece<'a> {
    Text(&'a str),
    Name(&'a [u8]),
    Number(u64),
}

impl Piece<'_> {
    /// Whether it has no bytes.
    pub fn is_empty(&self) -> bool {
        match self {
            Piece::Text(text) => text.is_empty(),
            Piece::Name(name) => name.is_empty(),
            Piece::Number(_) => false,
        }
    }
}

/// A text that grows. Contracts see its bytes.
#[derive(Drop)]
pub struct Page {
    text: Vec<u8>,
    is_coloured: bool,
}

impl Model for Page {
    ghost use Rattle.std.specs.Prelude.{List, ℕ};

    ghost Value = { List ℕ };

    ghost view = { λ p. p.text.items };
}

impl Page {
    /// A page without colours.
    pub fn new(alloc: Global) -> Page
        ensures { result ≡ [] }
    {
        Page {
            text: Vec::new(alloc),
            is_coloured: false,
        }
    }

    /// A page for a terminal, with the codes of its colours, or without.
    pub fn coloured(alloc: Global, is_coloured: bool) -> Page
        ensures { result ≡ [] }
    {
        Page {
            text: Vec::new(alloc),
            is_coloured,
        }
    }

    /// The text so far, with the codes of the colours, if the page has some.
    pub fn bytes(&self) -> &[u8]
        ensures { result.now ≡ self.now }
    {
        self.text.as_slice()
    }

    /// Empties the page.
    pub fn clear(&mut self)
        ensures { self.new ≡ [] }
    {
        self.text.clear();
    }

    fn put_bytes(&mut self, bytes: &[u8]) -> Result<(), Memory>
        ensures { OnOk result (self.new ≡ self.old ++ bytes.now) }
    {
        self.text.extend_from_slice(bytes)?;
        Ok(())
    }

    fn put_piece(&mut self, piece: &Piece<'_>) -> Result<(), Memory>
        ensures { OnOk result (self.new ≡ self.old ++ piece_text piece.now) }
    {
        match piece {
            Piece::Text(text) => self.put_bytes(text.as_bytes()),
            Piece::Name(name) => self.put_bytes(name),
            Piece::Number(number) => self.put_bytes(Buffer::new().format(*number).as_bytes()),
        }
    }

    /// Puts these pieces behind what stands.
    pub fn put(&mut self, pieces: &[Piece<'_>]) -> Result<(), Memory>
        ensures { OnOk result (self.new ≡ self.old ++ concat (piece_texts pieces.now)) }
    {
        for piece in pieces {
            self.put_piece(piece)?;
        }
        Ok(())
    }

    /// Puts these pieces and a line feed behind what stands.
    pub fn put_line(&mut self, pieces: &[Piece<'_>]) -> Result<(), Memory>
        ensures { OnOk result (self.new ≡ self.old ++ line (piece_texts pieces.now)) }
    {
        self.put(pieces)?;
        self.put_bytes(b"\n")
    }

    /// What is put from here on has this colour, where the page has colours.
    pub fn paint(&mut self, paint: Paint) -> Result<(), Memory> {
        if self.is_coloured {
            self.put_bytes(paint.code().as_bytes())?;
        }
        Ok(())
    }

    /// Puts a byte so many times behind what stands.
    pub fn fill(&mut self, byte: u8, count: usize) -> Result<(), Memory> {
        for _ in 0..count {
            self.text.push(byte)?;
        }
        Ok(())
    }
}
