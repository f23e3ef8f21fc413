//! The end of a line so far, which tells whether a blank comes before the next token.

/// What a line ends with so far.
#[derive(Clone, Copy)]
pub enum Edge {
    /// No token.
    Start,
    /// A `(`.
    Opening,
    Named,
    Other,
}

impl Edge {
    ghost use Rattle.std.specs.Prelude.{◌≡◌};
    ghost use Rattle.ccsl_print.specs.Pages.{is_parted, is_parted_symbol, symbol_edge};

    /// Whether a blank parts a word, a name, a number or a quoted text from it.
    pub fn is_parted(self) -> bool
        ensures { result ≡ is_parted self }
    {
        match self {
            Edge::Start | Edge::Opening => false,
            Edge::Named | Edge::Other => true,
        }
    }

    /// Whether a blank parts the symbol from it.
    pub fn is_parted_symbol(self, symbol: u8) -> bool
        ensures { result ≡ is_parted_symbol self symbol }
    {
        match self {
            Edge::Start | Edge::Opening => false,
            Edge::Named => !matches!(symbol, b',' | b';' | b')' | b'('),
            Edge::Other => !matches!(symbol, b',' | b';' | b')'),
        }
    }

    /// The end of a line behind the symbol.
    pub fn behind(symbol: u8) -> Edge
        ensures { result ≡ symbol_edge symbol }
    {
        if symbol == b'(' {
            Edge::Opening
        } else {
            Edge::Other
        }
    }
}
