//! The words that the language keeps for itself.

ghost use Rattle.std.specs.Prelude.{◌≡◌};

/// A reserved word, one variant a word.
#[derive(Clone, Copy)]
pub enum Reserved {
    Ccsl,
    Relation,
    Expression,
    And,
    System,
    Clock,
    Number,
    Word,
    Define,
    If,
    Use,
    Else,
    Never,
    Union,
    Inter,
    Minus,
    Inf,
    Sup,
    Delay,
    Await,
    Filter,
    Upto,
    Sampled,
    Weakly,
    On,
    Delayed,
    Then,
    Tail,
    Head,
    Ended,
    Subclock,
    Coincides,
    Excludes,
    Precedes,
    Within,
    From,
}

/// Each reserved word.
pub const WORDS: [Reserved; 36] = [
    Reserved::Ccsl,
    Reserved::Relation,
    Reserved::Expression,
    Reserved::And,
    Reserved::System,
    Reserved::Clock,
    Reserved::Number,
    Reserved::Word,
    Reserved::Define,
    Reserved::If,
    Reserved::Use,
    Reserved::Else,
    Reserved::Never,
    Reserved::Union,
    Reserved::Inter,
    Reserved::Minus,
    Reserved::Inf,
    Reserved::Sup,
    Reserved::Delay,
    Reserved::Await,
    Reserved::Filter,
    Reserved::Upto,
    Reserved::Sampled,
    Reserved::Weakly,
    Reserved::On,
    Reserved::Delayed,
    Reserved::Then,
    Reserved::Tail,
    Reserved::Head,
    Reserved::Ended,
    Reserved::Subclock,
    Reserved::Coincides,
    Reserved::Excludes,
    Reserved::Precedes,
    Reserved::Within,
    Reserved::From,
];

impl Reserved {
    ghost use Rattle.ccsl_base.specs.ReservedWords.{spelling, reserved};

    /// The letters of the word.
    pub fn spelling(self) -> &'static [u8]
        ensures { result.now ≡ spelling self }
    {
        match self {
            Reserved::Ccsl => b"ccsl",
            Reserved::Relation => b"relation",
            Reserved::Expression => b"expression",
            Reserved::And => b"and",
            Reserved::System => b"system",
            Reserved::Clock => b"clock",
            Reserved::Number => b"number",
            Reserved::Word => b"word",
            Reserved::Define => b"define",
            Reserved::If => b"if",
            Reserved::Use => b"use",
            Reserved::Else => b"else",
            Reserved::Never => b"never",
            Reserved::Union => b"union",
            Reserved::Inter => b"inter",
            Reserved::Minus => b"minus",
            Reserved::Inf => b"inf",
            Reserved::Sup => b"sup",
            Reserved::Delay => b"delay",
            Reserved::Await => b"await",
            Reserved::Filter => b"filter",
            Reserved::Upto => b"upto",
            Reserved::Sampled => b"sampled",
            Reserved::Weakly => b"weakly",
            Reserved::On => b"on",
            Reserved::Delayed => b"delayed",
            Reserved::Then => b"then",
            Reserved::Tail => b"tail",
            Reserved::Head => b"head",
            Reserved::Ended => b"ended",
            Reserved::Subclock => b"subclock",
            Reserved::Coincides => b"coincides",
            Reserved::Excludes => b"excludes",
            Reserved::Precedes => b"precedes",
            Reserved::Within => b"within",
            Reserved::From => b"from",
        }
    }

    /// The reserved word that is spelled so.
    pub fn spelled(text: &[u8]) -> Option<Reserved>
        ensures { result ≡ reserved text.now }
    {
        for word in WORDS {
            if text == word.spelling() {
                return Some(word);
            }
        }
        None
    }
}
