//! Truth values that may be open, with the connectives of strong Kleene logic.

ghost use Rattle.std.specs.Prelude.{◌≡◌};
ghost use Rattle.ccsl_formula.specs.Truth.{known_as, not3, and3, or3, iff3};

/// A truth value of strong Kleene logic.
#[derive(Clone, Copy)]
pub enum Truth3 {
    Yes,
    No,
    Open,
}

impl Truth3 {
    /// The known value.
    pub fn known_as(value: bool) -> Truth3
        ensures { result ≡ known_as value }
    {
        if value { Truth3::Yes } else { Truth3::No }
    }

    /// What is unknown stays so.
    pub fn not(self) -> Truth3
        ensures { result ≡ not3 self }
    {
        match self {
            Truth3::Yes => Truth3::No,
            Truth3::No => Truth3::Yes,
            Truth3::Open => Truth3::Open,
        }
    }

    /// `No` where one is, whatever the other.
    pub fn and(self, other: Truth3) -> Truth3
        ensures { result ≡ and3 self other }
    {
        match (self, other) {
            (Truth3::No, _) | (_, Truth3::No) => Truth3::No,
            (Truth3::Yes, Truth3::Yes) => Truth3::Yes,
            _ => Truth3::Open,
        }
    }

    /// `Yes` where one is, whatever the other.
    pub fn or(self, other: Truth3) -> Truth3
        ensures { result ≡ or3 self other }
    {
        match (self, other) {
            (Truth3::Yes, _) | (_, Truth3::Yes) => Truth3::Yes,
            (Truth3::No, Truth3::No) => Truth3::No,
            _ => Truth3::Open,
        }
    }

    /// Unknown where one of them is.
    pub fn iff(self, other: Truth3) -> Truth3
        ensures { result ≡ iff3 self other }
    {
        match self {
            Truth3::Yes => other,
            Truth3::No => other.not(),
            Truth3::Open => Truth3::Open,
        }
    }
}
