//! The declarations that may bind a clock.

ghost use Rattle.std.specs.Prelude.{◌≡◌};
ghost use Rattle.ccsl_bind.specs.Candidates.{noted};

/// The candidates of a clock so far: how many scopes they stand in, the number of the first one's code and whether it
/// is an event, and whether all have its code.
#[derive(Clone, Copy)]
pub struct Candidates {
    pub depth: u32,
    pub code: u32,
    pub event: bool,
    pub same: bool,
}

impl Candidates {
    ghost use Rattle.std.specs.Prelude.{◌≡◌};
    ghost use Rattle.ccsl_bind.specs.Candidates.{with_one};

    // The candidates with one more declaration that qualifies.
    pub(crate) fn with_one(self, depth: u32, code: u32, event: bool) -> Candidates
        ensures { result ≡ with_one self depth code event }
    {
        if depth > self.depth {
            return self;
        }
        if depth < self.depth {
            return Candidates {
                depth,
                code,
                event,
                same: true,
            };
        }
        Candidates {
            depth: self.depth,
            code: self.code,
            event: self.event,
            same: self.same && code == self.code,
        }
    }
}

// The candidates, if there were any, and one more declaration.
pub(crate) fn noted(found: Option<Candidates>, depth: u32, code: u32, event: bool) -> Candidates
    ensures { result ≡ noted found depth code event }
{
    match found {
        Some(candidates) => candidates.with_one(depth, code, event),
        None => Candidates {
            depth,
            code,
            event,
            same: true,
        },
    }
}
