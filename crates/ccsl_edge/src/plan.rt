//! Which calls of a world in memory are made to fail.

ghost use Rattle.std.specs.Prelude.{◌≡◌, ◌↔◌, IsTrue, [], ◌∷◌};
ghost use Rattle.ccsl_edge.specs.Memory.{kind_index, IsListed, counted};

use std::marker::Model;

/// The kinds of calls of a world.
#[derive(Clone, Copy, PartialEq, Eq)]
pub enum CallKind {
    OpenIn,
    OpenOut,
    Read,
    Write,
    CloseOut,
}

impl CallKind {
    fn index(self) -> usize
        ensures { result ≡ kind_index self }
    {
        self as usize
    }
}

/// The calls that are to fail, and how many of each kind there were.
#[derive(Drop)]
pub(crate) struct FaultPlan {
    failing: Vec<(CallKind, u64)>,
    calls: [u64; 5],
}

impl Model for FaultPlan {
    ghost use Rattle.ccsl_edge.specs.Memory.{Plan};

    ghost Value = { Plan };

    ghost view = { λ p. record { failing = p.failing.items; calls = p.calls } };
}

impl FaultPlan {
    pub(crate) fn new(failing: Vec<(CallKind, u64)>) -> FaultPlan
        ensures { result ≡ record { failing = failing.items; calls = 0 ∷ 0 ∷ 0 ∷ 0 ∷ 0 ∷ [] } }
    {
        FaultPlan {
            failing,
            calls: [0; 5],
        }
    }

    /// Counts a call, and answers whether it is to fail.
    pub(crate) fn is_due(&mut self, kind: CallKind) -> bool
        ensures counts { self.new ≡ counted self.old kind }
        ensures due { IsTrue result ↔ IsListed self.old kind }
    {
        let number = self.calls[kind.index()].saturating_add(1);
        self.calls[kind.index()] = number;
        self.failing.contains(&(kind, number))
    }
}
