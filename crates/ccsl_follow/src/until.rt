//! Where a trace is left.

ghost use Rattle.std.specs.Prelude.{◌≡◌};
ghost use Rattle.ccsl_follow.specs.Leaving.{is_left_at, first_of_last};

/// Where a trace is left.
#[derive(Clone, Copy)]
pub enum Until {
    /// At this step, which is not counted.
    Step(u64),
    /// At its end, behind so many steps.
    End(u64),
}

/// How many of the last steps are kept.
pub(crate) const KEPT: u64 = 256;

impl Until {
    /// Whether it is left at this step.
    #[inline]
    pub(crate) fn is_at(self, step: u64) -> bool
        ensures { result ≡ is_left_at self step }
    {
        match self {
            Until::Step(last) => last == step,
            Until::End(_) => false,
        }
    }

    /// The first of the last steps.
    pub(crate) fn first_kept(self) -> u64
        ensures { result ≡ first_of_last self }
    {
        match self {
            Until::Step(steps) => steps.saturating_sub(KEPT),
            Until::End(steps) => steps.saturating_sub(KEPT),
        }
    }
}
