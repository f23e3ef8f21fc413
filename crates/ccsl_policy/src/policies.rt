//! The policies, and the value that each prefers.

ghost use Rattle.std.specs.Prelude.{◌≡◌};
ghost use Rattle.ccsl_policy.specs.Priority.{preferred};

/// By which value of a clock two sets are compared.
#[derive(Clone, Copy)]
pub enum Policy {
    /// That the clock does not tick.
    Min,
    /// That it ticks.
    Max,
    /// What the lowest bit of its word says.
    Seeded,
}

/// The value that a policy prefers for a clock with a word.
pub fn preferred(policy: Policy, word: u32) -> bool
    ensures { result ≡ preferred policy word }
{
    match policy {
        Policy::Min => false,
        Policy::Max => true,
        Policy::Seeded => word % 2 == 1,
    }
}
