//! What the definitions mean. These functions do nothing: each has laws as its contract.

ghost use Rattle.ccsl_rules.specs.Laws.{LeastIsLeast, CountsAreLengths};

/// The fault that is answered is one of the list, and none of the list comes before it.
pub fn least_is_least()
    ensures { LeastIsLeast }
{}

/// The totals that are counted definition by definition are those of the expansion.
pub fn counts_are_lengths()
    ensures { CountsAreLengths }
{}
