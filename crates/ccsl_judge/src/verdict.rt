//! What judging a trace answers.

ghost use Rattle.std.specs.Prelude.{◌≡◌, ℕ, List, length};
ghost use Rattle.ccsl_base.specs.declared.rows.Row.{Row};
ghost use Rattle.ccsl_kernel.specs.Syntax.{System, item_count};
ghost use Rattle.ccsl_kernel.specs.Verdict.{verdict};
ghost use Rattle.ccsl_relate.specs.Violations.{Finds};
ghost use Rattle.ccsl_judge.specs.Judged.{plain, HasItem};

use ccsl_relate::Violation;

/// The verdict on the rows of a trace.
#[derive(Clone, Copy)]
pub enum Verdict {
    /// So many rows, none of which violates an item.
    Run(u64),
    /// The first row that violates an item, and the first item that it violates.
    Violated(Violation),
}

/// The verdict on so many rows whose first violation among all items is given.
pub(crate) fn verdict_on(first: Option<Violation>, rows: u64) -> Verdict
    ensures verdict { (K : System) (bound : List ℕ) (taken : List Row) → rows ≡ length taken →
        Finds K bound taken 0 (item_count K) first → plain result ≡ verdict K bound taken }
    ensures item { (K : System) (bound : List ℕ) (taken : List Row) →
        Finds K bound taken 0 (item_count K) first → HasItem K result }
{
    match first {
        None => Verdict::Run(rows),
        Some(violation) => Verdict::Violated(violation),
    }
}
