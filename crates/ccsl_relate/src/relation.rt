//! Whether a relation holds at a step, without its formula.

ghost use Rattle.std.specs.Prelude.{◌≡◌, ℕ, List};
ghost use Rattle.ccsl_base.specs.Clocks.{ticks_in};
ghost use Rattle.ccsl_formula.specs.Formula.{eval};
ghost use Rattle.ccsl_kernel.specs.Items.{relation_formula};

use ccsl_kernel::RelationKind;

/// Whether a relation holds in a step, where `left` and `right` tell whether its clocks tick in it, and have ticked `m`
/// and `n` times before. No test of the two clocks is a branch: they tick as the trace has it.
#[inline(always)]
pub(crate) fn holds(kind: RelationKind, left: bool, right: bool, m: u64, n: u64) -> bool
    ensures { (a b : ℕ) (s : List ℕ) → ticks_in a s ≡ left → ticks_in b s ≡ right →
        result ≡ eval (relation_formula kind a b m n) s }
{
    match kind {
        RelationKind::Subclock => !left | right,
        RelationKind::Coincides => left == right,
        RelationKind::Excludes => !(left & right),
        RelationKind::Precedes => (m != n) | !right,
        RelationKind::PrecedesWeakly => (m != n) | !right | left,
        RelationKind::PrecedesWithin(bound) => {
            let behind = (m != n) | !right;
            let near = (m < n) | (m.saturating_sub(n) < bound as u64);
            behind & (near | !left | right)
        }
    }
}
