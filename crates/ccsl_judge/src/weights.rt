//! Where the items of a system are divided.

ghost use Rattle.std.specs.Prelude.{◌≡◌, ℕ, ◌+◌, ◌*◌, ◌<◌, ◌≤◌, ◌⊎◌};
ghost use Rattle.ccsl_kernel.specs.Syntax.{item_count};
ghost use Rattle.ccsl_judge.specs.Weights as spec;

use ccsl_base::ClockSet;
use ccsl_kernel::System;

/// What an item weighs that needs the states of definitions; a constraint between declared clocks weighs 1.
const WITH_STATES: u64 = 16;

/// Before which item a share ends, and what all items before it weigh.
#[derive(Clone, Copy)]
pub(crate) struct Cut {
    pub(crate) item: u32,
    pub(crate) weight: u64,
}

// What it costs to judge an item, about. The definition of a clock that was not recorded costs nothing.
fn weight_of(system: &System, bound: &ClockSet, item: u32) -> u64
    requires { item < item_count system.now }
    ensures weight { result ≡ spec.weight_of system.now bound.now item }
    ensures most { result ≤ WITH_STATES }
{
    let declared = system.scope().declared;
    let definitions = system.definitions();
    if item < definitions {
        return if bound.has(declared + item) {
            WITH_STATES
        } else {
            0
        };
    }
    let constraint = system.constraint(item - definitions);
    if constraint.left < declared && constraint.right < declared {
        1
    } else {
        WITH_STATES
    }
}

/// What all items weigh.
pub(crate) fn weight_of_all(system: &System, bound: &ClockSet) -> u64
    ensures { result ≡ spec.weight_before system.now bound.now (item_count system.now) }
{
    let mut weight = 0;
    for item in 0..system.items() {
        weight += weight_of(system, bound, item);
    }
    weight
}

/// The next cut, where so many shares are left behind the last one. The share between them has one item at least, and
/// more until it weighs its part of what is left of the weight of all.
pub(crate) fn next_cut(system: &System, bound: &ClockSet, cut: Cut, left: u32, all: u64) -> Cut
    requires left { 1 ≤ left }
    requires room { cut.item + left ≤ item_count system.now }
    requires weight { cut.weight ≤ cut.item * WITH_STATES }
    requires weighed { cut.weight ≡ spec.weight_before system.now bound.now cut.item }
    ensures behind { cut.item < result.item }
    ensures room { result.item + left ≤ item_count system.now + 1 }
    ensures last { left ≡ 1 → result.item ≡ item_count system.now }
    ensures weight { result.weight ≤ result.item * WITH_STATES }
    ensures weighed { result.weight ≡ spec.weight_before system.now bound.now result.item }
    ensures reaches { (spec.aim cut.weight left all ≤ result.weight)
        ⊎ (result.item + left ≡ item_count system.now + 1) }
    ensures below { (n : ℕ) → 2 ≤ left → cut.item < n → n < result.item →
        spec.weight_before system.now bound.now n < spec.aim cut.weight left all }
{
    let end = system.items() - (left - 1);
    let aim = cut.weight + all.saturating_sub(cut.weight) / left as u64;
    let mut weight = cut.weight;
    for item in cut.item..end {
        weight += weight_of(system, bound, item);
        if left > 1 && weight >= aim {
            return Cut {
                item: item + 1,
                weight,
            };
        }
    }
    Cut { item: end, weight }
}
