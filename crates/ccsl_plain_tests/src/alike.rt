//! Whether states tell what the slow evaluation over the whole list of steps does.

ghost use Rattle.std.specs.Prelude.{◌≡◌, ◌<◌};
ghost use Rattle.ccsl_kernel.specs.Syntax.{item_count};

use ccsl_base::{ClockSet, MAX_CLOCKS, MAX_SPEC_BYTES, Memory};
use ccsl_formula::Formula;
use ccsl_kernel::System;
use ccsl_plain::plain_formula;
use ccsl_spec::{Specification, read};
use ccsl_state::States;
use std::alloc::Global;
use std::test::Fail;

/// The system of a text.
pub fn system_of(alloc: Global, text: &str) -> Result<System, Fail> {
    if text.len() as u64 > MAX_SPEC_BYTES {
        return Err(Fail::from("the text is long"));
    }
    match read(alloc, text.as_bytes())? {
        Specification::Accepted(system) => Ok(system),
        Specification::Refused(_line) => Err(Fail::from("the text is refused")),
    }
}

/// The clocks of some letters: a is the first one.
pub fn set_of(letters: &str) -> ClockSet {
    let mut set = ClockSet::empty();
    for letter in letters.as_bytes() {
        let clock = u32::from(letter.saturating_sub(b'a'));
        if clock < MAX_CLOCKS {
            set.insert(clock);
        }
    }
    set
}

/// Whether two formulas are the same, shape and all.
pub fn is_same(f: &Formula, g: &Formula) -> bool {
    match (f, g) {
        (Formula::True, Formula::True) | (Formula::False, Formula::False) => true,
        (Formula::Var(x), Formula::Var(y)) => x == y,
        (Formula::Not(f), Formula::Not(g)) => is_same(f, g),
        (Formula::And(a, b), Formula::And(f, g)) => is_same(a, f) && is_same(b, g),
        (Formula::Or(a, b), Formula::Or(f, g)) => is_same(a, f) && is_same(b, g),
        (Formula::Iff(a, b), Formula::Iff(f, g)) => is_same(a, f) && is_same(b, g),
        _ => false,
    }
}

/// Whether states tell an item's slow formula, and a full step satisfies it where the item is a definition.
fn item_agrees(
    alloc: Global,
    system: &System,
    states: &States<'_>,
    list: &[ClockSet],
    item: u32,
    step: &ClockSet,
) -> Result<bool, Memory>
    requires system { states.now.system ≡ system.now }
    requires item { item < item_count system.now }
{
    let slow = plain_formula(alloc, system, item, list)?;
    let fits = item >= system.definitions() || slow.eval(step);
    let quick = states.formula_of(alloc, item)?;
    Ok(fits && is_same(&quick, &slow))
}

fn items_agree(
    alloc: Global,
    system: &System,
    states: &States<'_>,
    list: &[ClockSet],
    step: &ClockSet,
) -> Result<bool, Memory>
    requires { states.now.system ≡ system.now }
{
    for item in 0..system.items() {
        if !item_agrees(alloc, system, states, list, item, step)? {
            return Ok(false);
        }
    }
    Ok(true)
}

/// Whether states agree with the slow evaluation before a step. They go on by it.
fn go_on(
    alloc: Global,
    system: &System,
    states: &mut States<'_>,
    list: &mut Vec<ClockSet>,
    declared: &ClockSet,
) -> Result<bool, Memory>
    requires { states.old.system ≡ system.now }
    ensures { states.new.system ≡ states.old.system }
{
    let derived = states.derive(declared);
    let agree = items_agree(alloc, system, states, list, &derived)?;
    list.push(states.advance(declared))?;
    Ok(agree)
}

/// Whether the states of a system agree with the slow evaluation before each step of a text.
pub fn agree(alloc: Global, system: &System, steps: &str) -> Result<bool, Memory> {
    let mut states = States::open(alloc, system)?;
    let mut list = Vec::new(alloc);
    for text in steps.split_ascii_whitespace() {
        if !go_on(alloc, system, &mut states, &mut list, &set_of(text))? {
            return Ok(false);
        }
    }
    Ok(true)
}
