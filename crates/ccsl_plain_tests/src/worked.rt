//! Worked systems over the clocks a, b and c: their states beside the slow evaluation.

use crate::alike::{agree, is_same, set_of, system_of};
use ccsl_formula::Formula;
use ccsl_plain::plain_formula;
use std::alloc::Global;
use std::test::*;

const SYSTEMS: &[(&str, &str)] = &[
    (
        "a subclock b; a precedes b; b precedes weakly c; a excludes c; a coincides b;",
        "ab b bc c",
    ),
    (
        "define d = a union b; define e = a inter b; define f = d minus e;",
        "a ab b c",
    ),
    (
        "define d = a inf b; define e = a sup b; d subclock e;",
        "a a b ab b",
    ),
    (
        "define d = a sampled on b; define e = a sampled weakly on b;",
        "a ab b b ab",
    ),
    (
        "define d = a delay 2; define e = a delayed 2 on b; d precedes e;",
        "a ab b ab b b",
    ),
    (
        "define d = (a await 2) then ((b await 1) then c);",
        "a b ab c b c",
    ),
    ("define d = a upto b; define e = d then c;", "ac abc ac bc"),
    (
        "define d = a filter \"01\"; define e = d then b;",
        "ab ab b ab b",
    ),
    ("define d = a filter \"0(10)\"; a subclock d;", "a ab a a b"),
    ("define d = never then a; define e = a then b;", "a ab b"),
    ("alternates(a, b);", "a b a b ab"),
    (
        "define d = periodic(a, 2); define e = skip(a, 1); define f = filter_by(a, \"(01)\");",
        "a a ab a a",
    ),
];

const VERSION_TWO: &[(&str, &str)] = &[
    ("a precedes within 2 b;", "a a ab a b"),
    (
        "define d = a upto weakly b; define e = d then c;",
        "ac abc ac bc",
    ),
];

const GROUPS: &[(&str, &str, &str)] = &[
    (
        "expression grows(clock c, number n) = (c await n) then grows(c, n + 1);",
        "define d = grows(a, 1);",
        "a a ab a a a a",
    ),
    (
        "expression pass(clock c) = (c await 1) then drop(c) and drop(clock c) = (never upto c) then pass(c);",
        "define d = pass(a); define e = drop(a);",
        "a a ab b a a",
    ),
    (
        "expression either(clock c, clock d, word w) = if head w use c else d;",
        "define d = either(a, b, \"10\"); define e = either(a, b, \"01\");",
        "a b ab",
    ),
];

/// Whether the states of a system agree with the slow evaluation at each step.
fn agrees(
    rt: &HostRuntime,
    version: u32,
    groups: &str,
    items: &str,
    steps: &str,
) -> Result<bool, Fail> {
    let text = format!(in rt.alloc();
        "ccsl {version}; {groups} system {{ clock a, b, c; {items} }}"
    )?;
    let system = system_of(rt.alloc(), text.as_str())?;
    Ok(agree(rt.alloc(), &system, steps)?)
}

#[test]
fn states_tell_what_the_history_says(rt: HostRuntime) -> Result<(), Fail> {
    for (items, steps) in SYSTEMS {
        assert!(rt; agrees(&rt, 1, "", items, steps)?, "{items}");
    }
    for (items, steps) in VERSION_TWO {
        assert!(rt; agrees(&rt, 2, "", items, steps)?, "{items}");
    }
    for (groups, items, steps) in GROUPS {
        assert!(rt; agrees(&rt, 1, groups, items, steps)?, "{items}");
    }
    Ok(())
}

/// Whether the first item of `a precedes b` has a formula after some steps.
fn is_asked(alloc: Global, steps: &str, formula: &Formula) -> Result<bool, Fail> {
    let system = system_of(alloc, "ccsl 1; system { clock a, b; a precedes b; }")?;
    let mut list = Vec::new(alloc);
    for text in steps.split_ascii_whitespace() {
        list.push(set_of(text))?;
    }
    if system.items() == 0 {
        return Ok(false);
    }
    let found = plain_formula(alloc, &system, 0, list.as_slice())?;
    Ok(is_same(&found, formula))
}

#[test]
fn what_a_precedence_asks(rt: HostRuntime) -> Result<(), Fail> {
    let not_b = Formula::Not(Box::new(rt.alloc(), Formula::Var(1))?);
    assert!(rt; is_asked(rt.alloc(), "", &not_b)?);
    assert!(rt; is_asked(rt.alloc(), "a", &Formula::True)?);
    Ok(())
}
