//! Parts that make a system, and such that do not, put together by hand.

use ccsl_base::{Memory, Names, Seq};
use ccsl_kernel::{Expr, ExprOp, Parts, Place};
use std::alloc::Global;
use std::test::*;

/// An expression that names a clock.
fn name(clock: u32) -> Expr {
    Expr::Name(Place::Clock(clock))
}

/// A union of two clocks.
fn union(alloc: Global, left: u32, right: u32) -> Result<Expr, Memory> {
    let left = Box::new(alloc, name(left))?;
    Ok(Expr::Binary(ExprOp::Union, left, Box::new(alloc, name(right))?))
}

/// Adds a name that is not there yet.
fn add_name(names: &mut Names, name: &str) -> Result<(), Memory> {
    if names.len() < u32::MAX {
        names.add(name.as_bytes())?;
    }
    Ok(())
}

/// The parts of a system of the clocks a and b, and x, which this expression defines.
fn parts(alloc: Global, definition: Expr) -> Result<Parts, Memory> {
    let mut names = Names::new(alloc);
    for name in ["a", "b", "x"] {
        add_name(&mut names, name)?;
    }
    let mut definitions = Vec::new(alloc);
    definitions.push(definition)?;
    Ok(Parts {
        names,
        declared: 2,
        written: 3,
        groups: Seq::new(Vec::new(alloc)),
        words: Seq::new(Vec::new(alloc)),
        definitions: Seq::new(definitions),
        constraints: Seq::new(Vec::new(alloc)),
    })
}

#[test]
fn a_definition_names_lower_clocks_alone(rt: HostRuntime) -> Result<(), Fail> {
    let lower = parts(rt.alloc(), union(rt.alloc(), 0, 1)?)?;
    assert!(rt; lower.accepted(rt.alloc())?);
    let own = parts(rt.alloc(), union(rt.alloc(), 0, 2)?)?;
    assert!(rt; !own.accepted(rt.alloc())?);
    Ok(())
}
