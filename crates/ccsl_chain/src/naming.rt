//! The names of a chain's clocks.

ghost use Rattle.std.specs.Prelude.{◌≡◌, ◌^◌, ◌-◌, ◌+◌, ◌<◌, ◌≤◌, ◌++◌, [], map, IfOk, OnOk};
ghost use Rattle.std.specs.List.{range_with_len};
ghost use Rattle.ccsl_base.specs.declared.limits.TheConstants.{MAX_TRIAL_CLOCKS};
ghost use Rattle.ccsl_chain.specs.Chain.{clock_name, call_path, hidden_name};

use ccsl_base::{Memory, Names};
use std::alloc::Global;

fn clock_name(alloc: Global, i: u32) -> Result<Vec<u8>, Memory>
    ensures { IfOk result (λ name. name.items ≡ clock_name i) }
{
    Ok(format!(in alloc; "c{i}")?.into_bytes())
}

/// The path of the call that makes clock `i` and the next one alternate.
pub fn call_path(alloc: Global, i: u32) -> Result<Vec<u8>, Memory>
    requires { i < MAX_TRIAL_CLOCKS }
    ensures { IfOk result (λ path. path.items ≡ call_path i) }
{
    let place = i + 1;
    Ok(format!(in alloc; "alternates@{place}")?.into_bytes())
}

fn hidden_name(alloc: Global, i: u32) -> Result<Vec<u8>, Memory>
    requires { i < MAX_TRIAL_CLOCKS }
    ensures { IfOk result (λ name. name.items ≡ hidden_name i) }
{
    let mut name = call_path(alloc, i)?;
    name.extend_from_slice(b".next")?;
    Ok(name)
}

fn declared(alloc: Global, clocks: u32) -> Result<Names, Memory>
    requires { clocks ≤ MAX_TRIAL_CLOCKS }
    ensures { IfOk result (λ names. names ≡ map clock_name (range_with_len 0 clocks)) }
{
    let mut names = Names::new(alloc);
    for i in 0..clocks {
        names.add(&clock_name(alloc, i)?)?;
    }
    Ok(names)
}

/// The names of the declared clocks, and then of those that the calls hide.
pub fn names(alloc: Global, clocks: u32) -> Result<Names, Memory>
    requires least { 0 < clocks }
    requires most { clocks ≤ MAX_TRIAL_CLOCKS }
    ensures { IfOk result (λ names. names ≡
        map clock_name (range_with_len 0 clocks)
        ++ map hidden_name (range_with_len 0 (clocks - 1))) }
{
    let mut names = declared(alloc, clocks)?;
    for i in 0..clocks - 1 {
        names.add(&hidden_name(alloc, i)?)?;
    }
    Ok(names)
}
