//! The trace of a run.

ghost use Rattle.std.specs.Prelude.{◌≡◌, ◌<◌, ◌^◌, IfOk, length};
ghost use Rattle.ccsl_kernel.specs.Runs.{completed};
ghost use Rattle.ccsl_vcd_write.specs.Text.{vcd_text};

use ccsl_base::{ClockSet, Memory};
use ccsl_kernel::System;
use ccsl_state::States;
use ccsl_vcd_write::{header, step};
use std::alloc::Global;

/// The value change dump of the run that declared sets complete to.
pub(crate) fn trace(alloc: Global, system: &System, sets: &[ClockSet]) -> Result<Vec<u8>, Memory>
    requires { length sets.now < 2 ^ 64 }
    ensures { IfOk result (λ text. text.items
        ≡ vcd_text system.now (completed system.now sets.now)) }
{
    system.is_accepted();
    let mut text = header(alloc, system)?;
    let mut states = States::open(alloc, system)?;
    for n in 0..sets.len() {
        step(n as u64, &states.advance(&sets[n]), system, &mut text)?;
    }
    Ok(text)
}
