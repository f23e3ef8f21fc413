//! The ticks of a written trace, by its lines.

ghost use Rattle.std.specs.Prelude.{◌≡◌, ◌==◌, ◌<◌, ◌^◌, ℕ, List, IfOk, length};
ghost use Rattle.std.specs.List.{count_by};
ghost use Rattle.ccsl_kernel.specs.Lives.{Step};
ghost use Rattle.ccsl_vcd_write.specs.Text.{vcd_text};
ghost use Rattle.ccsl_roundtrip.specs.Ticks.{ticks_written};

use ccsl_base::Memory;
use ccsl_kernel::System;
use ccsl_vcd_write::header;
use std::alloc::Global;

// How many lines end in a text.
fn lines(text: &[u8]) -> u64
    ensures { result ≡ count_by (λ b. b == 10) text.now }
{
    text.iter().filter(|byte| **byte == b'\n').count() as u64
}

/// How many ticks of clocks that are not hidden a written trace of so many steps has: each step has a line for its
/// time, and one for each of its ticks.
pub fn ticks_in_text(alloc: Global, system: &System, text: &[u8], steps: u64) -> Result<u64, Memory>
    requires { (T : List Step) × (text.now ≡ vcd_text system.now T) × (length T ≡ steps) }
    ensures { IfOk result (λ ticks. (T : List Step) →
        text.now ≡ vcd_text system.now T → length T ≡ steps →
        ticks ≡ ticks_written system.now T) }
{
    let header = header(alloc, system)?;
    Ok(lines(text) - lines(&header) - steps)
}
