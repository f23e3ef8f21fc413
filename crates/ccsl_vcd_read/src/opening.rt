//! Where the header ends and the body begins.

ghost use Rattle.std.specs.Prelude.{◌≡◌, ℕ, List, [], IfOk, IfErr, OnOk, IsTrue, map, Err};
ghost use Rattle.ccsl_vcd.specs.Binding.{Declaration, Wanted, bind};
ghost use Rattle.ccsl_bind.specs.Bindings.{are_declared};
ghost use Rattle.ccsl_bind.specs.Gathered.{StandsFor};
ghost use Rattle.ccsl_vcd_read.specs.Heading.{Caused, IsMemory};
ghost use Rattle.ccsl_vcd_read.specs.Marks.{mark_of};
ghost use Rattle.ccsl_vcd_read.specs.Opening.{IsBeginning, IsOpened};

use crate::amid::Amid;
use crate::body::Body;
use crate::codes::Codes;
use crate::marks::Marks;
use ccsl_base::{MAX_CLOCKS, Memory};
use ccsl_bind::{BindFault, Binder, Binding};
use ccsl_vcd::VcdFault;
use std::alloc::Global;

// The marks of the bound clocks before the first change. A net without a value counts as 1.
fn first_marks(alloc: Global, binding: &Binding) -> Result<Marks, Memory>
    ensures marks { IfOk result (λ m. m ≡ map (mark_of binding.now.codes [] []) binding.now.bound) }
    ensures declared { OnOk result (IsTrue (are_declared binding.now)) }
{
    let mut marks = Marks::new(alloc);
    binding.are_declared();
    for clock in 0..MAX_CLOCKS {
        if let Some(code) = binding.code_of(clock) {
            let event = binding.is_event(clock);
            marks.push(clock, code, event)?;
        }
    }
    Ok(marks)
}

// The body of bound clocks, before its first token.
fn begin(alloc: Global, binding: Binding) -> Result<Body, VcdFault>
    ensures begins { IfOk result (λ b. IsBeginning binding b) }
    ensures memory { IfErr result (λ f. IsMemory f) }
{
    let marks = first_marks(alloc, &binding)?;
    let binding = Codes::new(alloc, binding)?;
    Ok(Body {
        binding,
        marks,
        present: 0,
        amid: Amid::Changes,
        dumping: false,
    })
}

/// Binds the clocks, and begins the body.
pub(crate) fn open_body(alloc: Global, binder: Binder) -> Result<Body, VcdFault>
    requires { (wanted : Wanted) × (ds : List Declaration) × StandsFor wanted binder ds }
    ensures opened { IfOk result (λ b. (wanted : Wanted) (ds : List Declaration) →
        StandsFor wanted binder ds → IsOpened wanted ds b) }
    ensures refuses { IfErr result (λ f.
        Caused f ((wanted : Wanted) (ds : List Declaration) → StandsFor wanted binder ds →
        bind wanted ds ≡ Err f)) }
{
    match binder.close() {
        Ok(binding) => match begin(alloc, binding) {
            Ok(body) => Ok(body),
            Err(fault) => Err(fault),
        },
        Err(BindFault::Unbound(clock)) => Err(VcdFault::Unbound { clock }),
        Err(BindFault::Ambiguous(clock)) => Err(VcdFault::Ambiguous { clock }),
        Err(BindFault::Memory) => Err(VcdFault::Memory),
    }
}
