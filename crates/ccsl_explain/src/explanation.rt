//! The explanation of the formulas of a step.

ghost use Rattle.std.specs.Prelude.{◌≡◌, ◌<◌, ◌≤◌, ◌^◌, true, map, length, IfOk};
ghost use Rattle.ccsl_formula.specs.Plain.{plain};
ghost use Rattle.ccsl_refute.specs.Validity.{is_certificate};
ghost use Rattle.ccsl_solve.specs.Posed.{AllBelow};
ghost use Rattle.ccsl_explain.specs.Asked.{IsAsked};
ghost use Rattle.ccsl_explain.specs.Explains.{Explains};

use crate::copied::copies;
use crate::deletion::core_of;
use crate::least::least_steps;
use crate::refutation::certificate;
use crate::used::used_items;
use ccsl_base::{ClockSet, MAX_CLOCKS, Memory, Seq};
use ccsl_formula::{Formula, Partial, Scope};
use ccsl_refute::Line;
use ccsl_solve::{Answer, solve};
use std::alloc::Global;

/// What there is to say of the formulas of a step.
#[derive(Drop)]
pub enum Explained {
    /// A step is possible: this set satisfies all formulas.
    Open(ClockSet),
    /// No step is possible.
    Blocked {
        /// The items that block, by their numbers in ascending order.
        core: Seq<u32>,
        /// Lines of a certificate that cite these items alone.
        lines: Seq<Line>,
        /// For each of them, in order, the least set that satisfies all the others.
        without: Seq<ClockSet>,
    },
}

/// The explanation, where lines show that no step is possible. Items that don't block are taken out.
fn blocked(
    alloc: Global,
    formulas: &mut [Formula],
    scope: &Scope,
    lines: &[Line],
) -> Result<Explained, Memory>
    requires asked { IsAsked scope.now (map plain formulas.old) }
    requires certificate { is_certificate scope.now (map plain formulas.old) lines.now ≡ true }
    ensures { IfOk result (λ explained. Explains scope.now (map plain formulas.old) explained) }
{
    let used = used_items(alloc, lines, formulas.len())?;
    let core = core_of(alloc, formulas, scope, used)?;
    let lines = certificate(alloc, formulas, scope)?;
    let without = least_steps(alloc, formulas, scope, &core)?;
    Ok(Explained::Blocked {
        core: Seq::new(core),
        lines,
        without: Seq::new(without),
    })
}

/// Says which items block every step, by the formulas of all items. The formula of item `i` stands at place `i`.
pub fn explain(alloc: Global, formulas: &[Formula], scope: &Scope) -> Result<Explained, Memory>
    requires declared { scope.now.declared ≤ scope.now.named }
    requires named { scope.now.named ≤ MAX_CLOCKS }
    requires reads { AllBelow scope.now.named (map plain formulas.now) }
    requires few { length formulas.now < 2 ^ 32 }
    ensures { IfOk result (λ explained. Explains scope.now (map plain formulas.now) explained) }
{
    match solve(alloc, formulas, scope, &Partial::empty())? {
        Answer::Step(set) => Ok(Explained::Open(set)),
        Answer::Refuted(lines) => {
            let mut copies = copies(alloc, formulas)?;
            blocked(alloc, &mut copies, scope, lines.members())
        }
    }
}
