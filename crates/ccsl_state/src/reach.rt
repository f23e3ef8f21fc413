//! The clocks that definitions lead to.

ghost use Rattle.std.specs.Prelude.{◌≡◌, ◌<◌, ◌||◌, ℕ, List, true};
ghost use Rattle.ccsl_base.specs.Clocks.{ticks_in};
ghost use Rattle.ccsl_kernel.specs.Plain.{plain_expr};
ghost use Rattle.ccsl_kernel.specs.Within.{PlaceWithin, ArgsWithin, NamesWithin};
ghost use Rattle.ccsl_state.specs.Reach.{place_names, arguments_name, names_clock, Includes, IsClosed};

use ccsl_base::{ClockSet, MAX_CLOCKS};
use ccsl_kernel::{Expr, Place, System, Value};

/// Makes a clock a member of a set. A parameter names none.
fn add_place(place: &Place, set: &mut ClockSet)
    requires { PlaceWithin (λ x. x < MAX_CLOCKS) place.now }
    ensures { (y : ℕ) → ticks_in y set.new ≡ (place_names place.now y || ticks_in y set.old) }
{
    if let Place::Clock(clock) = place {
        set.insert(*clock);
    }
}

/// Makes the clocks that are arguments members of a set.
fn add_arguments(args: &[Value], set: &mut ClockSet)
    requires { ArgsWithin (λ x. x < MAX_CLOCKS) args.now }
    ensures { (y : ℕ) → ticks_in y set.new ≡ (arguments_name args.now y || ticks_in y set.old) }
{
    if let Some((value, others)) = args.split_first() {
        if let Value::Clock(place) = value {
            add_place(place, set);
        }
        add_arguments(others, set);
    }
}

/// Makes the clocks that an expression names members of a set.
pub fn add_named(e: &Expr, set: &mut ClockSet)
    requires { NamesWithin (λ x. x < MAX_CLOCKS) (plain_expr e.now) }
    ensures { (y : ℕ) → ticks_in y set.new ≡
        (names_clock (plain_expr e.now) y || ticks_in y set.old) }
{
    match e {
        Expr::Name(place) => add_place(place, set),
        Expr::Call { args, .. } => add_arguments(args.members(), set),
        Expr::Never => {}
        Expr::Delay(a, _) | Expr::Await(a, _) | Expr::Filter(a, _) => add_named(a, set),
        Expr::Binary(_, a, d) | Expr::Delayed(a, _, d) | Expr::If(_, a, d) => {
            add_named(a, set);
            add_named(d, set);
        }
    }
}

/// The clocks that some clocks lead to: these, and with each defined clock those that its definition names. A
/// definition names lower clocks only, so one pass from the last one down finds all.
pub fn reached(system: &System, clocks: &ClockSet) -> ClockSet
    ensures has { (x : ℕ) → ticks_in x clocks.now ≡ true → ticks_in x result ≡ true }
    ensures closed { IsClosed system.now result }
    ensures least { (set : List ℕ) → IsClosed system.now set →
        Includes system.now set clocks.now → Includes system.now set result }
{
    let declared = system.scope().declared;
    let mut set = clocks.copy();
    for i in (0..system.definitions()).rev() {
        if set.has(declared + i) {
            add_named(system.definition(i), &mut set);
        }
    }
    set
}
