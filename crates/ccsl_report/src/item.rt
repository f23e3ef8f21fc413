//! How items are named.

ghost use Rattle.std.specs.Prelude.{◌≡◌, ◌<◌, ◌≤◌, ◌++◌, [], length};
ghost use Rattle.ccsl_kernel.specs.Syntax.{item_count};
ghost use Rattle.ccsl_report.specs.Line.{line};
ghost use Rattle.std.specs.List.{concat};
ghost use Rattle.ccsl_report.specs.Parts.{part_texts};
ghost use Rattle.ccsl_report.specs.Room.{full_room};
ghost use Rattle.ccsl_report.specs.Texts.{of_label, constraint_pieces, item_pieces, broken_text};

use crate::line::Part;
use crate::line::Part::{Name, Number, Text};
use ccsl_kernel::System;

// What stands before a label. A constraint of the system itself has an empty one.
fn of_word(label: &[u8]) -> &'static str
    ensures { result.now ++ (label.now ++ []) ≡ concat (of_label label.now) }
{
    match label {
        [] => "",
        [..] => " of ",
    }
}

fn constraint_parts(system: &System, number: u32) -> [Part<'_>; 4]
    requires { number < length system.now.constraints }
    ensures { concat (part_texts result) ≡ concat (constraint_pieces system.now number) }
{
    let label = system.constraint(number).label.bytes();
    [
        Text("constraint "),
        Number(number as u64),
        Text(of_word(label)),
        Name(label),
    ]
}

/// The pieces of an item: a definition goes by its clock's name, a constraint by its number and its label.
pub(crate) fn item_parts(system: &System, item: u32) -> [Part<'_>; 4]
    requires { item < item_count system.now }
    ensures { concat (part_texts result) ≡ concat (item_pieces system.now item) }
{
    if item < system.definitions() {
        let name = system.names().get(system.scope().declared + item);
        [Text("definition "), Name(name), Text(""), Text("")]
    } else {
        constraint_parts(system, item - system.definitions())
    }
}

/// The pieces of the line on a broken item, behind the word for what it answers.
#[tactic(auto, using(crate::proofs::Lengths::broken_short))]
pub(crate) fn broken_parts<'a>(
    what: &'a str,
    step: u64,
    time: u64,
    item: u32,
    system: &'a System,
) -> [Part<'a>; 10]
    requires item { item < item_count system.now }
    requires word { length what.now ≤ 16 }
    ensures text { line (part_texts result) ≡ broken_text what.now step time item system.now }
    ensures short { length (broken_text what.now step time item system.now) ≤ full_room system.now }
{
    let [a, b, c, d] = item_parts(system, item);
    [
        Text(what),
        Text("no, step "),
        Number(step),
        Text(", time "),
        Number(time),
        Text(", "),
        a,
        b,
        c,
        d,
    ]
}
