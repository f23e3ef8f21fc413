//! The answers of `periodic`. Words are handed in as their texts.

ghost use Rattle.std.specs.Prelude.{◌≡◌, ◌≢◌, IfOk};
ghost use Rattle.ccsl_report.specs.Texts.{periodic_holds_text, periodic_fails_text, periodic_word_text, periodic_long_text};

use crate::line::Part::{Name, Number, Text};
use crate::line::line;
use ccsl_base::{MAX_LETTERS, Memory};
use ccsl_command::RelationName;
use std::alloc::Global;

/// The relation holds between the two filters at every tick.
pub fn periodic_holds<'a>(
    alloc: Global,
    left: &'a [u8],
    right: &'a [u8],
    relation: RelationName,
) -> Result<Vec<u8>, Memory>
    requires { relation ≢ RelationName.On }
    ensures { IfOk result (λ text. text.items ≡ periodic_holds_text left.now right.now relation) }
{
    let parts = [
        Text("periodic: "),
        Name(left),
        Text(" "),
        Text(relation.text()),
        Text(" "),
        Name(right),
        Text(" holds"),
    ];
    line(alloc, &parts)
}

/// The relation between the two filters fails at this tick first, counted from 1.
pub fn periodic_fails<'a>(
    alloc: Global,
    left: &'a [u8],
    right: &'a [u8],
    relation: RelationName,
    tick: u64,
) -> Result<Vec<u8>, Memory>
    requires { relation ≢ RelationName.On }
    ensures { IfOk result (λ text. text.items
        ≡ periodic_fails_text left.now right.now relation tick) }
{
    let parts = [
        Text("periodic: "),
        Name(left),
        Text(" "),
        Text(relation.text()),
        Text(" "),
        Name(right),
        Text(" fails at tick "),
        Number(tick),
    ];
    line(alloc, &parts)
}

/// The word of the one filter on the other.
pub fn periodic_word(alloc: Global, word: &[u8]) -> Result<Vec<u8>, Memory>
    ensures { IfOk result (λ text. text.items ≡ periodic_word_text word.now) }
{
    line(alloc, &[Text("periodic: "), Name(word)])
}

/// The word of the one filter on the other has so many letters, more than a word may have.
pub fn periodic_long(alloc: Global, letters: u64) -> Result<Vec<u8>, Memory>
    ensures { IfOk result (λ text. text.items ≡ periodic_long_text letters) }
{
    let parts = [
        Text("periodic: "),
        Number(letters),
        Text(" letters, at most "),
        Number(MAX_LETTERS as u64),
    ];
    line(alloc, &parts)
}
