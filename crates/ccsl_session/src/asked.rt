//! What a line asks.

ghost use Rattle.std.specs.Prelude.{◌≡◌, ◌<◌, [], ◌∷◌, IfSome};
ghost use Rattle.ccsl_base.specs.Names.{find_name};
ghost use Rattle.ccsl_lines.specs.Lines.{Whole};
ghost use Rattle.ccsl_session.specs.Asked.{declared_names, asked_alone, asked_with, asked};
ghost use Rattle.ccsl_session.specs.Reading.{plain, read_clocks};

use crate::token::Tokens;
use ccsl_base::{ClockSet, MAX_CLOCKS, is_text};
use ccsl_kernel::System;

/// What a line asks of a session.
#[derive(Drop)]
pub(crate) enum Asked {
    /// The line has no token.
    Nothing,
    /// These declared clocks are to tick.
    Fire(ClockSet),
    Next,
    Back,
    Allowed,
    Trace,
    Quit,
    Long,
    Unknown,
}

impl Asked {
    ghost use Rattle.ccsl_session.specs.Asked.{is_quit};
    ghost use Rattle.ccsl_session.specs.Reading.{plain};

    pub(crate) fn is_quit(&self) -> bool
        ensures { result ≡ is_quit (plain self.now) }
    {
        matches!(self, Asked::Quit)
    }
}

/// What a line of one token asks.
fn asked_alone(word: &[u8]) -> Asked
    ensures { plain result ≡ asked_alone word.now }
{
    if is_text(word, b"step") {
        Asked::Next
    } else if is_text(word, b"back") {
        Asked::Back
    } else if is_text(word, b"allowed") {
        Asked::Allowed
    } else if is_text(word, b"trace") {
        Asked::Trace
    } else if is_text(word, b"quit") {
        Asked::Quit
    } else {
        Asked::Unknown
    }
}

/// The number of a declared clock.
fn declared_clock(system: &System, name: &[u8]) -> Option<u32>
    ensures place { result ≡ find_name name.now (declared_names system.now) }
    ensures below { IfSome result (λ clock. clock < MAX_CLOCKS) }
{
    let clock = system.names().find(name)?;
    if clock < system.scope().declared {
        Some(clock)
    } else {
        None
    }
}

/// The set of the clocks of some names, where each is declared and none is named twice.
fn clocks(system: &System, first: &[u8], others: &mut Tokens<'_>) -> Option<ClockSet>
    ensures { result ≡ read_clocks system.now [] (first.now ∷ others.old) }
{
    let mut set = ClockSet::empty();
    set.insert(declared_clock(system, first)?);
    'names: while let Some(name) = others.next() {
        let clock = declared_clock(system, name)?;
        if set.has(clock) {
            return None;
        }
        set.insert(clock);
    }
    Some(set)
}

/// What a line of a token and more asks.
fn asked_with(system: &System, word: &[u8], first: &[u8], others: &mut Tokens<'_>) -> Asked
    ensures { plain result ≡ asked_with system.now word.now (first.now ∷ others.old) }
{
    if !is_text(word, b"fire") {
        return Asked::Unknown;
    }
    match clocks(system, first, others) {
        Some(set) => Asked::Fire(set),
        None => Asked::Unknown,
    }
}

/// What a line asks that is not too long.
pub(crate) fn read(system: &System, line: &[u8]) -> Asked
    ensures { plain result ≡ asked system.now (Whole line.now) }
{
    let mut tokens = Tokens::of(line);
    let Some(word) = tokens.next() else {
        return Asked::Nothing;
    };
    match tokens.next() {
        None => asked_alone(word),
        Some(first) => asked_with(system, word, first, &mut tokens),
    }
}
