//! Which variables of a trace clocks are bound to.

use crate::said::parted;
use ccsl_base::Memory;
use ccsl_kernel::System;
use ccsl_page::{Page, Piece};
use ccsl_scopes::{Header, Kind, Variable, put_full_path};
use std::alloc::Global;

/// The most variables that are listed where none is bound.
const MOST: usize = 8;

// What stands behind the last blank of a path.
fn reference_of(path: &[u8]) -> &[u8] {
    let mut rest = path;
    for _ in 0..path.len() {
        let (scope, behind) = parted(rest, b' ');
        if scope.len() == rest.len() {
            return rest;
        }
        rest = behind;
    }
    rest
}

fn depth_of(path: &[u8]) -> usize {
    path.iter().filter(|byte| **byte == b' ').count()
}

// Whether a clock may be bound to it: an event, or a net of one bit.
fn can_tick(variable: &Variable) -> bool {
    match variable.kind {
        Kind::Event => true,
        Kind::Bits => variable.size == 1,
        Kind::Other => false,
    }
}

/// For each clock the variable that it is bound to: of those with its name the first in the fewest scopes.
#[derive(Drop)]
pub(crate) struct Bindings {
    found: Vec<Option<usize>>,
}

impl Bindings {
    pub(crate) fn find(
        alloc: Global,
        system: &System,
        header: &Header,
    ) -> Result<Bindings, Memory> {
        let mut found = Vec::new(alloc);
        for _ in 0..system.written() {
            found.push(None)?;
        }
        let mut bindings = Bindings { found };
        for (i, variable) in header.variables.iter().enumerate() {
            if can_tick(variable)
                && let Some(clock) = system.names().find(reference_of(variable.path.as_slice()))
            {
                bindings.note(header.variables.as_slice(), clock, i);
            }
        }
        Ok(bindings)
    }

    fn note(&mut self, variables: &[Variable], clock: u32, i: usize) {
        let Some(slot) = self.found.get_mut(clock as usize) else {
            return;
        };
        let is_outer = match (*slot, variables.get(i)) {
            (None, _) => true,
            (Some(first), Some(variable)) => match variables.get(first) {
                Some(other) => depth_of(variable.path.as_slice()) < depth_of(other.path.as_slice()),
                None => true,
            },
            (Some(_), None) => false,
        };
        if is_outer {
            *slot = Some(i);
        }
    }

    /// The variable of a clock.
    pub(crate) fn of<'h>(&self, header: &'h Header, clock: u32) -> Option<&'h Variable> {
        match self.found.get(clock as usize) {
            Some(Some(i)) => header.variables.get(*i),
            _ => None,
        }
    }
}

/// Puts the full path of a variable.
pub(crate) fn put_path(alloc: Global, page: &mut Page, variable: &Variable) -> Result<(), Memory> {
    let mut path = Vec::new(alloc);
    put_full_path(variable, &mut path)?;
    page.put(&[Piece::Name(path.as_slice())])
}

fn lower(byte: u8) -> u8 {
    if byte >= b'A' && byte <= b'Z' {
        byte + 32
    } else {
        byte
    }
}

fn is_same_but_for_case(a: &[u8], b: &[u8]) -> bool {
    a.len() == b.len() && a.iter().zip(b.iter()).all(|(x, y)| lower(*x) == lower(*y))
}

// Why a variable with a clock's name, whatever the case, is not the one that it is bound to.
fn put_reason(page: &mut Page, variable: &Variable, name: &[u8]) -> Result<(), Memory> {
    match variable.kind {
        Kind::Other => page.put(&[Piece::Text(", a real number or a text")]),
        Kind::Bits if variable.size != 1 => page.put(&[
            Piece::Text(", a vector of "),
            Piece::Number(u64::from(variable.size)),
            Piece::Text(" bits"),
        ]),
        _ if reference_of(variable.bare_path()) != name => {
            page.put(&[Piece::Text(", of another case")])
        }
        _ => page.put(&[
            Piece::Text(", in "),
            Piece::Number(depth_of(variable.path.as_slice()) as u64),
            Piece::Text(" scopes"),
        ]),
    }
}

/// Puts the variables that may be meant by a clock's name, a line each.
pub(crate) fn put_near(
    alloc: Global,
    page: &mut Page,
    header: &Header,
    name: &[u8],
) -> Result<(), Memory> {
    let mut count = 0usize;
    for variable in &header.variables {
        if count < MOST && is_same_but_for_case(reference_of(variable.bare_path()), name) {
            count += 1;
            page.put(&[Piece::Text("  ")])?;
            put_path(alloc, page, variable)?;
            put_reason(page, variable, name)?;
            page.put_line(&[])?;
        }
    }
    if count == 0 {
        page.put_line(&[
            Piece::Text("  no variable of the trace is called "),
            Piece::Name(name),
            Piece::Text(", whatever the case"),
        ])?;
    }
    Ok(())
}

// The first variable of one bit with a clock's name, whatever the case, and else the first of any size.
fn first_near<'h>(header: &'h Header, name: &[u8]) -> Option<&'h Variable> {
    header.variables.iter().find(|variable| is_same_but_for_case(
        reference_of(variable.bare_path()),
        name,
    ))
}

/// Puts the line of a file of events that would pick one of these variables.
pub(crate) fn put_event(
    alloc: Global,
    page: &mut Page,
    header: &Header,
    name: &[u8],
) -> Result<(), Memory> {
    let Some(variable) = first_near(header, name) else {
        return Ok(());
    };
    let word = if variable.size == 1 {
        " = rise "
    } else {
        " = change "
    };
    page.put(&[
        Piece::Text("  a line for ccsl-events: "),
        Piece::Name(name),
        Piece::Text(word),
    ])?;
    put_path(alloc, page, variable)?;
    page.put_line(&[Piece::Text(";")])
}
