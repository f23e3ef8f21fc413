//! A specification that was accepted, with its text, and where its items stand.

use crate::said::Named;
use ccsl_ast::File;
use ccsl_base::Memory;
use ccsl_kernel::System;
use ccsl_library::TEXT;
use ccsl_origin::{Home, Origin, Wanted, origins};
use ccsl_page::{Page, Piece, put_excerpt};
use std::alloc::Global;

/// An accepted specification.
#[derive(Clone, Copy)]
pub(crate) struct Case<'a> {
    pub(crate) alloc: Global,
    pub(crate) name: &'a str,
    pub(crate) text: &'a [u8],
    pub(crate) file: &'a File,
    pub(crate) library: &'a File,
    pub(crate) system: &'a System,
}

// How many bytes a line has from a place on, up to the semicolon that ends it.
fn statement_len(text: &[u8], at: usize) -> usize {
    let rest = &text[at.min(text.len())..];
    rest.iter()
        .position(|byte| *byte == b';' || *byte == b'\n')
        .unwrap_or(rest.len())
}

impl<'a> Case<'a> {
    /// The number of an item among the items. None where the system has no such item.
    pub(crate) fn item_of(&self, named: Named<'_>) -> Option<u32> {
        match named {
            Named::Definition(name) => {
                let clock = self.system.names().find(name)?;
                clock.checked_sub(self.system.scope().declared)
            }
            Named::Constraint(number) => self.system.definitions().checked_add(number),
        }
    }

    // Which item is wanted, in the order of the expansion.
    fn wanted(&self, item: u32) -> Wanted {
        let own = self
            .system
            .written()
            .saturating_sub(self.system.scope().declared);
        if item < own {
            Wanted::Written(item)
        } else if item < self.system.definitions() {
            Wanted::Hidden(item - own)
        } else {
            Wanted::Constraint(item - self.system.definitions())
        }
    }

    fn put_origin(
        &self,
        page: &mut Page,
        origin: Origin,
        said: &[Piece<'_>],
    ) -> Result<(), Memory> {
        let (name, text) = match origin.home {
            Home::Specification => (self.name, self.text),
            Home::Library => ("library", TEXT),
        };
        let count = statement_len(text, origin.at);
        put_excerpt(page, name, text, origin.at, count, said)
    }

    /// Puts the lines that an item comes from, the last with what is said of it behind its mark.
    pub(crate) fn put_item(
        &self,
        page: &mut Page,
        item: u32,
        said: &[Piece<'_>],
    ) -> Result<(), Memory> {
        let trail = origins(self.alloc, self.library, self.file, self.wanted(item))?;
        for (i, origin) in trail.iter().enumerate() {
            if i.saturating_add(1) == trail.len() {
                self.put_origin(page, *origin, said)?;
            } else {
                self.put_origin(page, *origin, &[])?;
            }
        }
        Ok(())
    }
}
