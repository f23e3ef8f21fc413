//! The declared codes, and which of them are kept.

ghost use Rattle.std.specs.Prelude.{◌≡◌, ◌<◌, ℕ, List, length, IfOk, slice_index_or};
ghost use Rattle.ccsl_vcd_lex.specs.ShortCodes.{place_of};
ghost use Rattle.ccsl_events.specs.Places.{entry_of};

use ccsl_base::{HashKeys, Memory, Names};
use ccsl_vcd_lex::{SHORT, place_of};
use std::alloc::Global;
use std::marker::Model;

/// What is known of a code.
#[derive(Clone, Copy, PartialEq, Eq)]
pub(crate) enum Entry {
    Undeclared,
    /// declared, and read by nothing
    Unused,
    /// the number of its first variable
    Used(u32),
}

/// A table of the short codes, and one of the others.
pub(crate) struct Codes {
    names: Names<HashKeys>,
    short: Vec<Entry>,
    // by the number of a code
    entries: Vec<Entry>,
}

// By hand and not derived: to the prover, an early return then drops one by a single call.
impl Drop for Codes {
    fn drop(self) {
        let Codes {
            names: _names,
            short: _short,
            entries: _entries,
        } = self;
    }
}

impl Model for Codes {
    ghost use Rattle.ccsl_events.specs.Places.{Known, IsTable};

    ghost Value = { Known };

    ghost view = { λ c. record { names = c.names; entries = c.entries.items } };

    ghost invariant = { λ c. IsTable c.short.items
        (record { names = c.names; entries = c.entries.items }) };
}

// A table of so many places, where no code is declared.
fn undeclared(alloc: Global, count: usize) -> Result<Vec<Entry>, Memory>
    ensures len { IfOk result (λ table. length table.items ≡ count) }
    ensures none { IfOk result (λ table. (i : ℕ) →
        slice_index_or table.items i Entry.Undeclared ≡ Entry.Undeclared) }
{
    Ok(vec![in alloc; Entry::Undeclared; count]?)
}

impl Codes {
    /// These codes, each with what is known of it, by its number.
    pub(crate) fn new(
        alloc: Global,
        names: Names<HashKeys>,
        entries: Vec<Entry>,
    ) -> Result<Codes, Memory>
        ensures { IfOk result (λ c. c ≡ record { names = names; entries = entries.items }) }
    {
        let mut short = undeclared(alloc, SHORT)?;
        for i in 0..names.len() {
            let place = place_of(names.get(i));
            if place < short.len() && (i as usize) < entries.len() {
                short[place] = entries[i as usize];
            }
        }
        Ok(Codes {
            names,
            short,
            entries,
        })
    }

    /// What is known of the code of a place.
    #[inline(always)]
    pub(crate) fn at(&self, place: usize) -> Entry
        ensures { (code : List ℕ) → place_of code < SHORT → place ≡ place_of code →
            result ≡ entry_of self.now code }
    {
        if place < self.short.len() {
            self.short[place]
        } else {
            Entry::Undeclared
        }
    }

    /// What is known of a code, by its text.
    #[inline(never)]
    pub(crate) fn find(&self, code: &[u8]) -> Entry
        ensures { result ≡ entry_of self.now code.now }
    {
        let Some(i) = self.names.find(code) else {
            return Entry::Undeclared;
        };
        match self.entries.get(i as usize) {
            Some(entry) => *entry,
            None => Entry::Undeclared,
        }
    }
}
