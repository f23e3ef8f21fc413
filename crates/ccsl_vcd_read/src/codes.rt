//! The declared codes, and a table of the short ones.

ghost use Rattle.std.specs.Prelude.{◌≡◌, ◌<◌, ◌≤◌, ℕ, List, [], ◌∷◌, IfOk, IfSome, OnSome, Some, vec_len, vec_capacity, map, get_or, length, true, false};
ghost use Rattle.ccsl_bind.specs.Codes.{number_of};
ghost use Rattle.ccsl_vcd_lex.specs.ShortCodes.{place_of};

use ccsl_base::{ClockSet, Memory};
use ccsl_bind::Binding;
use ccsl_vcd_lex::{SHORT, place_of};
use std::alloc::Global;
use std::marker::Model;

/// A binding whose short codes are found without hashing, once they were found.
#[derive(Drop)]
pub(crate) struct Codes {
    binding: Binding,
    // at the place of a code one more than its number, and 0 before it is found; it has room for all places from the
    // start, and is as long as the codes that were found ask
    table: Vec<u32>,
}

impl Model for Codes {
    ghost use Rattle.std.specs.Prelude.{◌≤◌, vec_len, vec_capacity};
    ghost use Rattle.ccsl_bind.specs.Bindings.{Bindings};
    ghost use Rattle.ccsl_vcd_lex.specs.ShortCodes.{SHORT};
    ghost use Rattle.ccsl_vcd_read.specs.Places.{AreFound};

    ghost Value = { Bindings };

    ghost view = { λ c. c.binding };

    ghost invariant = { λ c. (vec_len c.table ≤ SHORT) × (SHORT ≤ vec_capacity c.table)
        × AreFound c.table.items c.binding.codes };
}

// Makes a table reach a place, within its room.
fn reach(table: &mut Vec<u32>, place: usize)
    requires { place < vec_capacity table.old }
    ensures reaches { place < vec_len table.new }
    ensures most { place < SHORT → vec_len table.old ≤ SHORT → vec_len table.new ≤ SHORT }
    ensures room { vec_capacity table.old ≤ vec_capacity table.new }
    ensures same { (i : ℕ) → get_or table.new.items i 0 ≡ get_or table.old.items i 0 }
{
    if place >= table.len() {
        let _ = table.resize(place + 1, 0);
    }
}

impl Codes {
    /// The codes of a binding.
    pub(crate) fn new(alloc: Global, binding: Binding) -> Result<Codes, Memory>
        ensures { IfOk result (λ c. c ≡ binding) }
    {
        let table = Vec::with_capacity(alloc, SHORT)?;
        Ok(Codes { binding, table })
    }

    /// The number of the code of a place, if it was found before.
    #[inline(always)]
    pub(crate) fn known(&self, place: usize) -> Option<u32>
        ensures number { IfSome result (λ n. (code : List ℕ) → place ≡ place_of code →
            number_of code self.now.codes ≡ Some n) }
        ensures below { OnSome result (place < SHORT) }
    {
        if place >= SHORT || place >= self.table.len() {
            return None;
        }
        let next = self.table[place];
        if next == 0 { None } else { Some(next - 1) }
    }

    // A code of that place was found.
    fn put(&mut self, place: usize, number: u32)
        requires { (code : List ℕ) × (place ≡ place_of code)
            × (number_of code self.old.codes ≡ Some number) }
        ensures { self.new ≡ self.old }
    {
        if place < SHORT && number < u32::MAX {
            reach(&mut self.table, place);
            self.table[place] = number + 1;
        }
    }

    /// The number of a declared code, and `None` exactly where no declaration has it.
    #[inline(always)]
    pub(crate) fn find(&mut self, code: &[u8]) -> Option<u32>
        ensures number { result ≡ number_of code.now self.old.codes }
        ensures same { self.new ≡ self.old }
    {
        if let Some(number) = self.known(place_of(code)) {
            return Some(number);
        }
        let number = self.binding.find(code)?;
        self.put(place_of(code), number);
        Some(number)
    }

    /// The set of bound clocks.
    pub(crate) fn bound(&self) -> &ClockSet
        ensures { result.now ≡ map (λ b. b.clock) self.now.bound }
    {
        self.binding.bound()
    }
}
