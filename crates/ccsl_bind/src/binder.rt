//! The declarations of a trace's header, as far as they bind clocks.

ghost use Rattle.std.specs.Prelude.{◌≡◌, ◌<◌, ◌≤◌, ℕ, List, [], ◌∷◌, ◌++◌, IfOk, IfErr, length, Ok, OnOk, Some, None, slice_get, slice_set, slice_index_or};
ghost use Rattle.ccsl_vcd.specs.Binding.{Declaration, Wanted, bind};
ghost use Rattle.ccsl_bind.specs.Codes.{codes_of, put_code, number_of};
ghost use Rattle.ccsl_bind.specs.Collected.{wanted_of};
ghost use Rattle.ccsl_bind.specs.Gathered.{StandsFor, Refuses};
ghost use Rattle.ccsl_bind.specs.Candidates.{may_bind, noted};
ghost use Rattle.ccsl_bind.specs.Slots.{clocks_from};

use crate::binding::Binding;
use crate::candidate::{Candidates, noted};
use crate::fault::BindFault;
use ccsl_base::{ClockSet, HashKeys, MAX_CLOCKS, Memory, Names, is_text};
use ccsl_kernel::System;
use std::alloc::Global;
use std::marker::Model;

/// Takes the declarations of a header in order. One that answered `Memory` is not used again.
pub struct Binder {
    names: Names,
    declared: u32,
    codes: Names<HashKeys>,
    found: Vec<Option<Candidates>>,
}

impl Model for Binder {
    ghost use Rattle.ccsl_bind.specs.Gathered.{Collected};

    ghost Value = { Collected };

    ghost view = { λ b. record { wanted = record { names = b.names; declared = b.declared }; codes = b.codes; found = b.found.items } };
}

// By hand and not derived: to the prover, an early return then drops one by a single call.
impl Drop for Binder {
    fn drop(self) {
        let Binder {
            names: _names,
            declared: _,
            codes: _codes,
            found: _found,
        } = self;
    }
}

// An event of any size, or a net of one bit.
fn may_bind(kind: &[u8], size: u32) -> bool
    ensures { result ≡ may_bind kind.now size }
{
    is_text(kind, b"event")
        || (size == 1
            && !(is_text(kind, b"real") || is_text(kind, b"realtime") || is_text(kind, b"string")))
}

impl Binder {
    /// A binder before the first declaration, for the written clocks of a system. A stranger chooses the codes, so that
    /// their table has a hasher with random keys.
    pub fn open(alloc: Global, keys: HashKeys, system: &System) -> Result<Binder, Memory>
        ensures { IfOk result (λ b. StandsFor (wanted_of system.now) b []) }
    {
        let mut names = Names::new(alloc);
        let mut found = Vec::new(alloc);
        for clock in 0..system.written() {
            names.add(system.names().get(clock))?;
            found.push(None)?;
        }
        Ok(Binder {
            names,
            declared: system.scope().declared,
            codes: Names::with_hasher(alloc, keys),
            found,
        })
    }

    // The number of a code, which is a new one where no declaration has it yet.
    fn number(&mut self, code: &[u8]) -> Result<u32, Memory>
        requires { length self.old.codes < 4294967295 }
        ensures codes { OnOk result (self.new
            ≡ record self.old { codes = put_code self.old.codes code.now }) }
        ensures there { IfOk result (λ n. number_of code.now self.new.codes ≡ Some n) }
    {
        if let Some(number) = self.codes.find(code) {
            return Ok(number);
        }
        let number = self.codes.len();
        self.codes.add(code)?;
        Ok(number)
    }

    /// Takes the next declaration: how many scopes it stands in, its type, size, code and reference.
    pub fn declare(
        &mut self,
        depth: u32,
        kind: &[u8],
        size: u32,
        code: &[u8],
        reference: &[u8],
    ) -> Result<(), Memory>
        requires { (wanted : Wanted) × (ds : List Declaration) × StandsFor wanted self.old ds
            × (length ds < 4294967295) }
        ensures { IfOk result (λ _. (wanted : Wanted) (ds : List Declaration) →
            StandsFor wanted self.old ds →
            StandsFor wanted self.new (ds ++ record {
              depth = depth;
              kind = kind.now;
              size = size;
              code = code.now;
              reference = reference.now;
            } ∷ [])) }
    {
        let number = self.number(code)?;
        if may_bind(kind, size) {
            self.names.are_distinct();
            if let Some(clock) = self.names.find(reference) {
                self.note(clock, depth, number, is_text(kind, b"event"));
            }
        }
        Ok(())
    }

    // One more declaration that qualifies for a clock.
    fn note(&mut self, clock: u32, depth: u32, code: u32, event: bool)
        requires { clock < length self.old.found }
        ensures { self.new ≡ record self.old {
          found = slice_set self.old.found clock
              (Some (noted (slice_index_or self.old.found clock None) depth code event));
        } }
    {
        let candidates = noted(self.found[clock as usize], depth, code, event);
        self.found[clock as usize] = Some(candidates);
    }

    /// Binds the clocks.
    pub fn close(self) -> Result<Binding, BindFault>
        requires { (wanted : Wanted) × (ds : List Declaration) × StandsFor wanted self ds }
        ensures bound { IfOk result (λ b. (wanted : Wanted) (ds : List Declaration) →
            StandsFor wanted self ds →
            bind wanted ds ≡ Ok b.bound) }
        ensures codes { IfOk result (λ b. (wanted : Wanted) (ds : List Declaration) →
            StandsFor wanted self ds →
            b.codes ≡ codes_of ds) }
        ensures refuses { IfErr result (λ e. (wanted : Wanted) (ds : List Declaration) →
            StandsFor wanted self ds →
            Refuses e (bind wanted ds)) }
    {
        let Binder {
            names: _names,
            declared,
            codes,
            found,
        } = self;
        let bound = match bound_clocks(found.as_slice(), declared) {
            Ok(bound) => bound,
            Err(fault) => return Err(fault),
        };
        Ok(Binding::new(codes, bound, found))
    }
}

// The clocks that are bound, by what is known of each, or the fault of the first that has one.
fn bound_clocks(found: &[Option<Candidates>], declared: u32) -> Result<ClockSet, BindFault>
    requires { length found.now ≤ MAX_CLOCKS }
    ensures { clocks_from 0 declared found.now ≡ result }
{
    let mut bound = ClockSet::empty();
    for i in 0..found.len() {
        let clock = i as u32;
        match found[i] {
            Some(candidates) => {
                if !candidates.same {
                    return Err(BindFault::Ambiguous(clock));
                }
                bound.insert(clock);
            }
            None => {
                if clock < declared {
                    return Err(BindFault::Unbound(clock));
                }
            }
        }
    }
    Ok(bound)
}
