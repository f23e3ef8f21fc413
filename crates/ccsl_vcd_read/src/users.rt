//! Which bound clocks have a code.

ghost use Rattle.std.specs.Prelude.{◌≡◌, ℕ, [], IfOk, OnErr, slice_get, ◌<◌, length};
ghost use Rattle.ccsl_vcd_read.specs.Users.{user_in, with_slot, IsMore};

use ccsl_base::Memory;
use std::alloc::Global;
use std::marker::Model;

/// A bound clock, the number of its code, and whether it is an event.
#[derive(Clone, Copy)]
pub struct Slot {
    pub clock: u32,
    pub code: u32,
    pub event: bool,
}

/// No clock that has a code, the one that has it, or several.
#[derive(Clone, Copy)]
pub enum User {
    Nobody,
    One(Slot),
    Many,
}

impl User {
    ghost use Rattle.ccsl_vcd_read.specs.Users.{with_slot};

    // The same with one clock more.
    fn with(self, slot: Slot) -> User
        ensures { result ≡ with_slot self slot }
    {
        match self {
            User::Nobody => User::One(slot),
            _ => User::Many,
        }
    }
}

/// The users of the codes by number. No clock has a code past the last one.
#[derive(Drop)]
pub(crate) struct Users {
    users: Vec<User>,
}

impl Model for Users {
    ghost use Rattle.std.specs.Prelude.{List};
    ghost use Rattle.ccsl_vcd_read.specs.declared.users.User.{User};

    ghost Value = { List User };

    ghost view = { λ u. u.users.items };
}

impl Users {
    pub(crate) fn new(alloc: Global) -> Users
        ensures { result ≡ [] }
    {
        Users {
            users: Vec::new(alloc),
        }
    }

    /// The user of a code.
    #[inline(always)]
    pub(crate) fn of(&self, code: u32) -> User
        ensures { result ≡ user_in (slice_get self.now code) }
    {
        match self.users.as_slice().get(code as usize) {
            Some(user) => *user,
            None => User::Nobody,
        }
    }

    // Makes room for a code.
    fn reach(&mut self, code: usize) -> Result<(), Memory>
        ensures room { IfOk result (λ _. code < length self.new) }
        ensures same { (n : ℕ) → user_in (slice_get self.new n) ≡ user_in (slice_get self.old n) }
    {
        while self.users.len() <= code {
            self.users.push(User::Nobody)?;
        }
        Ok(())
    }

    /// One more clock.
    pub(crate) fn add(&mut self, slot: Slot) -> Result<(), Memory>
        ensures added { IfOk result (λ _. IsMore self.old self.new slot) }
        ensures same { OnErr result ((n : ℕ) →
            user_in (slice_get self.new n) ≡ user_in (slice_get self.old n)) }
    {
        let place = slot.code as usize;
        self.reach(place)?;
        self.users[place] = self.users[place].with(slot);
        Ok(())
    }
}
