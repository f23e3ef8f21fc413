//! The variables that triggers read, by the changes of a dump.

ghost use Rattle.std.specs.Prelude.{◌≡◌, ◌<◌, ◌-◌, ◌⊎◌, ℕ, List, IfErr, false, true, if◌then◌else◌, ◌++◌, [], Some, OnOk, IfOk, length, map, slice_get};
ghost use Rattle.ccsl_triggers.specs.Held.{held, settle_held, forget_held};
ghost use Rattle.ccsl_triggers.specs.Views.{View, no_view};
ghost use Rattle.ccsl_events.specs.Dump.{Plan, is_declared, heard_in};
ghost use Rattle.ccsl_triggers.specs.Triggers.{view_at};
ghost use Rattle.ccsl_events.specs.Keeping.{fires, with_names, users_of, with_users, sole_at, read_by, settle_read, replaced, held_at, settle_each, kept};
ghost use Rattle.ccsl_events.specs.Keeping.{set_one, set_chain, is_known, SameTables, Knows, Keeps, Settles};

use crate::codes::{Codes, Entry};
use crate::present::Present;
use ccsl_base::{ClockSet, MAX_CLOCKS, Memory};
use ccsl_triggers::{Signal, Watch, put_row};
use ccsl_vcd::VcdFault;

/// What is kept of the dump's values, and what is read of them.
pub(crate) struct Values {
    pub codes: Codes,
    pub signals: Vec<Signal>,
    /// the names whose triggers read a variable, by its number
    pub users: Vec<Vec<u32>>,
    pub watches: Vec<Watch>,
    /// the variables that changed at the present time
    pub touched: Vec<usize>,
    /// by a variable's number the name that waits for a record of it alone, where no other trigger reads it
    pub sole_names: Vec<Option<u32>>,
    /// of these the names whose records were heard at the present time, and no names
    pub names: ClockSet,
    pub none: ClockSet,
}

// By hand and not derived: to the prover, an early return then drops one by a single call.
impl Drop for Values {
    fn drop(self) {
        let Values {
            codes: _codes,
            signals: _signals,
            users: _users,
            watches: _watches,
            touched: _touched,
            sole_names: _sole_names,
            names: _names,
            none: _none,
        } = self;
    }
}

// Whether the event with a number happens at the present time.
#[inline(always)]
fn fires(name: u32, watches: &[Watch], signals: &[Signal]) -> bool
    ensures value { result ≡ fires watches.now (view_at signals.now) name }
    ensures below { result ≡ true → name < MAX_CLOCKS }
{
    if name >= MAX_CLOCKS {
        return false;
    }
    match watches.get(name as usize) {
        Some(watch) => watch.happens(signals),
        None => false,
    }
}

// Puts the names in a set that happen at the present time, of those whose triggers read a variable.
#[inline(always)]
fn put_names_of(users: &[u32], watches: &[Watch], signals: &[Signal], names: &mut ClockSet)
    ensures { names.new ≡ with_names users.now watches.now (view_at signals.now) names.old }
{
    for name in users {
        if fires(*name, watches, signals) {
            names.insert(*name);
        }
    }
}

// The name that waits for a record of a variable alone.
#[inline(always)]
fn sole_at(names: &[Option<u32>], number: usize) -> Option<u32>
    ensures { result ≡ sole_at names.now number }
{
    match names.get(number) {
        Some(name) => *name,
        None => None,
    }
}

// The names whose triggers read a variable.
#[inline(always)]
fn users_of(users: &[Vec<u32>], number: usize) -> &[u32]
    ensures { result.now ≡ users_of users.now number }
{
    match users.get(number) {
        Some(names) => names.as_slice(),
        None => &[],
    }
}

// The same of variables, by their numbers.
#[inline(always)]
fn put_names(
    variables: &[usize],
    users: &[Vec<u32>],
    watches: &[Watch],
    signals: &[Signal],
    names: &mut ClockSet,
)
    ensures { names.new ≡ with_users variables.now users.now watches.now
        (view_at signals.now) names.old }
{
    for number in variables {
        put_names_of(users_of(users, *number), watches, signals, names);
    }
}

fn forget_all(signals: &mut [Signal])
    ensures { map held signals.new ≡ map forget_held (map held signals.old) }
{
    for signal in signals {
        signal.forget();
    }
}

#[inline(always)]
fn settle_one(number: usize, signals: &mut [Signal]) -> Result<(), Memory>
    ensures { OnOk result (map held signals.new ≡
        replaced number settle_held (map held signals.old)) }
{
    if number < signals.len() {
        let signal = &mut signals[number];
        signal.settle()?;
    }
    Ok(())
}

// Settles the variables with these numbers.
#[inline(always)]
fn settle_all(numbers: &[usize], signals: &mut [Signal]) -> Result<(), Memory>
    ensures { OnOk result (map held signals.new ≡ settle_each numbers.now (map held signals.old)) }
{
    for number in numbers {
        settle_one(*number, signals)?;
    }
    Ok(())
}

// Settles the variable that the trigger of a name reads.
#[inline(always)]
fn settle_read(name: u32, watches: &[Watch], signals: &mut [Signal]) -> Result<(), Memory>
    ensures { OnOk result (map held signals.new ≡
        settle_each (read_by (slice_get watches.now name)) (map held signals.old)) }
{
    match watches.get(name as usize) {
        Some(watch) => settle_one(watch.trigger.signal(), signals),
        None => Ok(()),
    }
}

// Settles the variables that the triggers of these names read.
#[inline(always)]
fn settle_read_by(names: &ClockSet, watches: &[Watch], signals: &mut [Signal]) -> Result<(), Memory>
    ensures { OnOk result (map held signals.new ≡
        settle_read names.now watches.now (map held signals.old)) }
{
    for name in names.members() {
        settle_read(name, watches, signals)?;
    }
    Ok(())
}

// The same, if any of the names was known before the variables that changed were looked at.
#[inline(always)]
fn settle_known(
    is_any_known: bool,
    names: &ClockSet,
    watches: &[Watch],
    signals: &mut [Signal],
) -> Result<(), Memory>
    ensures { OnOk result (map held signals.new ≡
        (if is_any_known then settle_read names.now watches.now (map held signals.old)
        else map held signals.old)) }
{
    if !is_any_known {
        return Ok(());
    }
    settle_read_by(names, watches, signals)
}

impl Values {
    // A value of one variable. It answers the next one of the same code.
    #[inline(always)]
    fn set_one(
        &mut self,
        number: usize,
        letters: &[u8],
        is_dumped: bool,
    ) -> Result<Option<usize>, Memory>
        requires { number < length self.old.signals.items }
        ensures kept { OnOk result (kept self.new ≡
            set_one number letters.now is_dumped (kept self.old)) }
        ensures next { IfOk result (λ next. next ≡
            (held_at (map held self.old.signals.items) number).next) }
        ensures names { OnOk result (self.new.names ≡ self.old.names) }
        ensures same { OnOk result (SameTables self.old self.new) }
    {
        let signal = &mut self.signals[number];
        signal.set(letters, is_dumped)?;
        let next = signal.next;
        if !signal.touched {
            signal.touched = true;
            self.touched.push(number)?;
        }
        Ok(next)
    }

    // A value of a variable behind the first of its code, and of those behind it.
    #[inline(never)]
    fn set_others(&mut self, second: usize, letters: &[u8], is_dumped: bool) -> Result<(), Memory>
        ensures kept { OnOk result (kept self.new ≡
            set_chain (length self.old.signals.items - 1) (Some second) letters.now is_dumped
            (kept self.old)) }
        ensures names { OnOk result (self.new.names ≡ self.old.names) }
        ensures same { OnOk result (SameTables self.old self.new) }
    {
        let mut next = Some(second);
        'variables: for _count in 1..self.signals.len() {
            let Some(number) = next else {
                return Ok(());
            };
            if number >= self.signals.len() {
                return Ok(());
            }
            next = self.set_one(number, letters, is_dumped)?;
        }
        Ok(())
    }

    // A value of a variable, and of those of the same code and another size.
    #[inline(always)]
    fn set(&mut self, first: u32, letters: &[u8], is_dumped: bool) -> Result<(), Memory>
        ensures kept { OnOk result (kept self.new ≡
            set_chain (length self.old.signals.items) (Some first) letters.now is_dumped
            (kept self.old)) }
        ensures names { OnOk result (self.new.names ≡ self.old.names) }
        ensures same { OnOk result (SameTables self.old self.new) }
    {
        let number = first as usize;
        if number >= self.signals.len() {
            return Ok(());
        }
        match self.set_one(number, letters, is_dumped)? {
            Some(second) => self.set_others(second, letters, is_dumped),
            None => Ok(()),
        }
    }

    // A record for which one name waits alone, of a variable that is the only one of its code: its name is known at
    // once. It answers whether this is one.
    #[inline(always)]
    fn record(&mut self, first: u32, letters: &[u8], is_dumped: bool) -> Result<bool, Memory>
        ensures keeps { IfOk result (λ is_record. is_record ≡ true →
            (plan : Plan) (views : ℕ → View) (code : List ℕ) → Keeps plan views self.old →
            Knows plan (map held self.old.signals.items) code (Entry.Used first) →
            Keeps plan (heard_in plan code letters.now is_dumped views) self.new) }
        ensures still { IfOk result (λ is_record. is_record ≡ false → self.new ≡ self.old) }
    {
        let number = first as usize;
        let Some(name) = sole_at(self.sole_names.as_slice(), number) else {
            return Ok(false);
        };
        if is_dumped || name >= MAX_CLOCKS || number >= self.signals.len() {
            return Ok(false);
        }
        if self.signals[number].next.is_some() {
            return Ok(false);
        }
        self.signals[number].set(letters, false)?;
        self.names.insert(name);
        Ok(true)
    }

    // A value of the variables of a code, of which this is the first.
    #[inline(always)]
    fn hear(&mut self, first: u32, letters: &[u8], is_dumped: bool) -> Result<(), Memory>
        ensures { OnOk result ((plan : Plan) (views : ℕ → View) (code : List ℕ) →
            Keeps plan views self.old →
            Knows plan (map held self.old.signals.items) code (Entry.Used first) →
            Keeps plan (heard_in plan code letters.now is_dumped views) self.new) }
    {
        if self.record(first, letters, is_dumped)? {
            return Ok(());
        }
        self.set(first, letters, is_dumped)
    }

    /// A change of the value of a code, of which this is known, to these letters. It answers whether the code is
    /// declared.
    #[inline(always)]
    pub(crate) fn change_known(
        &mut self,
        known: Entry,
        letters: &[u8],
        is_dumped: bool,
        is_kept: bool,
    ) -> Result<bool, Memory>
        ensures declared { IfOk result (λ is_there. is_there ≡ is_known known) }
        ensures keeps { OnOk result ((plan : Plan) (views : ℕ → View) (code : List ℕ) →
            Keeps plan views self.old →
            Knows plan (map held self.old.signals.items) code known → is_known known ≡ true →
            Keeps plan
            (if is_kept then heard_in plan code letters.now is_dumped views else views) self.new) }
        ensures still { IfOk result (λ is_there. is_there ≡ false → self.new ≡ self.old) }
    {
        match known {
            Entry::Undeclared => return Ok(false),
            Entry::Used(first) if is_kept => self.hear(first, letters, is_dumped)?,
            Entry::Used(_) | Entry::Unused => {}
        }
        Ok(true)
    }

    /// A change of a code's value to these letters.
    pub(crate) fn change(
        &mut self,
        at: u64,
        code: &[u8],
        letters: &[u8],
        is_dumped: bool,
        is_kept: bool,
    ) -> Result<(), VcdFault>
        ensures kept { OnOk result ((plan : Plan) (views : ℕ → View) → Keeps plan views self.old →
            (is_declared plan code.now ≡ true) ×
            Keeps plan
            (if is_kept then heard_in plan code.now letters.now is_dumped views else views)
            self.new) }
        ensures refused { IfErr result (λ f. (f ≡ VcdFault.Memory) ⊎
            ((f ≡ VcdFault.UnknownCode at) ×
            ((plan : Plan) (views : ℕ → View) → Keeps plan views self.old →
            is_declared plan code.now ≡ false))) }
    {
        let known = self.codes.find(code);
        if self.change_known(known, letters, is_dumped, is_kept)? {
            return Ok(());
        }
        Err(VcdFault::UnknownCode { at })
    }

    // The end of a time at which variables changed whose names are not known yet.
    #[inline(never)]
    fn settle_touched(&mut self, present: &Present, out: &mut Vec<u8>) -> Result<bool, Memory>
        ensures { IfOk result (λ is_row. (plan : Plan) (views : ℕ → View) →
            Keeps plan views self.old →
            Settles plan present.now views is_row self.new out.old.items out.new.items) }
    {
        self.names.ascends();
        let has_names = !self.names.is_empty();
        put_names(
            self.touched.as_slice(),
            self.users.as_slice(),
            self.watches.as_slice(),
            self.signals.as_slice(),
            &mut self.names,
        );
        let is_row = put_row(present.line(), &self.names, out)?;
        settle_known(
            has_names,
            &self.names,
            self.watches.as_slice(),
            self.signals.as_mut_slice(),
        )?;
        settle_all(self.touched.as_slice(), self.signals.as_mut_slice())?;
        self.touched.clear();
        self.names.copy_from(&self.none);
        Ok(is_row)
    }

    /// The present time is over: its row is appended, if it has one. It answers whether it has.
    #[inline(never)]
    pub(crate) fn settle(&mut self, present: &Present, out: &mut Vec<u8>) -> Result<bool, Memory>
        ensures { IfOk result (λ is_row. (plan : Plan) (views : ℕ → View) →
            Keeps plan views self.old →
            Settles plan present.now views is_row self.new out.old.items out.new.items) }
    {
        if !self.touched.is_empty() {
            return self.settle_touched(present, out);
        }
        self.names.ascends();
        let is_row = put_row(present.line(), &self.names, out)?;
        settle_read_by(
            &self.names,
            self.watches.as_slice(),
            self.signals.as_mut_slice(),
        )?;
        self.names.copy_from(&self.none);
        Ok(is_row)
    }

    /// Values are not recorded any more.
    pub(crate) fn forget(&mut self)
        ensures { (plan : Plan) (views : ℕ → View) → Keeps plan views self.old →
            Keeps plan (λ n. no_view) self.new }
    {
        forget_all(self.signals.as_mut_slice());
        self.names.copy_from(&self.none);
    }
}
