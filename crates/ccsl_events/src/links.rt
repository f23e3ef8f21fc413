//! What is kept for the variables that are read.

ghost use Rattle.std.specs.Prelude.{◌≡◌, ◌≤◌, ◌<◌, ℕ, List, [], ◌∷◌, ◌++◌, length, map, true, IfOk, IfSome, OnOk};
ghost use Rattle.ccsl_triggers.specs.Held.{held};
ghost use Rattle.ccsl_events.specs.declared.binder.Source.{Source};
ghost use Rattle.ccsl_events.specs.Keeping.{users_of, AreUsers, IsSoleOf, AreSole};
ghost use Rattle.ccsl_events.specs.Links.{first_of, IsLinked, are_coded, are_within, with_user};

use crate::binder::Source;
use crate::codes::Entry;
use ccsl_base::{MAX_CLOCKS, Memory};
use ccsl_triggers::{Signal, Watch};
use std::alloc::Global;

/// The variables that are kept, by their numbers, and what is known of each code, by its number.
#[derive(Drop)]
pub(crate) struct Links {
    pub signals: Vec<Signal>,
    pub entries: Vec<Entry>,
}

fn first_of(entry: Entry) -> Option<usize>
    ensures { result ≡ first_of entry }
{
    match entry {
        Entry::Used(first) => Some(first as usize),
        Entry::Undeclared | Entry::Unused => None,
    }
}

impl Links {
    fn new(alloc: Global, codes: u32) -> Result<Links, Memory>
        ensures { IfOk result (λ l. IsLinked codes [] (map held l.signals.items) l.entries.items) }
    {
        let entries = vec![in alloc; Entry::Unused; codes as usize]?;
        Ok(Links {
            signals: Vec::new(alloc),
            entries,
        })
    }

    // One more variable, which is the first of its code from here on.
    fn put(&mut self, alloc: Global, source: Source) -> Result<(), Memory>
        requires coded { source.code < length self.old.entries.items }
        ensures { OnOk result ((codes : ℕ) (sources : List Source) →
            IsLinked codes sources (map held self.old.signals.items) self.old.entries.items →
            IsLinked codes (sources ++ source ∷ [])
            (map held self.new.signals.items) self.new.entries.items) }
    {
        let number = self.signals.len();
        if number >= u32::MAX as usize {
            return Err(Memory);
        }
        let code = source.code as usize;
        let mut signal = Signal::new(alloc, source.size as usize)?;
        signal.next = first_of(self.entries[code]);
        self.signals.push(signal)?;
        self.entries[code] = Entry::Used(number as u32);
        Ok(())
    }
}

/// What is kept for some variables, of so many codes.
pub(crate) fn link(alloc: Global, sources: &[Source], codes: u32) -> Result<Links, Memory>
    requires coded { are_coded codes sources.now ≡ true }
    ensures { IfOk result (λ l. IsLinked codes sources.now
        (map held l.signals.items) l.entries.items) }
{
    let mut links = Links::new(alloc, codes)?;
    for source in sources {
        links.put(alloc, *source)?;
    }
    Ok(links)
}

// No names, for each of so many variables.
fn no_users(alloc: Global, count: usize) -> Result<Vec<Vec<u32>>, Memory>
    ensures { IfOk result (λ users. length users.items ≡ count) }
{
    let mut users = Vec::new(alloc);
    for _i in 0..count {
        users.push(Vec::new(alloc))?;
    }
    Ok(users)
}

fn put_user(users: &mut [Vec<u32>], number: usize, name: u32) -> Result<(), Memory>
    requires { number < length users.old }
    ensures { OnOk result ((n : ℕ) → users_of users.new n ≡ with_user number name users.old n) }
{
    let names = &mut users[number];
    names.push(name)?;
    Ok(())
}

// The name that waits for a record of a variable, of the names whose triggers read it, where it is the only one.
fn sole_name(names: &[u32], number: usize, watches: &[Watch]) -> Option<u32>
    ensures { IfSome result (λ name. IsSoleOf watches.now names.now number name) }
{
    let [name] = names else {
        return None;
    };
    match watches.get(*name as usize) {
        Some(watch) if watch.is_record_of(number) => Some(*name),
        _ => None,
    }
}

/// These names by the numbers of the variables.
pub(crate) fn sole_names(
    alloc: Global,
    users: &[Vec<u32>],
    watches: &[Watch],
) -> Result<Vec<Option<u32>>, Memory>
    ensures { IfOk result (λ names. AreSole watches.now users.now names.items) }
{
    let mut names = Vec::with_capacity(alloc, users.len())?;
    for number in 0..users.len() {
        names.push(sole_name(users[number].as_slice(), number, watches))?;
    }
    Ok(names)
}

/// The names of the events by the variables that their triggers read, of which there are so many.
pub(crate) fn users(alloc: Global, watches: &[Watch], count: usize) -> Result<Vec<Vec<u32>>, Memory>
    requires few { length watches.now ≤ MAX_CLOCKS }
    requires within { are_within count watches.now ≡ true }
    ensures { IfOk result (λ users. AreUsers watches.now users.items) }
{
    let mut users = no_users(alloc, count)?;
    let mut name = 0u32;
    for watch in watches {
        put_user(users.as_mut_slice(), watch.trigger.signal(), name)?;
        name += 1;
    }
    Ok(users)
}
