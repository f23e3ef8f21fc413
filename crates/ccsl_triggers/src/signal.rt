//! The values of a variable that triggers read.

ghost use Rattle.std.specs.Prelude.{◌≡◌, [], ◌∷◌, Some, None, map, IfOk, OnOk};
ghost use Rattle.std.specs.Option.{option_copied};
ghost use Rattle.ccsl_triggers.specs.Sized.{lower, filler, sized};
ghost use Rattle.ccsl_triggers.specs.Triggers.{letter_in, letters_in, size_of, before_in, after_in, value_before, value_after};
ghost use Rattle.ccsl_triggers.specs.Held.{held, new_held, set_held, settle_held, forget_held};

use ccsl_base::Memory;
use std::alloc::Global;
use std::slice::from_ref;

/// The values of one letter before the present time and after it, in lower case.
#[derive(Clone, Copy)]
pub struct Letter {
    pub before: Option<u8>,
    pub after: Option<u8>,
}

/// Those of another number of letters.
pub struct Letters {
    pub size: usize,
    pub before: Vec<u8>,
    pub after: Vec<u8>,
    pub has_before: bool,
    pub has_after: bool,
}

// By hand and not derived: to the prover, an early return then drops one by a single call.
impl Drop for Letters {
    fn drop(self) {
        let Letters {
            size: _,
            before: _before,
            after: _after,
            has_before: _,
            has_after: _,
        } = self;
    }
}

/// A value of one letter stands in place.
#[derive(Drop)]
pub enum Value {
    One(Letter),
    Many(Letters),
}

/// A variable's values, and whether an event was recorded at the present time.
pub struct Signal {
    pub value: Value,
    pub heard: bool,
    /// whether it changed at the present time
    pub touched: bool,
    /// the next variable of the same code and another size
    pub next: Option<usize>,
}

// By hand and not derived: to the prover, an early return then drops one by a single call.
impl Drop for Signal {
    fn drop(self) {
        let Signal {
            value: _value,
            heard: _,
            touched: _,
            next: _,
        } = self;
    }
}

// What extends a value on the left.
fn filler(letters: &[u8]) -> u8
    ensures { result ≡ filler letters.now }
{
    match letters.first() {
        Some(b'1') => b'0',
        Some(b) => *b,
        None => b'0',
    }
}

fn make_lower(letters: &mut [u8])
    ensures { letters.new ≡ map lower letters.old }
{
    for b in letters {
        *b |= 32;
    }
}

// Letters of a size, in lower case.
fn put(letters: &[u8], size: usize, value: &mut Vec<u8>) -> Result<(), Memory>
    ensures { OnOk result (value.new.items ≡ sized size letters.now) }
{
    value.clear();
    if letters.len() < size {
        value.resize(size - letters.len(), filler(letters))?;
        value.extend_from_slice(letters)?;
    } else {
        value.extend_from_slice(&letters[letters.len() - size..])?;
    }
    make_lower(value.as_mut_slice());
    Ok(())
}

// The letter of a value of one letter, in lower case.
#[inline(always)]
fn last_of(letters: &[u8]) -> u8
    ensures { result ∷ [] ≡ sized 1 letters.now }
{
    match letters.last() {
        Some(letter) => *letter | 32,
        None => b'0',
    }
}

#[inline(always)]
fn letter_in(letter: &Option<u8>) -> Option<&[u8]>
    ensures { option_copied result ≡ letter_in letter.now }
{
    match letter {
        Some(letter) => Some(from_ref(letter)),
        None => None,
    }
}

#[inline(always)]
fn letters_in(letters: &Vec<u8>, has_any: bool) -> Option<&[u8]>
    ensures { option_copied result ≡ letters_in letters.now has_any }
{
    if has_any {
        Some(letters.as_slice())
    } else {
        None
    }
}

impl Value {
    // No value. The room for its letters is taken here.
    fn new(alloc: Global, size: usize) -> Result<Value, Memory>
        ensures { IfOk result (λ v. (size_of v ≡ size) × (before_in v ≡ None) ×
            (after_in v ≡ None)) }
    {
        if size == 1 {
            return Ok(Value::One(Letter {
                before: None,
                after: None,
            }));
        }
        let before = Vec::with_capacity(alloc, size)?;
        let after = Vec::with_capacity(alloc, size)?;
        Ok(Value::Many(Letters {
            size,
            before,
            after,
            has_before: false,
            has_after: false,
        }))
    }

    #[inline(always)]
    fn set(&mut self, letters: &[u8]) -> Result<(), Memory>
        ensures size { OnOk result (size_of self.new ≡ size_of self.old) }
        ensures before { OnOk result (before_in self.new ≡ before_in self.old) }
        ensures after { OnOk result (after_in self.new ≡
            Some (sized (size_of self.old) letters.now)) }
    {
        match self {
            Value::One(letter) => letter.after = Some(last_of(letters)),
            Value::Many(many) => {
                put(letters, many.size, &mut many.after)?;
                many.has_after = true;
            }
        }
        Ok(())
    }

    #[inline(always)]
    fn settle(&mut self) -> Result<(), Memory>
        ensures size { OnOk result (size_of self.new ≡ size_of self.old) }
        ensures before { OnOk result (before_in self.new ≡ after_in self.old) }
        ensures after { OnOk result (after_in self.new ≡ after_in self.old) }
    {
        match self {
            Value::One(letter) => letter.before = letter.after,
            Value::Many(many) => {
                many.before.clear();
                many.before.extend_from_slice(many.after.as_slice())?;
                many.has_before = many.has_after;
            }
        }
        Ok(())
    }

    fn forget(&mut self)
        ensures size { size_of self.new ≡ size_of self.old }
        ensures before { before_in self.new ≡ None }
        ensures after { after_in self.new ≡ None }
    {
        match self {
            Value::One(letter) => {
                letter.before = None;
                letter.after = None;
            }
            Value::Many(many) => {
                many.has_before = false;
                many.has_after = false;
            }
        }
    }
}

impl Signal {
    /// A variable without a value. The room for its letters is taken here.
    pub fn new(alloc: Global, size: usize) -> Result<Signal, Memory>
        ensures { IfOk result (λ s. held s ≡ new_held size) }
    {
        Ok(Signal {
            value: Value::new(alloc, size)?,
            heard: false,
            touched: false,
            next: None,
        })
    }

    /// The letters that it had when the present time began, in lower case; none where it had no value.
    #[inline(always)]
    pub fn before(&self) -> Option<&[u8]>
        ensures { option_copied result ≡ value_before self.now }
    {
        match &self.value {
            Value::One(letter) => letter_in(&letter.before),
            Value::Many(many) => letters_in(&many.before, many.has_before),
        }
    }

    /// The letters that it has by now; none where it has no value.
    #[inline(always)]
    pub fn after(&self) -> Option<&[u8]>
        ensures { option_copied result ≡ value_after self.now }
    {
        match &self.value {
            Value::One(letter) => letter_in(&letter.after),
            Value::Many(many) => letters_in(&many.after, many.has_after),
        }
    }

    /// Takes a value. It is a record of an event, unless it stands in a dump block.
    #[inline(always)]
    pub fn set(&mut self, letters: &[u8], is_dumped: bool) -> Result<(), Memory>
        ensures { OnOk result (held self.new ≡ set_held letters.now is_dumped (held self.old)) }
    {
        self.value.set(letters)?;
        self.heard |= !is_dumped;
        Ok(())
    }

    /// The present time is over.
    #[inline(always)]
    pub fn settle(&mut self) -> Result<(), Memory>
        ensures { OnOk result (held self.new ≡ settle_held (held self.old)) }
    {
        self.value.settle()?;
        self.heard = false;
        self.touched = false;
        Ok(())
    }

    /// Values are not recorded any more.
    pub fn forget(&mut self)
        ensures { held self.new ≡ forget_held (held self.old) }
    {
        self.value.forget();
        self.heard = false;
    }
}
