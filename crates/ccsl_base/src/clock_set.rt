//! Sets of clocks.

ghost use Rattle.std.specs.Prelude.{◌≡◌, ◌≢◌, ◌<◌, ◌↔◌, ℕ, ◌||◌, ◌&&◌, not, [], IsTrue, filter, length, nat_lt};
ghost use Rattle.ccsl_base.specs.Clocks.{ticks_in, with_clock, is_ascending, are_below};
ghost use Rattle.ccsl_base.specs.Changes.{without_clock, put_clock, difference};
ghost use Rattle.ccsl_base.specs.Bits.{is_set, size_of_word};

use crate::MAX_CLOCKS;
use crate::members::Members;
use std::marker::Model;

/// The words of a set.
const WORDS: usize = 16;

/// A set of clock numbers below [`MAX_CLOCKS`], as the clocks that tick in one step. A set whose members are small is
/// walked in the words that it uses, not in all of them. Most sets use one word: where it counts that is done before
/// the loop.
#[derive(Drop)]
pub struct ClockSet {
    // the words from here on are 0; it stands beside the first word, which most walks read next
    used: usize,
    words: [u64; WORDS],
}

impl Model for ClockSet {
    ghost use Rattle.std.specs.Prelude.{◌≡◌, ◌≤◌, List, ℕ, length};
    ghost use Rattle.ccsl_base.specs.Bits.{members_of, EmptyFrom};

    ghost Value = { List ℕ };

    ghost view = { λ s. members_of s.words };

    ghost invariant = { λ s. (length s.words ≡ 16) × (s.used ≤ 16) × EmptyFrom s.used s.words };
}

/// The number of bits of a word that are set.
#[inline(always)]
fn size_of_word(word: u64) -> u32
    ensures { result ≡ size_of_word word }
{
    word.count_ones()
}

/// The bits of two words.
#[inline(always)]
fn either_word(word: u64, other: u64) -> u64
    ensures { (i : ℕ) → is_set result i ≡ (is_set word i || is_set other i) }
{
    word | other
}

/// The bits of a word that are not another's.
#[inline(always)]
fn word_without(word: u64, other: u64) -> u64
    ensures bits { (i : ℕ) → i < u64.BITS →
        is_set result i ≡ (is_set word i && not (is_set other i)) }
    ensures none { word ≡ 0 → result ≡ 0 }
{
    word & !other
}

/// A word with the bit of a place set or not, whatever it was.
#[inline(always)]
fn word_with(word: u64, place: u32, one: bool) -> u64
    requires { place < u64.BITS }
    ensures here { is_set result place ≡ one }
    ensures others { (i : ℕ) → i < u64.BITS → i ≢ place → is_set result i ≡ is_set word i }
{
    (word & !(1 << place)) | ((one as u64) << place)
}

impl ClockSet {
    /// The set without members.
    #[inline]
    pub fn empty() -> ClockSet
        ensures { result ≡ [] }
    {
        ClockSet {
            used: 0,
            words: [0; WORDS],
        }
    }

    /// Makes a clock a member.
    #[inline(always)]
    pub fn insert(&mut self, clock: u32)
        requires { clock < MAX_CLOCKS }
        ensures { self.new ≡ with_clock clock self.old }
    {
        let place = (clock / u64::BITS) as usize;
        self.words[place] |= 1 << (clock % u64::BITS);
        self.used = self.used.max(place + 1);
    }

    /// Takes a clock out. A number past the limit is none.
    #[inline(always)]
    pub fn remove(&mut self, clock: u32)
        ensures { self.new ≡ without_clock clock self.old }
    {
        let place = (clock / u64::BITS) as usize;
        if place < self.used {
            self.words[place] &= !(1 << (clock % u64::BITS));
        }
    }

    /// Makes a clock a member, or takes it out.
    #[inline(always)]
    pub fn put(&mut self, clock: u32, one: bool)
        requires { clock < MAX_CLOCKS }
        ensures { self.new ≡ put_clock clock one self.old }
    {
        let place = (clock / u64::BITS) as usize;
        self.words[place] = word_with(self.words[place], clock % u64::BITS, one);
        self.used = self.used.max(place + 1);
    }

    /// Makes the members of another set members.
    #[inline(always)]
    pub fn insert_all(&mut self, other: &ClockSet)
        ensures { (x : ℕ) → ticks_in x self.new ≡ (ticks_in x self.old || ticks_in x other.now) }
    {
        if other.used == 0 {
            return;
        }
        self.words[0] = either_word(self.words[0], other.words[0]);
        for i in 1..other.used {
            self.words[i] = either_word(self.words[i], other.words[i]);
        }
        self.used = self.used.max(other.used);
    }

    /// Takes the members of another set out.
    #[inline(always)]
    pub fn remove_all(&mut self, other: &ClockSet)
        ensures { (x : ℕ) → ticks_in x self.new
            ≡ (ticks_in x self.old && not (ticks_in x other.now)) }
    {
        for i in 0..self.used.min(other.used) {
            self.words[i] = word_without(self.words[i], other.words[i]);
        }
    }

    /// Has the members of another set from now on.
    #[inline(always)]
    pub fn copy_from(&mut self, other: &ClockSet)
        ensures { self.new ≡ other.now }
    {
        self.words[0] = other.words[0];
        for i in 1..self.used.max(other.used) {
            self.words[i] = other.words[i];
        }
        self.used = other.used;
    }

    /// Has the members of one set that are not another's from now on.
    #[inline(always)]
    pub fn copy_difference(&mut self, one: &ClockSet, other: &ClockSet)
        ensures { self.new ≡ difference one.now other.now }
    {
        let first = word_without(one.words[0], other.words[0]);
        self.words[0] = first;
        for i in 1..self.used.max(one.used) {
            self.words[i] = word_without(one.words[i], other.words[i]);
        }
        self.used = one.used;
    }

    /// Whether each member is another's too.
    #[inline(always)]
    pub fn is_subset(&self, other: &ClockSet) -> bool
        ensures { IsTrue result ↔ (difference self.now other.now ≡ []) }
    {
        let first = word_without(self.words[0], other.words[0]);
        if first != 0 {
            return false;
        }
        for i in 1..self.used {
            if word_without(self.words[i], other.words[i]) != 0 {
                return false;
            }
        }
        true
    }

    /// Whether a clock is a member. A number past the limit is none.
    #[inline(always)]
    pub fn has(&self, clock: u32) -> bool
        ensures member { result ≡ ticks_in clock self.now }
        ensures ascending { IsTrue (is_ascending self.now) }
        ensures below { IsTrue (are_below MAX_CLOCKS self.now) }
    {
        clock < MAX_CLOCKS
            && (self.words[(clock / u64::BITS) as usize] >> (clock % u64::BITS)) & 1 == 1
    }

    /// Whether it has no members.
    #[inline(always)]
    pub fn is_empty(&self) -> bool
        ensures { IsTrue result ↔ (self.now ≡ []) }
    {
        self.members().next().is_none()
    }

    /// The number of members.
    #[inline]
    pub fn len(&self) -> u32
        ensures { result ≡ length self.now }
    {
        let mut count = 0;
        for word in &self.words[..self.used] {
            count += size_of_word(*word);
        }
        count
    }

    /// A set with the same members.
    #[inline]
    pub fn copy(&self) -> ClockSet
        ensures { result ≡ self.now }
    {
        ClockSet {
            used: self.used,
            words: self.words,
        }
    }

    /// The members below a bound.
    pub fn below(&self, bound: u32) -> ClockSet
        ensures members { result ≡ filter (λ x. nat_lt x bound) self.now }
        ensures ascending { IsTrue (is_ascending self.now) }
    {
        let mut set = ClockSet::empty();
        for clock in self.members() {
            if clock < bound {
                set.insert(clock);
            }
        }
        set
    }

    /// The members, in ascending order.
    #[inline(always)]
    pub fn members(&self) -> Members<'_>
        ensures members { result ≡ self.now }
        ensures ascending { IsTrue (is_ascending self.now) }
        ensures below { IsTrue (are_below MAX_CLOCKS self.now) }
    {
        Members::new(&self.words[..self.used])
    }

    /// The members ascend, and each is a clock. It does nothing: its contract is the law.
    #[inline(always)]
    pub fn ascends(&self)
        ensures ascending { IsTrue (is_ascending self.now) }
        ensures below { IsTrue (are_below MAX_CLOCKS self.now) }
    {
        let _ = &self.words;
    }
}
