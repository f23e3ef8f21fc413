//! Where a relation between two filters of one clock fails.

ghost use Rattle.std.specs.Prelude.{◌≡◌, ◌+◌, ◌-◌, ◌*◌, ◌<◌, ◌≤◌, ◌&&◌, not, nat_eq, false, ℕ, IfSome, IfNone};
ghost use Rattle.std.specs.Int.{div_ceil};
ghost use Rattle.ccsl_words.specs.Word.{is_finite};
ghost use Rattle.ccsl_periodic.specs.Ones.{ones};
ghost use Rattle.ccsl_periodic.specs.Failures.{fails_where, fails_at, IsFirstFailure, NeverFails};
ghost use Rattle.ccsl_periodic.specs.Turns.{IsTurn};
ghost use Rattle.ccsl_periodic.specs.Filters.{FiltersAreRelated};

use crate::between::Between;
use crate::letters::ones;
use crate::turn::Turn;
use ccsl_base::MAX_LETTERS;
use ccsl_words::Word;

/// The first tick of a clock, from 0, at which the relation fails between its filters by `left` and by `right`; `None`
/// where it never does. Takes no memory.
pub fn compare(left: &Word, right: &Word, relation: Between) -> Option<u64>
    requires left_infinite { is_finite left.now ≡ false }
    requires right_infinite { is_finite right.now ≡ false }
    ensures fails { IfSome result (IsFirstFailure relation left.now right.now) }
    ensures holds { IfNone result (NeverFails relation left.now right.now) }
    ensures filters { FiltersAreRelated relation left.now right.now result }
    ensures small { IfSome result (λ k. k < u64.MAX) }
{
    let turn = Turn::of(left, right);
    if relation == Between::Precedes && turn.left < turn.right {
        return Some(first_overtaking(left, right, &turn));
    }
    first_below(left, right, relation, turn.start + turn.letters)
}

/// The first failure among so many letters.
fn first_below(left: &Word, right: &Word, relation: Between, end: u64) -> Option<u64>
    ensures fails { IfSome result (IsFirstFailure relation left.now right.now) }
    ensures holds { IfNone result ((k : ℕ) → k < end →
        fails_at relation left.now right.now k ≡ false) }
    ensures below { IfSome result (λ k. k < end) }
{
    let mut left_ones = 0;
    let mut right_ones = 0;
    for k in 0..end {
        let (left_ticks, right_ticks) = (left.letter(k), right.letter(k));
        if fails(relation, left_ticks, right_ticks, left_ones == right_ones) {
            return Some(k);
        }
        left_ones += u64::from(left_ticks);
        right_ones += u64::from(right_ticks);
    }
    None
}

/// Whether a relation fails at a tick, before which both filters ticked as often or not.
fn fails(relation: Between, left: bool, right: bool, as_often: bool) -> bool
    ensures { result ≡ fails_where relation left right as_often }
{
    match relation {
        Between::Precedes => right && as_often,
        Between::Subclock => left && !right,
        Between::Excludes => left && right,
    }
}

/// The first failure of precedence where the right word has more ones in a turn.
fn first_overtaking(left: &Word, right: &Word, turn: &Turn) -> u64
    requires turn { IsTurn left.now right.now turn.now }
    requires gains { turn.now.left < turn.now.right }
    ensures fails { IsFirstFailure Between.Precedes left.now right.now result }
    ensures small { result < u64.MAX }
{
    if let Some(k) = first_below(left, right, Between::Precedes, turn.start) {
        return k;
    }
    first_in_turns(left, right, turn)
}

/// As above, where the words don't fail before the turn: each tick of the right word in the turn fails some turns
/// later, as soon as the lead that the left word has there is lost, and this is the first of these places.
fn first_in_turns(left: &Word, right: &Word, turn: &Turn) -> u64
    requires turn { IsTurn left.now right.now turn.now }
    requires gains { turn.now.left < turn.now.right }
    requires before { (k : ℕ) → k < turn.now.start →
        fails_at Between.Precedes left.now right.now k ≡ false }
    ensures fails { IsFirstFailure Between.Precedes left.now right.now result }
    ensures small { result < u64.MAX }
{
    let mut left_ones = ones(left, turn.start);
    let mut right_ones = ones(right, turn.start);
    let mut first = u64::MAX;
    for k in turn.start..turn.start + turn.letters {
        let (left_ticks, right_ticks) = (left.letter(k), right.letter(k));
        if right_ticks {
            first = first.min(overtaken_at(k, left_ones, right_ones, turn));
        }
        left_ones += u64::from(left_ticks);
        right_ones += u64::from(right_ticks);
    }
    first
}

/// Where the tick of the right word at a place of the turn fails.
fn overtaken_at(place: u64, left_ones: u64, right_ones: u64, turn: &Turn) -> u64
    requires gains { turn.now.left < turn.now.right }
    requires place_small { place ≤ MAX_LETTERS + MAX_LETTERS * MAX_LETTERS }
    requires letters_small { turn.now.letters ≤ MAX_LETTERS * MAX_LETTERS }
    requires few { left_ones ≤ place }
    ensures place { result ≡ place + div_ceil (left_ones - right_ones)
        (turn.now.right - turn.now.left) * turn.now.letters }
    ensures small { result < u64.MAX }
{
    let turns = left_ones
        .saturating_sub(right_ones)
        .div_ceil(turn.right - turn.left);
    place + turns * turn.letters
}
