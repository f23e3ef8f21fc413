//! Where two words repeat together.

ghost use Rattle.std.specs.Prelude.{◌≡◌, false};
ghost use Rattle.ccsl_words.specs.Word.{is_finite};
ghost use Rattle.ccsl_periodic.specs.Turns.{IsTurn};

use crate::divisor::greatest_divisor;
use crate::letters::{period_len, period_ones};
use crate::text::prefix_len;
use ccsl_words::Word;

/// From `start` on both words repeat after so many letters, the least common multiple of their periods, of which so
/// many are ones in the left and in the right word.
#[derive(Drop)]
pub struct Turn {
    pub start: u64,
    pub letters: u64,
    pub left: u64,
    pub right: u64,
}

impl Turn {
    /// The turn of two words.
    pub fn of(left: &Word, right: &Word) -> Turn
        requires left_infinite { is_finite left.now ≡ false }
        requires right_infinite { is_finite right.now ≡ false }
        ensures { IsTurn left.now right.now result }
    {
        let (left_len, right_len) = (period_len(left), period_len(right));
        let divisor = greatest_divisor(left_len, right_len);
        let (left_turns, right_turns) = (right_len / divisor, left_len / divisor);
        Turn {
            start: prefix_len(left).max(prefix_len(right)),
            letters: left_turns * left_len,
            left: left_turns * period_ones(left),
            right: right_turns * period_ones(right),
        }
    }
}
