//! What words say of filters. Each function does nothing; its contract is the law.

ghost use Rattle.std.specs.Prelude.{ℕ, Some, None};
ghost use Rattle.ccsl_words.specs.Word.{BinaryWord};
ghost use Rattle.ccsl_periodic.specs.declared.between.Between.{Between};
ghost use Rattle.ccsl_periodic.specs.Failures.{IsFirstFailure, NeverFails};
ghost use Rattle.ccsl_periodic.specs.Filtered.{IsOn};
ghost use Rattle.ccsl_periodic.specs.Filters.{FiltersAreRelated, FiltersCompose};
ghost use Rattle.ccsl_periodic.specs.Laws.{CanonicalWordsAreOne, PlainLengthsAreOne, CanonicalWordsExist, RelationsAreDecided, WordsOnWordsExist};

/// Between two filters of a clock the formula of a relation holds at each step before the tick of that clock at which
/// their words first fail, and fails at that tick; where they never fail it holds at each step.
pub fn filters_are_related()
    ensures until { (relation : Between) (u v : BinaryWord) (k : ℕ) →
        IsFirstFailure relation u v k →
        FiltersAreRelated relation u v (Some k) }
    ensures always { (relation : Between) (u v : BinaryWord) → NeverFails relation u v →
        FiltersAreRelated relation u v None }
{}

/// A filter of a filter ticks exactly as the filter by the one word on the other.
pub fn filters_compose()
    ensures { (u v w : BinaryWord) → IsOn u v w → FiltersCompose u v w }
{}

/// Words that have the same letters have one canonical spelling.
pub fn canonical_words_are_one()
    ensures { CanonicalWordsAreOne }
{}

/// The spelling that is read off two words has one length.
pub fn plain_lengths_are_one()
    ensures { PlainLengthsAreOne }
{}

/// Each infinite word has a canonical spelling.
pub fn canonical_words_exist()
    ensures { CanonicalWordsExist }
{}

/// Between two infinite words a relation never fails, or has a first failure.
pub fn relations_are_decided()
    ensures { RelationsAreDecided }
{}

/// One infinite word on another has a plain length, and is a word.
pub fn words_on_words_exist()
    ensures { WordsOnWordsExist }
{}
