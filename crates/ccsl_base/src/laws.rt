//! What is true of the reserved words. Each function does nothing: its contract is the law.

ghost use Rattle.ccsl_base.specs.KeptWords.{WordsReadBack, WordsAreSpelled, OthersAreFree};

/// Each word's letters are read as that word.
pub fn words_read_back()
    ensures { WordsReadBack }
{}

/// A text that is read as a word is its spelling.
pub fn words_are_spelled()
    ensures { WordsAreSpelled }
{}

/// A text that is read as no word is none of them.
pub fn others_are_free()
    ensures { OthersAreFree }
{}
