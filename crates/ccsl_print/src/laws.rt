//! What the canonical text of every file is worth. Each function does nothing: its contract is the law.

ghost use Rattle.ccsl_print.specs.ReadsBack.{CanonicalTextReadsBack, TokensReadBack};

/// The canonical text has tokens, and they have the tree of the file, but for its places.
pub fn canonical_text_reads_back()
    ensures { CanonicalTextReadsBack }
{}

/// Whatever tokens a text that reads back has, they have that tree.
pub fn tokens_read_back()
    ensures { TokensReadBack }
{}
