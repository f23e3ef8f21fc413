//! The laws of the grammar. Each function does nothing; its contract is the law.

ghost use Rattle.ccsl_grammar.specs.Laws.{OneTree, ReaderIsRight, OneVerdict, LeastDepth, FileKeeps, CanonicalKeeps, CanonicalParses, CanonicalReadsBack};

/// A list of terminals has at most one tree, whatever its depth.
pub fn one_tree()
    ensures { OneTree }
{}

/// The reader answers what the grammar says: the tree, the least place of a fault of syntax, or the first expression
/// that stands too deep.
pub fn reader_is_right()
    ensures { ReaderIsRight }
{}

/// The grammar says one answer alone, so each answer comes exactly where its condition holds.
pub fn one_verdict()
    ensures { OneVerdict }
{}

/// No text of a file is less deep than the file.
pub fn least_depth()
    ensures { LeastDepth }
{}

/// What each token keeps of names, numbers and quoted texts, the tree of the tokens keeps, and it has no empty list
/// where the grammar wants a member.
pub fn file_keeps()
    ensures { FileKeeps }
{}

/// What a file keeps of names, numbers and quoted texts, the terminals of its canonical text keep.
pub fn canonical_keeps()
    ensures { CanonicalKeeps }
{}

/// The canonical terminals of a file have the tree that they were made from, and are no deeper than the file.
pub fn canonical_parses()
    ensures { CanonicalParses }
{}

/// Terminals that are the canonical ones but for their places have the same tree but for its places, and are no deeper.
pub fn canonical_reads_back()
    ensures { CanonicalReadsBack }
{}
