//! The grammar of a specification's text as a relation between terminals and trees, and the laws that it obeys.
//!
//!     one_tree()                                  // a law: a list of terminals has at most one tree
//!     reader_is_right()                           // the reader answers what the grammar says
//!     canonical_reads_back()                      // the terminals of a printed tree have that tree, places aside
//!
//! There is no code here: each function does nothing, and its contract is the law. `Grammar` has a rule for each
//! production, as it would stand in a manual; `Parser` is the same language read from the left with one terminal of
//! sight, and tells where a text stops being one. The laws tie the two: what the one derives the other reads as that
//! tree, and the place of a fault is behind the longest front that some text goes on from.
//!
//! So what ccsl_parse and ccsl_print are proved to do is what the grammar says. That the productions are those of CCSL
//! as published is neither proved nor tested: the text form is this project's own.
#![tactic(auto)]

pub mod laws;
