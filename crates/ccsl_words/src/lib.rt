//! Binary words, finite or ultimately periodic: their texts, their letters, and the offsets at which they go on.
//!
//! `1(01)` is 1 and then 01 again and again; `110` is finite, and ends behind three letters. Letters are counted from
//! 0.
//!
//!     let word = Word::read(alloc, b"1(01)")?;
//!     word.letter(0)                         // true
//!     word.rest(0)                           // 1: the offset of the next letter
//!     word.rest(2)                           // 1 again: the period begins anew
//!
//! A text that spells no word is refused with the first reason, in the order in which `WordFault` has them.
#![tactic(auto)]

pub mod fault;
mod front;
pub mod laws;
pub mod word;

pub use fault::WordFault;
pub use word::Word;
