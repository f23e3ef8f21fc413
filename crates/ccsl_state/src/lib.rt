//! The states of a system in a fixed row of cells.
//!
//! After some steps all that counts of a history is how far each expression is: counts, places in words, what a
//! `delayed` holds. A state keeps these in cells that are taken once, a region for each definition; a step rewrites
//! them in place and takes no memory.
//!
//!     let mut states = States::open(alloc, &system)?;
//!     let step = states.advance(&declared);  // the full step: declared and defined clocks
//!     states.formula_of(alloc, item)         // what an item asks of the next step
//!
//! `Part` follows some definitions alone, and visits only those that hear something. `docs/STATES.md` has the layout.
#![tactic(auto)]

mod advance;
mod call;
mod cells;
mod connective;
mod counts;
mod definitions;
mod flat;
mod follow;
mod heard;
mod items;
mod lag;
pub mod laws;
mod layout;
mod moved;
mod name;
mod node;
mod open;
mod params;
pub mod part;
mod reach;
mod readers;
mod relation;
pub mod states;
mod tail;
mod told;
mod whole;

pub use part::Part;
pub use reach::reached;
pub use states::States;
