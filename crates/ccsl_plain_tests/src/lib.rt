//! Tests alone: that the states of worked systems tell what the slow evaluation over the whole list of steps does, and
//! which parts are accepted. Nothing is claimed of this crate, and no other one uses it.
//!
//!     let system = system_of(alloc, "ccsl 1; system { clock a, b; a precedes b; }")?;
//!     agree(alloc, &system, "a b ab")?             // whether both tell the same before each of three steps
//!
//! `worked` has systems over the clocks a, b and c, with each form of expression, and steps as letters of the clocks
//! that tick. Before each step the formula of each item by ccsl_state is held beside that by `plain_formula` of
//! ccsl_plain, shape and all, and the full step has to satisfy those of the definitions. It has too what a precedence
//! asks after some steps.
//!
//! `accepted` puts parts together by hand, which no text gives: `Parts::accepted` of ccsl_kernel refuses a definition
//! that names its own clock. What is compared here is proved as well, of all systems: the tests try what was built.
#![tactic(auto)]

#[cfg(test)]
mod accepted;
#[cfg(test)]
mod alike;
#[cfg(test)]
mod worked;
