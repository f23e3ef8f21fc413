//! The world of the real files, over a system that fails.

mod failures;
mod fake;
