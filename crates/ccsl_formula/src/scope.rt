//! The clocks of a system, as numbers.

/// How many clocks there are: the declared ones come first, from 0 on.
#[derive(Clone, Copy)]
pub struct Scope {
    pub declared: u32,
    pub named: u32,
}
