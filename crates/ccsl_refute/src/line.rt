//! The lines of a certificate.

use ccsl_base::Seq;

/// A literal: that a clock ticks, or that it does not.
#[derive(Clone, Copy)]
pub struct Lit {
    pub clock: u32,
    pub positive: bool,
}

/// A line, which stands for a clause. Lines are numbered from 1, items from 0.
#[derive(Drop)]
pub enum Line {
    /// Some declared clock ticks.
    Nonempty,
    /// The clause follows from the formula of this item alone.
    Item(u32, Seq<Lit>),
    /// The clause follows from the earlier lines of these numbers, taken in this order.
    Derived(Seq<Lit>, Seq<u64>),
}
