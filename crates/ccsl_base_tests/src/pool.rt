//! Pieces at work in a pool: what no clause says of threads, parts and their order.

mod meetings;
mod parts;
mod turns;
