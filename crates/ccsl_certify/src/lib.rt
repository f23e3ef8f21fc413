//! Certificates over a world: a trace is replayed to its end, and the lines of a certificate are checked against the
//! formulas of all items after it.
//!
//!     match certify(alloc, keys, world, &system, &limits)? {
//!         CertVerdict::Yes(steps) => ..,         // no step is left after so many
//!         CertVerdict::BadLine(line) => ..,      // from 1
//!         CertVerdict::NotRun(violation) => ..,
//!     }
//!
//! Trace and certificate are open in the world. The trace is judged first, and the certificate is read only where it
//! is a run.
#![tactic(auto)]

pub mod answer;
mod both;
pub mod certificate;
mod follower;
pub mod laws;
pub mod trace;

pub use answer::{CertVerdict, CertifyFault, Replayed};
pub use certificate::certify;
pub use trace::{ReplayFault, replay};
