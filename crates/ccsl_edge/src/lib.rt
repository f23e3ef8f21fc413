//! The edge of the program: a world of slots through which every file, standard input and standard output is reached,
//! and the two calls by which the layers above read a whole slot and write a whole text.
//!
//!     world.open_in(Slot::Spec, "bus.ccsl")?;
//!     let text = read_all(alloc, world, Slot::Spec, MAX_SPEC_BYTES)?;
//!     write_all(world, Slot::Report, b"check: accepted\n")?;
//!
//! A `World` is opened, read, written and closed slot by slot; a read or a write takes as many bytes as it likes, at
//! least one. `MemoryWorld` holds its files itself and fails where a plan says so; `SteadyWorld` never fails; the real
//! files are `ccsl_files::FileWorld`. A `Pending` has the next bytes of a slot, for what reads in pieces.
//!
//! An error is `Failed`, where a call failed: the count of its slot has risen then, or stands at its last value, and
//! nothing else has changed; or want of memory; or, of `read_all`, that there are more bytes than the limit.
//!
//! Proved: all that was left is read, all is appended or a front of it, over every world. A contract speaks of a file's
//! content only where the world tells it. `run` of each program reaches files by this trait alone.
#![tactic(auto)]

pub mod held;
pub mod memory;
pub mod pending;
pub(crate) mod place;
pub mod plan;
pub mod slot;
pub mod steady;
pub mod stop;
pub mod whole;
pub mod world;

pub use held::HeldFile;
pub use memory::MemoryWorld;
pub use pending::Pending;
pub use plan::CallKind;
pub use slot::Slot;
pub use steady::SteadyWorld;
pub use stop::Stop;
pub use whole::{ReadFault, read_all, write_all};
pub use world::{Failed, World};
