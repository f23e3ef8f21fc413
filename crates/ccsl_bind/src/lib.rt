//! Which code of a trace each clock of a system is bound to.
//!
//! A clock is bound to the variable of its name in the outermost scope that has one; a variable counts where it is
//! one bit or an event.
//!
//!     let mut binder = Binder::open(alloc, keys, &system)?;
//!     binder.declare(depth, kind, size, code, reference)?;   // once for each `$var`
//!     let binding = binder.close()?;         // or the first declared clock that is unbound or ambiguous
//!
//! A defined clock may be bound too, and need not. The codes are hashed by keys that no file can know.
//! Proved: the binding is the one that is defined on all declarations of the header (`specs/Gathered.antt`), or the
//! fault is the first that is defined; a change is looked up by its code in constant time. ccsl_vcd_read declares what
//! it reads, and hears the changes by the binding.
#![tactic(auto)]

pub mod binder;
pub mod binding;
pub mod candidate;
pub mod fault;

pub use binder::Binder;
pub use binding::Binding;
pub use fault::BindFault;
