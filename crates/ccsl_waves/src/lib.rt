//! What is written of a trace for other programs to show: all its clocks as waves, and some of its steps as a drawing.
//!
//!     let rows = rows_of(alloc, &clocks_of(&system, item), follow.followed())?;
//!     let view = View::new(alloc, rows, columns, header, &follow)?;
//!     write_waves(alloc, keys, &mut world, &mut out, &system, &view, trace, "all.vcd")?;
//!     write_save_file(alloc, &mut out, &system, "all.vcd", &view)?;      // all.vcd.gtkw, for gtkwave
//!     write_picture(alloc, &mut out, &system, &view, "all.svg")?;
//!
//! `rows` are the clocks, `columns` the steps that are shown, by `follow` and the `header` of the trace. A time is in
//! the trace's own unit. An error is want of memory, or what the world answers to a call: a file is then unfinished.
//!
//! Proved: it is safe, ends, and of the world of the trace it only reads. Only tested: what is written, by the stored
//! answers of `tests/shown`. ccsl_show calls it.
#![tactic(auto)]

mod drawing;
pub mod picture;
pub mod rows;
pub mod save_file;
pub mod view;
pub mod waves;

pub use picture::write_picture;
pub use rows::{clocks_of, rows_of, set_of};
pub use save_file::write_save_file;
pub use view::{View, header_scale};
pub use waves::write_waves;
