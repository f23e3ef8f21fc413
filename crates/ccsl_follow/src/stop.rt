//! Why there is no more to show: a call of the world failed, or a trace reads otherwise than before; or no memory was
//! to be had.

pub use ccsl_edge::Stop;
use ccsl_trace::TraceFault;
use ccsl_vcd::VcdFault;

/// A trace is refused that was not refused before.
pub(crate) fn stop_of_trace(fault: TraceFault) -> Stop {
    match fault {
        TraceFault::Memory => Stop::Memory,
        TraceFault::Fault | TraceFault::Refused(_) => Stop::Fault,
    }
}

/// A header is refused that was not refused before.
pub(crate) fn stop_of_header(fault: VcdFault) -> Stop {
    match fault {
        VcdFault::Memory => Stop::Memory,
        _ => Stop::Fault,
    }
}
