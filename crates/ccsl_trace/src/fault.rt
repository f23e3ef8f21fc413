//! Why a trace was not read.

ghost use Rattle.std.specs.Prelude.{◌≡◌};
ghost use Rattle.ccsl_trace.specs.Traces.{unread};

use ccsl_vcd::VcdFault;

/// Why a trace was not read to its end.
#[derive(Clone, Copy)]
pub enum TraceFault {
    /// A read of the world failed: the count of the trace's slot has risen, or stands at its last value.
    Fault,
    /// The trace is refused, with its fault.
    Refused(VcdFault),
    /// No memory was to be had.
    Memory,
}

// How a fault of the reader is answered.
pub(crate) fn unread(fault: VcdFault) -> TraceFault
    ensures { result ≡ unread fault }
{
    match fault {
        VcdFault::Memory => TraceFault::Memory,
        fault => TraceFault::Refused(fault),
    }
}
