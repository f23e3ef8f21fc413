//! What a replay and a certificate answer.

ghost use Rattle.std.specs.Prelude.{◌≡◌};
ghost use Rattle.ccsl_certify.specs.Causes.{of_trace, of_reading, of_text};

use ccsl_edge::ReadFault;
use ccsl_refute::CertFault;
use ccsl_relate::Violation;
use ccsl_state::States;
use ccsl_trace::TraceFault;
use ccsl_vcd::VcdFault;

/// What a trace is.
#[derive(Drop)]
pub enum Replayed<'s> {
    /// A run of so many steps, and the states after it.
    Run { steps: u64, states: States<'s> },
    /// No run: the least step at which an item is violated, and the least item there.
    NotRun(Violation),
}

/// What a trace and a certificate are.
#[derive(Clone, Copy)]
pub enum CertVerdict {
    /// A run of so many steps after which no set is admissible, as the certificate shows.
    Yes(u64),
    /// The trace is no run.
    NotRun(Violation),
    /// The trace is a run, and this line of the certificate, counted from 1, is not valid, or the last clause is not
    /// empty.
    BadLine(u64),
}

/// Why a certificate was not checked.
#[derive(Clone, Copy)]
pub enum CertifyFault {
    /// A read of the world failed: the count of the trace's slot or of the certificate's has risen, or stands at its
    /// last value.
    Fault,
    /// The trace is refused, with its fault.
    Refused(VcdFault),
    /// The certificate does not read.
    Cert(CertFault),
    /// The certificate has more bytes than allowed.
    CertTooLong,
    /// No memory was to be had.
    Memory,
}

impl From<TraceFault> for CertifyFault {
    ghost from_gives = { λ fault answer. answer ≡ of_trace fault };

    fn from(fault: TraceFault) -> CertifyFault {
        match fault {
            TraceFault::Fault => CertifyFault::Fault,
            TraceFault::Refused(fault) => CertifyFault::Refused(fault),
            TraceFault::Memory => CertifyFault::Memory,
        }
    }
}

impl From<ReadFault> for CertifyFault {
    ghost from_gives = { λ fault answer. answer ≡ of_reading fault };

    fn from(fault: ReadFault) -> CertifyFault {
        match fault {
            ReadFault::Fault => CertifyFault::Fault,
            ReadFault::TooLong => CertifyFault::CertTooLong,
            ReadFault::Memory => CertifyFault::Memory,
        }
    }
}

impl From<CertFault> for CertifyFault {
    ghost from_gives = { λ fault answer. answer ≡ of_text fault };

    fn from(fault: CertFault) -> CertifyFault {
        match fault {
            CertFault::Memory => CertifyFault::Memory,
            fault => CertifyFault::Cert(fault),
        }
    }
}
