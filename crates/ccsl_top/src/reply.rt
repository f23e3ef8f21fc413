//! What is answered: a status, and a line of report.

ghost use Rattle.std.specs.Prelude.{◌≡◌};
ghost use Rattle.ccsl_top.specs.Answered.{code_of};
ghost use Rattle.ccsl_top.specs.Stopping.{stop_code};

use ccsl_edge::Stop;

/// How an answer ends.
#[derive(Clone, Copy)]
pub enum Status {
    /// The specification is accepted; the trace is a run; the certificate is valid; all steps were simulated.
    Done,
    /// The trace is no run; the certificate is not valid.
    No,
    WordsRefused,
    SpecRefused,
    /// The trace or the certificate does not read.
    FileRefused,
    /// No step was left before all steps were simulated.
    Deadlock,
}

impl Status {
    /// The program's exit status.
    pub(crate) fn code(self) -> u8
        ensures { result ≡ code_of self }
    {
        match self {
            Status::Done => 0,
            Status::No => 1,
            Status::WordsRefused => 2,
            Status::SpecRefused => 3,
            Status::FileRefused => 4,
            Status::Deadlock => 8,
        }
    }
}

/// The program's exit status where there is no answer.
pub(crate) fn stop_code(stop: Stop) -> u8
    ensures { result ≡ stop_code stop }
{
    match stop {
        Stop::Fault => 5,
        Stop::Memory => 6,
    }
}

/// A status and the line that is reported.
#[derive(Drop)]
pub struct Reply {
    pub status: Status,
    pub line: Vec<u8>,
}
