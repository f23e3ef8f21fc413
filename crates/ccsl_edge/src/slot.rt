//! The places at which the program reads and writes.

ghost use Rattle.std.specs.Prelude.{◌≡◌};
ghost use Rattle.ccsl_edge.specs.Order.{index_of};

/// A place at which the program reads or writes: four are read, three are written.
#[derive(Clone, Copy)]
pub enum Slot {
    /// The specification's file.
    Spec,
    /// The trace that is read.
    Trace,
    /// The certificate that is read.
    Cert,
    /// Standard input.
    Input,
    /// Standard output.
    Report,
    /// The trace that is written.
    TraceOut,
    /// The certificate that is written.
    CertOut,
}

impl Slot {
    /// Its place in a table of all the slots.
    pub fn index(self) -> usize
        ensures { result ≡ index_of self }
    {
        self as usize
    }
}
