//! Where a token of the body may stand.

ghost use Rattle.std.specs.Prelude.{◌≡◌};
ghost use Rattle.ccsl_vcd.specs.Reading.{is_changes};

/// In a change's place, in a comment, at the code of a value that is 1 or not, or at the code of a value that is
/// skipped.
#[derive(Clone, Copy)]
pub enum Amid {
    Changes,
    Remark,
    Code(bool),
    CodeSkipped,
}

impl Amid {
    ghost use Rattle.ccsl_vcd_read.specs.Meant.{amid_of};

    pub(crate) fn is_changes(&self) -> bool
        ensures { result ≡ is_changes (amid_of self.now) }
    {
        match self {
            Amid::Changes => true,
            _ => false,
        }
    }
}
