//! Identifier codes of clocks.

ghost use Rattle.std.specs.Prelude.{◌≡◌, ◌<◌, ◌≤◌, ◌+◌, ◌++◌, vec_len, vec_capacity};
ghost use Rattle.ccsl_vcd_write.specs.Code.{code_byte, code_of};

use ccsl_base::MAX_CLOCKS;

/// The first byte that a code may have.
pub const FIRST_CODE_BYTE: u8 = b'!';

/// How many bytes a code may have: those from `!` to `~`.
pub const CODE_BYTES: u32 = 94;

/// The most bytes of a code.
pub(crate) const MOST_CODE_BYTES: usize = 2;

/// The byte number `i` of those that a code may have.
fn code_byte(i: u32) -> u8
    requires { i < CODE_BYTES }
    ensures { result ≡ code_byte i }
{
    FIRST_CODE_BYTE + i as u8
}

/// Appends the code of a clock, for which there is room: one byte, or two.
#[inline(always)]
pub(crate) fn put_code(clock: u32, out: &mut Vec<u8>)
    requires below { clock < MAX_CLOCKS }
    requires room { vec_len out.old + MOST_CODE_BYTES ≤ vec_capacity out.old }
    ensures text { out.new.items ≡ out.old.items ++ code_of clock }
    ensures len { vec_len out.new ≤ vec_len out.old + MOST_CODE_BYTES }
    ensures capacity { vec_capacity out.new ≡ vec_capacity out.old }
{
    if clock < CODE_BYTES {
        out.push_reserved(code_byte(clock));
    } else {
        let rest = clock - CODE_BYTES;
        out.push_reserved(code_byte(rest / CODE_BYTES));
        out.push_reserved(code_byte(rest % CODE_BYTES));
    }
}
