//! Identifier codes.

ghost use Rattle.std.specs.Prelude.{◌≡◌};
ghost use Rattle.ccsl_vcd.specs.Header.{is_code};

use ccsl_vcd_lex::are_visible;

/// Whether a text can be a variable's code: visible characters, and at most 32 of them.
pub fn is_code(text: &[u8]) -> bool
    ensures { result ≡ is_code text.now }
{
    text.len() <= 32 && are_visible(text)
}
