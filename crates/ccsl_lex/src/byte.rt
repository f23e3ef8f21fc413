//! Kinds of bytes that names have no part in.

ghost use Rattle.std.specs.Prelude.{◌≡◌};
ghost use Rattle.ccsl_lex.specs.Tokens.{is_white, is_mark, is_remark};

/// Whether a byte parts tokens: a blank, a tab, a line feed or a carriage return.
pub fn is_white(b: u8) -> bool
    ensures { result ≡ is_white b }
{
    matches!(b, b' ' | b'\t' | b'\n' | b'\r')
}

/// Whether a byte is a token by itself.
pub fn is_mark(b: u8) -> bool
    ensures { result ≡ is_mark b }
{
    matches!(
        b,
        b'(' | b')' | b'{' | b'}' | b',' | b';' | b'=' | b'<' | b'+' | b'-'
    )
}

/// Whether a byte may stand in a remark: all but a line feed.
pub fn is_remark(b: u8) -> bool
    ensures { result ≡ is_remark b }
{
    b != b'\n'
}
