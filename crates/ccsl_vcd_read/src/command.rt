//! The commands of a header.

ghost use Rattle.std.specs.Prelude.{◌≡◌};
ghost use Rattle.ccsl_vcd.specs.Header.{header_word};
ghost use Rattle.ccsl_vcd_read.specs.Meant.{header_meant};

use ccsl_base::is_text;

/// What stands in a header: in a command's place, or inside a command; in a declaration, which of its words comes next.
#[derive(Clone, Copy)]
pub enum Command {
    Between,
    Kind,
    Size,
    Code,
    Reference,
    More,
    /// the place of its `$scope`
    Scope(u64),
    Upscope,
    EndDefinitions,
    Other,
}

/// What a token of a header is.
#[derive(Clone, Copy)]
pub enum HeaderWord {
    Var,
    Scope,
    Upscope,
    EndDefinitions,
    OtherCommand,
    End,
    Plain,
}

pub(crate) fn header_word(text: &[u8]) -> HeaderWord
    ensures { header_word text.now ≡ header_meant result }
{
    if is_text(text, b"$end") {
        HeaderWord::End
    } else if is_text(text, b"$var") {
        HeaderWord::Var
    } else if is_text(text, b"$scope") {
        HeaderWord::Scope
    } else if is_text(text, b"$upscope") {
        HeaderWord::Upscope
    } else if is_text(text, b"$enddefinitions") {
        HeaderWord::EndDefinitions
    } else if text.first() == Some(&b'$') {
        HeaderWord::OtherCommand
    } else {
        HeaderWord::Plain
    }
}
