//! The words of a header's commands.

ghost use Rattle.std.specs.Prelude.{◌≡◌};
ghost use Rattle.ccsl_scopes.specs.Headings.{header_word};

use ccsl_base::is_text;

/// What a token of a header is in a command's place.
#[derive(Clone, Copy)]
pub enum HeaderWord {
    Var,
    Scope,
    Upscope,
    EndDefinitions,
    Timescale,
    OtherCommand,
    End,
    Plain,
}

pub(crate) fn header_word(text: &[u8]) -> HeaderWord
    ensures { result ≡ header_word text.now }
{
    if is_text(text, b"$end") {
        HeaderWord::End
    } else if is_text(text, b"$var") {
        HeaderWord::Var
    } else if is_text(text, b"$scope") {
        HeaderWord::Scope
    } else if is_text(text, b"$upscope") {
        HeaderWord::Upscope
    } else if is_text(text, b"$enddefinitions") {
        HeaderWord::EndDefinitions
    } else if is_text(text, b"$timescale") {
        HeaderWord::Timescale
    } else if text.first() == Some(&b'$') {
        HeaderWord::OtherCommand
    } else {
        HeaderWord::Plain
    }
}
