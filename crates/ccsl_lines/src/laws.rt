//! What lines are worth. The functions do nothing: their contracts are the laws.

ghost use Rattle.ccsl_lines.specs.Laws.{GivenLinesAreTaken, FewBytesAreRead, SearchEndsNoLine};

/// The lines that a reader has handed out are lines of the whole input, in order and from the first, whatever is not
/// read yet.
pub fn given_lines_are_taken()
    ensures { GivenLinesAreTaken }
{}

/// A reader has read at most one byte more than it takes.
pub fn few_bytes_are_read()
    ensures { FewBytesAreRead }
{}

/// What a reader reads in search of a line feed ends no line: before its last piece none had ended but those that were
/// handed out.
pub fn search_ends_no_line()
    ensures { SearchEndsNoLine }
{}
