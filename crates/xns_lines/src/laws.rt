//! Laws of the definitions, as functions that do nothing.
ghost use Rattle.xns_lines.specs.Laws.{LinesAreTheInput, NothingIsPrintedAtFirst};

/// The lines that are over, each with its byte 10, and the line that is not, are the input; and no line has a byte 10.
pub fn lines_are_the_input()
    ensures { LinesAreTheInput }
{}

/// Where memory is refused before anything is read, what was printed is that of no line.
pub fn nothing_is_printed_at_first()
    ensures { NothingIsPrintedAtFirst }
{}
