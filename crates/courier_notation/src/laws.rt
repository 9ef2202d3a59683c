//! Laws of the notation, as functions that do nothing.
ghost use Rattle.courier_notation.specs.Laws.{ProgramIsReadAsItIsSpelled, ReadTypeIsWritten, SpelledLexemesAreRead, WrittenTypeIsRead};

/// Tokens that are read as a type are the spelling of that type.
pub fn read_type_is_written()
    ensures { ReadTypeIsWritten }
{}

/// The spelling of a type is read as that type, where no dot and no parenthesis follows.
pub fn written_type_is_read()
    ensures { WrittenTypeIsRead }
{}

/// Tokens are read as a program exactly where they spell it, and so as no other program.
pub fn program_is_read_as_it_is_spelled()
    ensures { ProgramIsReadAsItIsSpelled }
{}

/// Names, numbers, strings, keywords and marks that are written with a blank behind each are read again, in the
/// same order, each where it begins.
pub fn spelled_lexemes_are_read()
    ensures { SpelledLexemesAreRead }
{}
