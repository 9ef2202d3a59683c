//! How large a text and a program may be. These limits are this project's.

/// The depth to which types, or constants, stand in one another.
pub const MOST_DEPTH: usize = 16;

/// The number of parts of a list: members, names, components, designators, candidates, elements of a
/// constant, errors that a procedure reports, or programs that a program depends upon.
pub const MOST_PARTS: usize = 1024;

/// The number of declarations of a program.
pub const MOST_DECLARATIONS: usize = 4096;

/// The number of bytes of a text.
pub const MOST_TEXT: usize = 262_144;

/// The number of bytes of a name.
pub const MOST_NAME: usize = 255;

/// One more than the number of tokens of a text.
pub const MOST_TOKENS: usize = 65_536;
