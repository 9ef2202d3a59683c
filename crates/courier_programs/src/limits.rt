//! How large a program's types may be. The limit is this project's.

/// The number of types, members, components and candidates of a program. What is referred to counts with all
/// that it has.
pub const MOST_TYPE_PARTS: usize = 65_536;
