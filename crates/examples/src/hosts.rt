//! The two hosts of the examples, and the program that one of them serves.

use courier_sessions::Program;
pub use test_setting::{CALLER, SERVER};

/// The program that the service serves.
pub const LISTED: Program = Program {
    number: 7,
    lowest: 2,
    highest: 2,
};
