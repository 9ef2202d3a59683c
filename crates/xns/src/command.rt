//! What the program is asked to do.
pub mod arguments;
pub mod help;
pub mod request;
