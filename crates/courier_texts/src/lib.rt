//! Values of Courier's types as text, in Courier's notation of constants (XSIS 038112, Courier): members,
//! components and candidates by their names. A `Named` is a type with its names, and its shape tells its
//! words.
#![tactic(auto)]

mod appending;
pub mod laws;
mod named;
mod printing;
mod shapes;
mod text_refusal;

pub use appending::MOST_TEXT;
pub use named::Named;
pub use printing::{print_record, print_value};
pub use shapes::{shape_of, shape_of_record};
pub use text_refusal::TextRefusal;
