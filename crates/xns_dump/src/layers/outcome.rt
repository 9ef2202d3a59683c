//! What is known of a line besides its text.
use crate::flows::numbered::Numbered;

/// Whether a line is refused, and the data packet that it spells, with its number.
#[derive(Clone, Copy)]
pub(crate) struct LineOutcome {
    /// Whether the text of the line says that something was refused.
    pub(crate) is_refused: bool,
    /// The data packet that the line spells, where it brings an item.
    pub(crate) item: Option<Numbered>,
}
