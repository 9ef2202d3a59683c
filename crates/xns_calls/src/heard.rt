//! What an item brings.
use courier_messages::{PiecedMessage, SessionFault};

/// What is heard with an item.
#[derive(Drop)]
pub enum Heard {
    /// Nothing that is whole.
    Nothing,
    /// A message is whole.
    Message(PiecedMessage),
    /// What was said is no message or no version range.
    Fault(SessionFault),
}
