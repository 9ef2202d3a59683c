//! What a line of a simulation says, as the program takes it.
use courier_calls::Call;
use item_world::Event;

/// What a line of a simulation says.
#[derive(Debug, Drop)]
pub enum Command {
    /// The line says nothing.
    Skip,
    /// The caller makes a call.
    Call(Call),
    /// An event of the connection happens.
    Happen(Event),
}
