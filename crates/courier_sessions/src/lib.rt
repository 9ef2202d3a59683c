//! Courier's conversations over words: the side that calls, the side that is called, and the pump that moves items between a side and an
//! endpoint (XSIS 038112, Courier).
//!
//! Neither side reads what its words say: `courier_types` does, by shapes, and `courier_calls` has both sides over tables of shapes.
#![tactic(auto)]

mod answer;
mod answer_refusal;
mod call_refusal;
mod caller;
mod feed_refusal;
mod heads;
mod hearer;
mod intake;
pub mod laws;
mod outgoing;
mod program;
mod pumping;
mod server;
mod side;
mod unlisted;

pub use answer::Answer;
pub use answer_refusal::AnswerRefusal;
pub use call_refusal::CallRefusal;
pub use caller::WordCaller;
pub use feed_refusal::FeedRefusal;
pub use program::Program;
pub use pumping::pump;
pub use server::WordServer;
pub use side::WordSide;
pub use unlisted::Unlisted;
