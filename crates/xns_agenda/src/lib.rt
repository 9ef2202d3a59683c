//! The timers and turns of many connections, found without a walk over all: what is due and when, whose turn it is, and which connection
//! gives way to a new one; and how long one connection waits.
#![tactic(auto)]

mod act;
mod agenda;
mod clock;
mod due;
mod facts;
pub mod laws;
mod measure;
mod pace;
mod places;
mod progress;
mod replies;
mod smoothed;
mod time_tree;
mod times;
mod timing;
mod turns;
mod wait;
mod way;

pub use act::Act;
pub use agenda::Agenda;
pub use clock::Clock;
pub use due::Due;
pub use facts::Facts;
pub use measure::Measure;
pub use pace::Pace;
pub use places::Places;
pub use progress::Progress;
pub use replies::Replies;
pub use smoothed::Smoothed;
pub use time_tree::TimeTree;
pub use times::Times;
pub use timing::Timing;
pub use turns::Turns;
pub use wait::Wait;
pub use way::Way;
