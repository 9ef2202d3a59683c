//! Plays of items between two ends: worked plays, the timeouts and packets of 640 items one way, and a play of 140,000 items each way,
//! which `test_protocols` prints.
#![tactic(auto)]

mod chance;
mod counts;
mod generator;
pub mod long_play;
pub mod plays;
mod step;
pub mod timeouts;
mod trial;
mod way;
