//! `sim`: plays calls through a network that the lines of a script describe, and prints the trace.
#![tactic(auto)]

mod playing;
mod script_taker;
mod simulating;
mod trace;

pub use simulating::sim;
