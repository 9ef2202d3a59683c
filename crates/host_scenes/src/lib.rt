//! Hosts over a network in played time that loses, repeats, delays and corrupts packets, and two hosts with a thousand connections at once:
//! plays whose outcomes `test_hosts` prints.
#![tactic(auto)]

pub mod crowd;
mod late;
mod network;
mod outcome;
mod parting;
pub mod partings;
mod phase;
pub mod play;
pub mod player;
mod restart;
pub mod scene;
mod sent;
pub mod station;
mod strangers;
pub mod waits;
mod words;
