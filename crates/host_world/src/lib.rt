//! Two connections of hosts, one that calls and one that is called, and the packets between them: whatever a network loses, repeats and
//! reorders, what either end hands up begins what the other accepted, and the two programs agree.
#![tactic(auto)]

pub mod laws;
mod pair;
mod station;

pub use pair::Pair;
pub use station::Station;
