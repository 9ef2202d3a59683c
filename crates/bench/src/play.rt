//! Plays: items each way through a network that loses nothing, as many as the first word says, else 1,000; or, where that word is
//! `calls`, the calls and events of the script on standard input, of however many lines.

pub mod calls;
pub mod items;

use std::io;

/// Prints how many there are of what has this name.
fn print_count(rt: &HostRuntime, name: &str, count: usize) -> io::Result<()> {
    println!(rt; "{name} {count}")
}
