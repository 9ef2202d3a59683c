use crate::exchange::Way;
use crate::{calls, checksum, codec, exchange, play, values};
use std::io;

/// What is timed, and how much of it.
#[derive(Clone, Copy)]
pub enum Timing {
    /// Calls Add of Courier, as many as the first number, and then calls of lists, as many as the second, through a caller and a server in
    /// memory.
    Calls(u32, u32),
    /// The checksum of packets.
    Checksum,
    /// Packets that are written and read.
    Codec,
    /// An exchange of items between two ends, through a network of this way, so many times.
    Exchange(Way, u32),
    /// A play of so many items each way.
    PlayItems(u32),
    /// A play of the calls of a script.
    PlayCalls,
    /// Values that are read and written, so many times.
    Values(u32),
}

impl Timing {
    /// The timing that the name and its further words ask for; `None` where the name is none.
    pub fn named(name: &str, words: &[String]) -> Option<Timing> {
        let first = word(words, 0);
        match name {
            "calls" => Some(Timing::Calls(number(first, 0), number(word(words, 1), 0))),
            "checksum" => Some(Timing::Checksum),
            "codec" => Some(Timing::Codec),
            "exchange" => Some(Timing::Exchange(Way::named(first), number(word(words, 1), 1))),
            "play" if first == "calls" => Some(Timing::PlayCalls),
            "play" => Some(Timing::PlayItems(number(first, 1000))),
            "values" => Some(Timing::Values(number(first, 0))),
            _ => None,
        }
    }

    /// Does the work, and prints its outcome.
    pub fn run(self, rt: &HostRuntime) -> io::Result<()> {
        match self {
            Timing::Calls(adds, lists) => calls::run(rt, adds, lists),
            Timing::Checksum => checksum::run(rt),
            Timing::Codec => codec::run(rt),
            Timing::Exchange(way, times) => exchange::run(rt, way, times),
            Timing::PlayItems(count) => play::items::play(rt, count),
            Timing::PlayCalls => play::calls::play(rt),
            Timing::Values(times) => values::run(rt, times),
        }
    }
}

/// The word in this place; an empty one where there is none.
fn word(words: &[String], place: usize) -> &str {
    match words.get(place) {
        Some(word) => word.as_str(),
        None => "",
    }
}

/// The number that the word is, or else this one.
fn number(word: &str, otherwise: u32) -> u32 {
    word.parse::<u32>().unwrap_or(otherwise)
}
