//! The two ends of every play.
use item_world::Setup;
use test_setting::SETUP;

/// The kind of a play, and its ends by their window and backlog.
pub fn read_head(head: &str) -> Option<(&str, Setup)> {
    let (kind, numbers) = head.split_once(" ")?;
    let (window, backlog) = read_numbers(numbers)?;
    let setup = Setup {
        window: usize::from(window),
        backlog: usize::from(backlog),
        ..SETUP
    };
    Some((kind, setup))
}

/// Two numbers that a space parts.
pub fn read_numbers(words: &str) -> Option<(u16, u16)> {
    let (first, second) = words.split_once(" ")?;
    Some((first.parse::<u16>().ok()?, second.parse::<u16>().ok()?))
}
