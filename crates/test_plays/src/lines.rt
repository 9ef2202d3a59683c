//! Lines of text.
use std::alloc::{AllocError, Global};
use std::fmt::Write;
use std::mem::swap;

/// Nothing where the lines were told, or the refusal of memory.
pub type Told = Result<(), AllocError>;

/// Lines of text, of which equal ones in a row are told once, with their number. That memory was refused is remembered,
/// and `text` then fails.
#[derive(Drop)]
pub struct Lines {
    /// The line that is being written.
    next: String,
    last: String,
    times: usize,
    text: String,
    failed: bool,
}

impl Lines {
    pub fn new(alloc: Global) -> Lines {
        Lines {
            next: String::new(alloc),
            last: String::new(alloc),
            times: 0,
            text: String::new(alloc),
            failed: false,
        }
    }

    /// Remembers whether a growth was refused.
    fn note(&mut self, grown: Result<(), AllocError>) {
        self.failed = self.failed || grown.is_err();
    }

    /// Adds words to the line that is being written.
    pub fn add(&mut self, words: &str) {
        let grown = self.next.push_str(words);
        self.note(grown);
    }

    /// Adds words and a number to the line that is being written.
    pub fn add_number(&mut self, words: &str, number: usize) {
        self.add(words);
        let grown = write!(self.next, "{number}");
        self.note(grown);
    }

    /// Adds bytes in hex to the line that is being written.
    pub fn add_hex(&mut self, bytes: &[u8]) {
        for byte in bytes {
            let grown = write!(self.next, "{byte:02x}");
            self.note(grown);
        }
    }

    /// Ends the line that is being written with these words.
    pub fn put(&mut self, words: &str) {
        self.add(words);
        self.end();
    }

    /// Ends the line that is being written.
    pub fn end(&mut self) {
        if self.times > 0 && self.next.as_str() == self.last.as_str() {
            self.times = self.times.saturating_add(1);
        } else {
            self.tell_last();
            swap(&mut self.last, &mut self.next);
            self.times = 1;
        }
        self.next.clear();
    }

    /// Tells the line that was ended last, and how often it came.
    fn tell_last(&mut self) {
        let told = self.text.push_str(self.last.as_str());
        self.note(told);
        let ended = match self.times {
            0 => Ok(()),
            1 => self.text.push_str("\n"),
            times => writeln!(self.text, ", {times} times"),
        };
        self.note(ended);
    }

    /// The text, to which no line is added any more.
    pub fn text(&mut self) -> Result<&str, AllocError> {
        self.tell_last();
        if self.failed {
            Err(AllocError)
        } else {
            Ok(self.text.as_str())
        }
    }
}
