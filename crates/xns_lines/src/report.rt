//! Text that grows line by line.
ghost use Rattle.std.specs.Prelude.{◌≡◌, ◌≤◌, ◌%◌, [], OnErr, length};
ghost use Rattle.hex.specs.Hex.{encode_lower};
ghost use Rattle.xns_lines.specs.Report.{Adds, LacksRoom, whole};
ghost use Rattle.xns_lines.specs.Text.{spaced, words_behind_spaces};

use crate::digits::{append_digits, append_spaced, append_words};
use std::alloc::{AllocError, Global};
use std::marker::Model;

/// Text that grows line by line, of which the latest line can be dropped. Contracts see the lines before the latest, what
/// there is of the latest, and for how many bytes there is room.
#[derive(Drop)]
pub struct Report {
    /// All lines.
    text: Vec<u8>,
    /// Where the latest line begins.
    start: usize,
}

impl Model for Report {
    ghost use Rattle.std.specs.Prelude.{◌≤◌, drop, length, take, vec_capacity};
    ghost use Rattle.xns_lines.specs.Report.{ReportModel};

    ghost Value = { ReportModel };

    ghost view = { λ r. record { front = take r.start r.text.items; line = drop r.start r.text.items; room = vec_capacity r.text } };

    ghost invariant = { λ r. r.start ≤ length r.text.items };
}

impl Report {
    /// A report with no text.
    pub fn new(alloc: Global) -> Self
        ensures front { result.front ≡ [] }
        ensures line { result.line ≡ [] }
    {
        Report {
            text: Vec::new(alloc),
            start: 0,
        }
    }

    /// Begins a line behind all text.
    pub fn begin_line(&mut self)
        ensures front { self.new.front ≡ whole self.old }
        ensures line { self.new.line ≡ [] }
        ensures room { self.new.room ≡ self.old.room }
    {
        self.start = self.text.len();
    }

    /// Drops what there is of the latest line.
    pub fn drop_line(&mut self)
        ensures front { self.new.front ≡ self.old.front }
        ensures line { self.new.line ≡ [] }
        ensures room { self.new.room ≡ self.old.room }
    {
        self.text.truncate(self.start);
    }

    /// Drops all text.
    pub fn clear(&mut self)
        ensures front { self.new.front ≡ [] }
        ensures line { self.new.line ≡ [] }
        ensures room { self.new.room ≡ self.old.room }
    {
        self.text.clear();
        self.start = 0;
    }

    /// How many bytes there are.
    pub fn len(&self) -> usize
        ensures { result ≡ length (whole self.now) }
    {
        self.text.len()
    }

    /// All text.
    pub fn as_slice(&self) -> &[u8]
        ensures { result.now ≡ whole self.now }
    {
        self.text.as_slice()
    }

    /// Appends bytes to the latest line. The only error is want of memory, where they are more than there is room for.
    pub fn append(&mut self, bytes: &[u8]) -> Result<(), AllocError>
        ensures text { Adds result self.old self.new bytes.now }
        ensures memory { OnErr result (LacksRoom self.old bytes.now) }
        ensures room { self.old.room ≤ self.new.room }
    {
        self.text.extend_from_slice(bytes)
    }

    /// Appends bytes as hex digits to the latest line.
    pub(crate) fn append_digits(&mut self, bytes: &[u8]) -> Result<(), AllocError>
        ensures { Adds result self.old self.new (encode_lower bytes.now) }
    {
        append_digits(&mut self.text, bytes)
    }

    /// Appends words of four digits, each before a space, to the latest line.
    pub(crate) fn append_spaced(&mut self, bytes: &[u8]) -> Result<(), AllocError>
        requires { length bytes.now % 2 ≡ 0 }
        ensures { Adds result self.old self.new (spaced (encode_lower bytes.now)) }
    {
        append_spaced(&mut self.text, bytes)
    }

    /// Appends words of four digits, each behind a space, to the latest line.
    pub(crate) fn append_words(&mut self, words: &[u16]) -> Result<(), AllocError>
        ensures { Adds result self.old self.new (words_behind_spaces words.now) }
    {
        append_words(&mut self.text, words)
    }
}
