//! The end of a line's text.
ghost use Rattle.std.specs.Prelude.{◌≡◌, ◌+◌, ◌*◌, ◌≤◌, ◌++◌, [], length};
ghost use Rattle.std.specs.Fmt.{decimal};
ghost use Rattle.xns_lines.specs.Text.{hex_word, words_behind_spaces, words_text};

use itoa::write_digits;
use std::marker::Model;
use xns_lines::write_few_digits;

/// How many bytes there is room for.
const ROOM: usize = 256;

/// The end of a line's text, which grows towards its front, so that a number is written where its digits stay. Contracts see it as
/// a list of bytes.
#[derive(Drop)]
pub struct LineEnd {
    /// The text stands at the end.
    room: [u8; ROOM],
    /// Where the text begins.
    start: usize,
}

impl Model for LineEnd {
    ghost use Rattle.std.specs.Prelude.{◌≤◌, List, ℕ, drop};

    ghost Value = { List ℕ };

    ghost view = { λ l. drop l.start l.room };

    ghost invariant = { λ l. l.start ≤ 256 };
}

impl LineEnd {
    /// No text.
    pub fn new() -> LineEnd
        ensures { result ≡ [] }
    {
        LineEnd {
            room: [0; ROOM],
            start: ROOM,
        }
    }

    /// The text.
    pub fn as_slice(&self) -> &[u8]
        ensures { result.now ≡ self.now }
    {
        &self.room[self.start..]
    }

    /// Writes a text before the rest.
    #[inline(always)]
    pub fn write(&mut self, text: &[u8])
        requires { length text.now + length self.old ≤ 256 }
        ensures { self.new ≡ text.now ++ self.old }
    {
        let start = self.start - text.len();
        self.room[start..self.start].copy_from_slice(text);
        self.start = start;
    }

    /// Writes a number in decimal before the rest.
    #[inline(always)]
    pub fn write_decimal(&mut self, number: u64)
        requires { 20 + length self.old ≤ 256 }
        ensures text { self.new ≡ decimal number ++ self.old }
        ensures bound { length self.new ≤ 20 + length self.old }
    {
        self.start = write_digits(number, &mut self.room, self.start);
    }

    /// Writes a word as four hex digits before the rest.
    #[inline(always)]
    fn write_word(&mut self, word: u16)
        requires { 4 + length self.old ≤ 256 }
        ensures text { self.new ≡ hex_word word ++ self.old }
        ensures bound { length self.new ≡ 4 + length self.old }
    {
        let mut digits = [0; 4];
        write_few_digits(&word.to_be_bytes(), &mut digits);
        self.write(&digits);
    }

    /// Writes words, each behind a space, before the rest.
    fn write_behind_spaces(&mut self, words: &[u16])
        requires { 5 * length words.now + length self.old ≤ 256 }
        ensures text { self.new ≡ words_behind_spaces words.now ++ self.old }
        ensures bound { length self.new ≡ 5 * length words.now + length self.old }
    {
        if let [front @ .., last] = words {
            self.write_word(*last);
            self.write(b" ");
            self.write_behind_spaces(front);
        }
    }

    /// Writes words with one space between, or a dash where there are none, before the rest.
    pub fn write_words(&mut self, words: &[u16])
        requires { 5 * length words.now + 1 + length self.old ≤ 256 }
        ensures text { self.new ≡ words_text words.now ++ self.old }
        ensures bound { length self.new ≤ 5 * length words.now + 1 + length self.old }
    {
        match words {
            [] => self.write(b"-"),
            [first, rest @ ..] => {
                self.write_behind_spaces(rest);
                self.write_word(*first);
            }
        }
    }
}
