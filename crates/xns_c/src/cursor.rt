/// Where words are read or written, and the first fault. After a fault nothing is read or written.
#[repr(C)]
#[derive(Clone, Copy)]
pub struct XnsCursor {
    /// How many words are behind the cursor.
    pub place: usize,
    /// The first fault by its number, or 0.
    pub fault: u32,
}

impl XnsCursor {
    ghost use Rattle.std.specs.Prelude.{◌≡◌, ◌-◌, length};
    ghost use Rattle.xns_c.specs.Cursor.{ahead, faulted};

    /// The words from the place on; none where the place is behind them all.
    pub fn ahead<'a>(&self, words: &'a [u16]) -> &'a [u16]
        ensures words { result.now ≡ ahead words.now self.now }
        ensures length { length result.now ≡ length words.now - self.now.place }
    {
        if self.place > words.len() {
            return &[];
        }
        let (_, rest) = words.split_at(self.place);
        rest
    }

    /// Gives the cursor this fault, and returns its number.
    pub fn fail(&mut self, number: u32) -> u32
        ensures { (result ≡ number) × (self.new ≡ faulted self.old number) }
    {
        self.fault = number;
        number
    }
}
