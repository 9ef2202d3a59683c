//! How long a connection waits, and how long it bears a silent peer.

ghost use Rattle.std.specs.Prelude.{◌≤◌};

/// How long a connection waits, in milliseconds. A host makes it of its settings.
#[derive(Clone, Copy)]
pub struct Pace {
    /// The first wait for an acknowledgement, where nothing was measured.
    pub first: u32,
    /// The longest wait.
    pub longest: u32,
    /// How much longer a measured wait is, at least, than the time that was measured.
    pub least: u32,
    /// How long the peer may be silent before it is asked for a word, where nothing waits for it. 0 means for ever, unless a word of the
    /// peer is wanted.
    pub idle: u32,
    /// How many packets without a word of the peer are borne at least.
    pub tries: u8,
    /// How long the waits take together, at least, before a silent peer is given up.
    pub patience: u32,
    ghost some: { 1 ≤ first },
    ghost ordered: { first ≤ longest },
    ghost short: { 1 ≤ least },
    ghost shortest: { least ≤ first },
}

impl Pace {
    ghost use Rattle.std.specs.Prelude.{◌≡◌, ◌≤◌, ℕ};
    ghost use Rattle.xns_agenda.specs.Measuring.{further_waits, next_length};

    /// How long the peer may usually be silent, in milliseconds.
    pub const USUAL_IDLE: u32 = 10_000;

    /// The length of the wait after one of this length.
    pub fn next_length(&self, length: u32) -> u32
        requires { length ≤ self.now.longest }
        ensures value { result ≡ next_length self.now length }
        ensures least { length ≤ result }
        ensures most { result ≤ self.now.longest }
    {
        if length > self.longest / 2 {
            self.longest
        } else {
            length * 2
        }
    }

    /// How many waits have to come after one of this length, until all of them together take this span.
    #[tactic(auto, using(crate::proofs::Measures::none_further, crate::proofs::Measures::all_longest))]
    pub fn further_waits(&self, length: u32, span: u32) -> u32
        requires some { 1 ≤ length }
        requires longest { length ≤ self.now.longest }
        ensures value { (most : ℕ) → span ≤ most → result ≡ further_waits most self.now length span }
        ensures most { result ≤ span }
    {
        if span <= length {
            return 0;
        }
        if length == self.longest {
            return (span - 1) / length;
        }
        self.further_waits(self.next_length(length), span - length) + 1
    }
}
