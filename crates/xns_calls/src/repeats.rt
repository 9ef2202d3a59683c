//! Repeats of a flow that come in a row.
ghost use Rattle.std.specs.Prelude.{◌≡◌};
ghost use Rattle.xns_calls.specs.Repeats.{repeats_behind, tells_next};

use xns_spp::MOST_PENDING;

/// What is kept of the repeats of a flow.
#[derive(Clone, Copy, Debug, PartialEq, Eq)]
pub enum Repeats {
    /// The number of repeats that are the last items of the flow that were captured, fewer than 64.
    InARow(u8),
    /// 64 came in a row, and the line that tells of it was printed.
    Told,
}

impl Repeats {
    /// Whether one repeat more is told of: it is the 64th in a row, and none was told of before.
    pub fn tells_next(self) -> bool
        ensures { result ≡ tells_next self }
    {
        match self {
            Repeats::Told => false,
            Repeats::InARow(count) => usize::from(count) + 1 >= MOST_PENDING,
        }
    }

    /// What is kept behind one item more, which is a repeat or is none.
    pub fn behind(self, is_repeat: bool) -> Repeats
        ensures { result ≡ repeats_behind is_repeat self }
    {
        match self {
            Repeats::Told => Repeats::Told,
            Repeats::InARow(count) if is_repeat => {
                if usize::from(count) + 1 < MOST_PENDING {
                    Repeats::InARow(count + 1)
                } else {
                    Repeats::Told
                }
            }
            Repeats::InARow(_) => Repeats::InARow(0),
        }
    }
}
