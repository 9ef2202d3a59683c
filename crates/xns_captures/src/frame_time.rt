//! When a frame was captured.
ghost use Rattle.std.specs.Prelude.{◌≡◌, ◌<◌, IfSome};
ghost use Rattle.xns_captures.specs.Times.{digits_of, nanoseconds_of, units_of_second};

/// Nanoseconds of a second.
const SECOND: u128 = 1_000_000_000;
/// The most digits of a second that a time has.
const MOST_DIGITS: u8 = 9;
/// Resolutions from here on are powers of two.
const BINARY: u8 = 128;

/// When a frame was captured, as its capture says it.
#[derive(Clone, Copy, Debug, PartialEq, Eq)]
pub struct FrameTime {
    /// Units since the beginning of 1970, UTC.
    pub count: u64,
    /// The code of their resolution, as pcapng has it: n for 10^-n of a second, 128 + n for 2^-n.
    pub resolution: u8,
}

impl FrameTime {
    /// The nanoseconds since 1970, rounded down; none where the resolution is not known, or where they have over 64 bits, which
    /// is so from the year 2554 on.
    pub fn nanoseconds(self) -> Option<u64>
        ensures { result ≡ nanoseconds_of self }
    {
        let units = units_of_second(self.resolution)?;
        let nanoseconds = u128::from(self.count) * SECOND / u128::from(units);
        if nanoseconds > u128::from(u64::MAX) {
            return None;
        }
        Some(nanoseconds as u64)
    }

    /// How many digits behind the point the capture gives to a second, at most nine.
    pub fn digits(self) -> u8
        ensures { result ≡ digits_of self }
    {
        self.resolution.min(MOST_DIGITS)
    }
}

/// How many units a second has, by the code of their resolution: a power of ten below 2^64, or of two.
fn units_of_second(resolution: u8) -> Option<u64>
    ensures units { result ≡ units_of_second resolution }
    ensures some { IfSome result (λ units. 0 < units) }
{
    if resolution < 20 {
        return Some(10u64.pow(u32::from(resolution)));
    }
    if resolution < BINARY {
        return None;
    }
    if resolution >= BINARY + 64 {
        return None;
    }
    Some(1 << (resolution - BINARY))
}
