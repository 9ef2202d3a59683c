//! Where in the input something comes from.
ghost use Rattle.std.specs.Prelude.{◌≡◌, option_and_then};
ghost use Rattle.xns_captures.specs.Times.{nanoseconds_of};
ghost use Rattle.xns_calls.specs.Origins.{frame_origin, line_origin, shown_from, shown_known, shown_time};

use crate::times::Times;
use courier_programs::Program;
use xns_captures::{FrameTime, Stamp};

/// The time of a frame, as it is shown.
#[derive(Clone, Copy, Debug, PartialEq, Eq)]
pub enum ShownTime {
    /// No times are wanted, or the input is no capture.
    Hidden,
    /// The capture does not say when, or not in a way that is read.
    Unknown,
    /// A number of nanoseconds after the beginning of 1970.
    Known {
        /// The time of the frame.
        nanoseconds: u64,
        /// The time from which it is counted.
        since: u64,
        /// How many digits behind the point the capture gives to a second, at most nine.
        digits: u8,
    },
}

/// Where in the input a line of the output comes from, a line of hex or a frame of a capture, and by which programs it names
/// calls.
#[derive(Clone, Copy)]
pub struct Origin<'a> {
    /// The number of the line or frame, from 1.
    pub number: usize,
    /// The time of the frame.
    pub time: ShownTime,
    /// The programs by which calls are named, where some are given.
    pub programs: Option<&'a [Program]>,
}

impl<'a> Origin<'a> {
    /// A line of hex, which has no time.
    pub fn of_line(programs: Option<&'a [Program]>, number: usize) -> Origin<'a>
        ensures { result ≡ line_origin programs.entry number }
    {
        Origin {
            number,
            time: ShownTime::Hidden,
            programs,
        }
    }

    /// A frame of a capture.
    pub fn of_frame(programs: Option<&'a [Program]>, times: Times, stamp: Stamp) -> Origin<'a>
        ensures { result ≡ frame_origin programs.entry times stamp }
    {
        Origin {
            number: stamp.number,
            time: shown(times, stamp.first, stamp.time),
            programs,
        }
    }
}

/// The time of a frame, as it is shown.
fn shown(times: Times, first: Option<FrameTime>, time: Option<FrameTime>) -> ShownTime
    ensures { result ≡ shown_time times first time }
{
    match times {
        Times::Hidden => ShownTime::Hidden,
        Times::Absolute => known(0, time),
        Times::Relative => known_from(first, time),
    }
}

/// The time of a frame, counted from another, if the capture says it.
fn known(since: u64, time: Option<FrameTime>) -> ShownTime
    ensures { result ≡ shown_known since time }
{
    let Some(time) = time else {
        return ShownTime::Unknown;
    };
    match time.nanoseconds() {
        Some(nanoseconds) => ShownTime::Known {
            nanoseconds,
            since,
            digits: time.digits(),
        },
        None => ShownTime::Unknown,
    }
}

/// The time of a frame, counted from another, if the capture says both.
fn known_from(first: Option<FrameTime>, time: Option<FrameTime>) -> ShownTime
    ensures { result ≡ shown_from (option_and_then nanoseconds_of first) time }
{
    let Some(first) = first else {
        return ShownTime::Unknown;
    };
    match first.nanoseconds() {
        Some(since) => known(since, time),
        None => ShownTime::Unknown,
    }
}
