//! What a packet has of its frame.
use crate::frame_time::FrameTime;

/// Which frame a packet was found in, and when that was captured.
#[derive(Clone, Copy, Debug, PartialEq, Eq)]
pub struct Stamp {
    /// The number of the frame, from 1.
    pub number: usize,
    /// When the frame was captured; none where the capture does not say.
    pub time: Option<FrameTime>,
    /// The first time that the capture says of a frame, up to this one.
    pub first: Option<FrameTime>,
}
