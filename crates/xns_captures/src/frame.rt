//! Where a frame stands.
use crate::frame_time::FrameTime;

/// Where a frame stands in the bytes of its part of a capture.
#[derive(Clone, Copy, Debug, PartialEq, Eq)]
pub struct Frame {
    /// The frame's link type.
    pub link: u16,
    /// Where the frame begins.
    pub start: usize,
    /// How many bytes of the frame were captured.
    pub count: usize,
    /// When the frame was captured; none where the capture does not say.
    pub time: Option<FrameTime>,
}
