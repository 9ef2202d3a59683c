//! What frames were captured from.

/// An interface of a section.
#[derive(Clone, Copy, Debug, PartialEq, Eq)]
pub struct Interface {
    /// The link type of its frames.
    pub link: u16,
    /// How many bytes of a frame were kept at most; 0 stands for no limit.
    pub most: u32,
    /// The code of the resolution of its times, as an option of pcapng has it: n for 10^-n of a second, 128 + n for 2^-n.
    pub resolution: u8,
}
