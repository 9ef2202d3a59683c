/// The first fault of a text in Courier's notation.
#[repr(C)]
#[derive(Clone, Copy)]
pub struct XnsNotationFault {
    /// The line of its place, from 1.
    pub line: usize,
    /// The column of its place, from 1, in bytes.
    pub column: usize,
    /// What is wrong, by number.
    pub reason: u32,
}
