//! The programs that can be called.

/// A program that can be called, in its versions from the lowest to the highest, laid out as in C.
#[repr(C)]
#[derive(Clone, Copy, Debug, PartialEq, Eq)]
pub struct Program {
    pub number: u32,
    pub lowest: u16,
    pub highest: u16,
}
