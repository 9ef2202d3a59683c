/// A node of a program's table.
#[repr(C)]
#[derive(Clone, Copy)]
pub struct XnsNode {
    /// What the node stands for, by number.
    pub kind: u32,
    /// What the kind says; 0 where it says nothing.
    pub number: u32,
    /// How many parts it has, which stand behind it, each with its own parts.
    pub parts: usize,
    /// Where its name begins in the names.
    pub name: usize,
}
