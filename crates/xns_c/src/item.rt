/// What is known of an item but its bytes.
#[repr(C)]
#[derive(Clone, Copy)]
pub struct XnsItem {
    /// The datastream type.
    pub stream: u8,
    /// 1 for an attention item, else 0.
    pub attention: u8,
    /// 1 where a message ends with it, else 0.
    pub last: u8,
    /// How many bytes it has.
    pub length: usize,
}
