/// An answer that is given at its time.
#[derive(Drop)]
pub struct Late {
    pub at: u64,
    /// The number of the connection.
    pub number: usize,
    pub words: Vec<u16>,
}
