use std::fmt;

/// Bytes as digits of hex; `-` for none.
#[derive(Drop)]
pub struct Hexed<'a>(pub &'a [u8]);

impl fmt::Display for Hexed<'_> {
    fn fmt<W: fmt::Write>(&self, f: &mut fmt::Formatter<W>) -> fmt::Result {
        let bytes = self.0;
        if bytes.is_empty() {
            return write!(f, "-");
        }
        for byte in bytes {
            write!(f, "{byte:02x}")?;
        }
        Ok(())
    }
}
