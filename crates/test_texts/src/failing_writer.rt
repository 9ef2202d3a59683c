use std::io::{Error, ErrorKind, Result, Write};

/// Takes a byte at a time, and fails once it has taken `most` bytes.
#[derive(Drop)]
pub struct FailingWriter {
    pub written: Vec<u8>,
    pub most: usize,
}

impl Write for FailingWriter {
    fn write(&mut self, buf: &[u8]) -> Result<usize> {
        if self.written.len() >= self.most {
            return Err(Error::from(ErrorKind::Other));
        }
        let count = buf.len().min(1);
        self.written.extend_from_slice(&buf[..count])?;
        Ok(count)
    }

    fn flush(&mut self) -> Result<()> {
        Ok(())
    }
}
