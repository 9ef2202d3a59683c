use std::io::{Error, ErrorKind, Read, Result};

/// Gives pieces of at most `most` bytes, and fails at read number `fails_at`.
#[derive(Drop)]
pub struct FailingReader<'a> {
    pub rest: &'a [u8],
    pub most: usize,
    pub reads: usize,
    pub fails_at: usize,
}

impl Read for FailingReader<'_> {
    fn read(&mut self, buf: &mut [u8]) -> Result<usize> {
        self.reads = self.reads.saturating_add(1);
        if self.reads == self.fails_at {
            return Err(Error::from(ErrorKind::Other));
        }
        let count = self.most.min(buf.len()).min(self.rest.len());
        let (front, rest) = self.rest.split_at(count);
        buf[..count].copy_from_slice(front);
        self.rest = rest;
        Ok(count)
    }
}

/// Gives one byte for ever.
#[derive(Drop)]
pub struct Endless(pub u8);

impl Read for Endless {
    fn read(&mut self, buf: &mut [u8]) -> Result<usize> {
        for byte in buf.iter_mut() {
            *byte = self.0;
        }
        Ok(buf.len())
    }
}
