//! A reader and a writer that remember the cause of a fault.
use std::io::{self, ErrorKind, Read, Write};
use xns_captures::is_capture;
use xns_lines::MOST_LINE_BYTES;

/// A reader of a file that remembers why a read failed, and which line was the first that is too long, unless the file is
/// a capture.
#[derive(Drop)]
pub struct WatchedReader<R> {
    /// Where the bytes come from.
    reader: R,
    /// Whether the first bytes are those of a capture, once there were some.
    is_capture: Option<bool>,
    /// The number of the line that is read.
    number: u64,
    /// How many bytes of it were read.
    length: usize,
    /// The number of the first line that is too long.
    long_line: Option<u64>,
    /// Why a read failed.
    error: Option<io::Error>,
}

impl<R: Read> WatchedReader<R> {
    /// A reader of a file of which nothing was read.
    pub fn new(reader: R) -> Self {
        WatchedReader {
            reader,
            is_capture: None,
            number: 1,
            length: 0,
            long_line: None,
            error: None,
        }
    }

    /// The number of the first line that is too long, if there was one.
    pub fn long_line(&self) -> Option<u64> {
        self.long_line
    }

    /// Why a read failed, if one did.
    pub fn error(&self) -> Option<&io::Error> {
        self.error.as_ref()
    }

    /// Follows the lines through these bytes.
    fn watch(&mut self, bytes: &[u8]) {
        if self.is_capture.is_none() && !bytes.is_empty() {
            self.is_capture = Some(is_capture(bytes));
        }
        if self.is_capture == Some(true) {
            return;
        }
        for byte in bytes {
            self.watch_byte(*byte);
        }
    }

    /// Follows the lines by a byte.
    fn watch_byte(&mut self, byte: u8) {
        if byte == b'\n' {
            self.number = self.number.saturating_add(1);
            self.length = 0;
            return;
        }
        self.length = self.length.saturating_add(1);
        if self.length > MOST_LINE_BYTES && self.long_line.is_none() {
            self.long_line = Some(self.number);
        }
    }
}

impl<R: Read> Read for WatchedReader<R> {
    fn read(&mut self, buf: &mut [u8]) -> io::Result<usize> {
        match self.reader.read(buf) {
            Ok(count) => {
                self.watch(&buf[..count]);
                Ok(count)
            }
            Err(error) => {
                let kind = error.kind();
                self.error = Some(error);
                Err(io::Error::from(kind))
            }
        }
    }
}

/// A writer that remembers whether nobody reads what it writes any more.
#[derive(Drop)]
pub struct WatchedWriter<W> {
    /// Where the bytes go.
    writer: W,
    /// Whether a write failed because the other end of a pipe was closed.
    is_closed: bool,
}

impl<W: Write> WatchedWriter<W> {
    /// A writer that has written nothing.
    pub fn new(writer: W) -> Self {
        WatchedWriter {
            writer,
            is_closed: false,
        }
    }

    /// Whether a write failed because the other end of a pipe was closed.
    pub fn is_closed(&self) -> bool {
        self.is_closed
    }
}

impl<W: Write> Write for WatchedWriter<W> {
    fn write(&mut self, buf: &[u8]) -> io::Result<usize> {
        let written = self.writer.write(buf);
        if let Err(error) = &written {
            self.is_closed = self.is_closed || error.kind() == ErrorKind::BrokenPipe;
        }
        written
    }

    fn flush(&mut self) -> io::Result<()> {
        self.writer.flush()
    }
}
