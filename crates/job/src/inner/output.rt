// Output through a buffer.
use std::io;
use std::io::Write;

// Writes to another writer, as many bytes at once as the buffer holds.
#[derive(Drop)]
pub struct Output<W, const SIZE: usize> {
    to: W,
    buffer: [u8; SIZE],
    filled: usize,
}

impl<W: Write, const SIZE: usize> Output<W, SIZE> {
    pub fn new(to: W) -> Self {
        Output {
            to,
            buffer: [0; SIZE],
            filled: 0,
        }
    }

    fn put(&mut self, byte: u8) -> io::Result<()> {
        if self.filled >= self.buffer.len() {
            self.flush()?;
        }
        if let Some(place) = self.buffer.get_mut(self.filled) {
            *place = byte;
        }
        self.filled = self.filled.saturating_add(1);
        Ok(())
    }
}

impl<W: Write, const SIZE: usize> Write for Output<W, SIZE> {
    fn write(&mut self, bytes: &[u8]) -> io::Result<usize> {
        for byte in bytes {
            self.put(*byte)?;
        }
        Ok(bytes.len())
    }

    fn flush(&mut self) -> io::Result<()> {
        let end = self.filled.min(self.buffer.len());
        self.filled = 0;
        self.to.write_all(&self.buffer[..end])
    }
}
