//! A reader and a writer for the tests, which give and take a few bytes at a call.
use std::io::{self, Read, Write};

/// Gives at most `step` of its bytes at a call, and fails at the end where it is told to.
#[derive(Drop)]
pub struct ShortReader {
    pub left: &'static [u8],
    pub step: usize,
    pub fails: bool,
}

impl Read for ShortReader {
    fn read(&mut self, buf: &mut [u8]) -> io::Result<usize> {
        if self.fails && self.left.is_empty() {
            return Err(io::Error::from(io::ErrorKind::WouldBlock));
        }
        let count = buf.len().min(self.step).min(self.left.len());
        buf[..count].copy_from_slice(&self.left[..count]);
        self.left = &self.left[count..];
        Ok(count)
    }
}

/// Takes at most `step` bytes at a call, and `room` in all.
#[derive(Drop)]
pub struct ShortWriter {
    pub taken: Vec<u8>,
    pub step: usize,
    pub room: usize,
}

impl Write for ShortWriter {
    fn write(&mut self, buf: &[u8]) -> io::Result<usize> {
        let room = self.room.saturating_sub(self.taken.len());
        let count = buf.len().min(self.step).min(room);
        self.taken.extend_from_slice(&buf[..count])?;
        Ok(count)
    }

    fn flush(&mut self) -> io::Result<()> {
        Ok(())
    }
}
