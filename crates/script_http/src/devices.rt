//! A reader and a writer in memory that give and take in steps, and fail where they are told to.
use std::cmp::min;
use std::io::{self, Read, Write};

/// Gives a text in reads of so many bytes. The read behind `sound` reads fails.
#[derive(Drop)]
pub struct Steps<'a> {
    pub text: &'a [u8],
    pub step: usize,
    pub sound: usize,
    pub reads: usize,
}

impl Read for Steps<'_> {
    fn read(&mut self, buf: &mut [u8]) -> io::Result<usize> {
        if self.reads == self.sound {
            return Err(io::ErrorKind::Other.into());
        }
        self.reads = self.reads.saturating_add(1);
        let count = min(min(self.step, self.text.len()), buf.len());
        buf[..count].copy_from_slice(&self.text[..count]);
        self.text = &self.text[count..];
        Ok(count)
    }
}

/// Takes so many bytes, up to seven a write. Then a write fails, or takes none.
#[derive(Drop)]
pub struct Room {
    pub bytes: Vec<u8>,
    pub room: usize,
    pub fails: bool,
}

impl Write for Room {
    fn write(&mut self, buf: &[u8]) -> io::Result<usize> {
        if self.room == 0 && self.fails {
            return Err(io::ErrorKind::Other.into());
        }
        let count = min(min(7, self.room), buf.len());
        self.room -= count;
        self.bytes.write(&buf[..count])
    }

    fn flush(&mut self) -> io::Result<()> {
        Ok(())
    }
}
