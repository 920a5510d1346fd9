//! Devices that give or take one byte a call, and then fail.
use std::io;
use std::io::{ErrorKind, Read, Write};

/// Takes so many bytes, one a write, and then fails.
#[derive(Drop)]
pub struct Short<'a> {
    pub bytes: &'a mut Vec<u8>,
    pub room: usize,
}

impl Write for Short<'_> {
    fn write(&mut self, buf: &[u8]) -> io::Result<usize> {
        if self.room == 0 {
            return Err(io::Error::from(ErrorKind::Other));
        }
        match buf {
            [] => Ok(0),
            [first, ..] => {
                if self.bytes.push(*first).is_err() {
                    return Err(io::Error::from(ErrorKind::OutOfMemory));
                }
                self.room -= 1;
                Ok(1)
            }
        }
    }

    fn flush(&mut self) -> io::Result<()> {
        Ok(())
    }
}

/// Gives one byte a read, and fails at a read.
#[derive(Drop)]
pub struct Slow<'a> {
    pub bytes: &'a [u8],
    pub reads: usize,
}

impl Read for Slow<'_> {
    fn read(&mut self, buf: &mut [u8]) -> io::Result<usize> {
        if self.reads == 0 {
            return Err(io::Error::from(ErrorKind::Other));
        }
        self.reads -= 1;
        if buf.is_empty() {
            return Ok(0);
        }
        match self.bytes {
            [] => Ok(0),
            [first, rest @ ..] => {
                buf[0] = *first;
                self.bytes = rest;
                Ok(1)
            }
        }
    }
}
