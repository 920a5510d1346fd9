//! FILE, whether it could be opened or not.
use std::fs::File;
use std::io;
use std::io::{ErrorKind, Read, Stdin};
use std::os::fd::AsRawFd;

/// The number of standard error, the last of the standard streams.
const LAST_STREAM: i32 = 2;

/// Opens FILE. Where a standard stream is closed, the system gives its number to the file that is opened next: FILE takes
/// another, so that it is not read as the program's input.
pub fn open(rt: &HostRuntime, name: &str) -> io::Result<File> {
    let file = File::open(rt, name)?;
    if file.as_raw_fd() <= LAST_STREAM {
        return file.try_clone();
    }
    Ok(file)
}

/// A file that was opened, or one that could not be, of which each read fails.
#[derive(Drop)]
pub struct Opened<R> {
    file: Option<R>,
}

impl<R> Opened<R> {
    /// The file, or None where it could not be opened.
    pub fn new(file: Option<R>) -> Opened<R> {
        Opened { file }
    }
}

impl<R: Read> Read for Opened<R> {
    fn read(&mut self, buf: &mut [u8]) -> io::Result<usize> {
        match &mut self.file {
            Some(file) => file.read(buf),
            None => Err(io::Error::from(ErrorKind::NotFound)),
        }
    }
}

/// The standard input or a file. The input and the OCODE that gives names are of this one type, so that the reader of OCODE is compiled
/// once.
#[derive(Drop)]
pub enum Source {
    /// The standard input.
    Input(Stdin),
    /// A file that was opened, or one that could not be.
    File(Opened<File>),
}

impl Read for Source {
    // (once for 512 bytes: it stays out of the loops over them)
    #[inline(never)]
    fn read(&mut self, buf: &mut [u8]) -> io::Result<usize> {
        match self {
            Source::Input(input) => input.read(buf),
            Source::File(file) => file.read(buf),
        }
    }
}

/// FILE, which is the standard input where its name is `-`. It has a type of its own, so that the code that reads OCODE is not shared with
/// the code that reads INTCODE from FILE.
#[derive(Drop)]
pub struct Named {
    source: Source,
}

impl Named {
    /// FILE from this source.
    pub fn new(source: Source) -> Named {
        Named { source }
    }
}

impl Read for Named {
    #[inline(never)]
    fn read(&mut self, buf: &mut [u8]) -> io::Result<usize> {
        self.source.read(buf)
    }
}
