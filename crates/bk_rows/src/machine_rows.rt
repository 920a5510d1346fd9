//! Runs of the machine that are gone on with, and runs whose devices fail.
use bk_base::{ByteIn, ByteOut, End, Reader512, Writer512};
use bk_intcode::read_segment;
use bk_machine::{Intcode, Machine};
use std::alloc::Global;
use std::cell::Cell;
use std::io;
use std::io::{ErrorKind, Read, Write};
use std::process::Abort;
use std::test::Fail;

const WORDS: u32 = 4_096;

const MANY: u64 = 1_000_000;

/// Writes `A` in ten steps.
const LETTER: &[u8] = b"1 L65 SP4 LIG4 K2 X4 G1L1 Z";

/// Writes the least number.
const LEAST: &[u8] = b"1 L-2147483648 SP6 LIG7 K4 X4 G1L1 Z";

/// Reads a byte and writes it as a number, twice.
const READS_TWICE: &[u8] = b"1 LIG3 K4 SP6 LIG7 K4 LIG3 K4 SP6 LIG7 K4 X4 G1L1 Z";

/// The segment of a text.
fn segment_of(alloc: Global, text: &[u8]) -> Result<Intcode, Fail> {
    let mut input = Reader512::new(text);
    match read_segment(alloc, &mut input) {
        Ok(Some(segment)) => Ok(segment),
        _ => Err(Fail::from("no segment")),
    }
}

#[test]
fn a_limit_is_gone_on_from(rt: HostRuntime) -> Result<(), Fail> {
    for first in [4u64, 6, 7, 9] {
        let segments = vec![in rt.alloc(); segment_of(rt.alloc(), LETTER)?]?;
        let mut machine = Machine::load(rt.alloc(), &segments, WORDS)?;
        let none: &[u8] = &[];
        let mut input = Reader512::new(none);
        let mut bytes = Vec::new(rt.alloc());
        let mut out = Writer512::new(&mut bytes);
        assert_eq!(rt; machine.run(first, &mut input, &mut out), End::StepLimit);
        assert_eq!(rt; machine.run(0, &mut input, &mut out), End::StepLimit);
        assert_eq!(rt;
            machine.run(9 - first, &mut input, &mut out),
            End::StepLimit
        );
        assert_eq!(rt; machine.run(1, &mut input, &mut out), End::Status(0));
        assert_eq!(rt; machine.run(MANY, &mut input, &mut out), End::Status(0));
        assert_eq!(rt; machine.run(0, &mut input, &mut out), End::Status(0));
        assert_eq!(rt; bytes.as_slice(), b"A".as_slice());
    }
    Ok(())
}

/// Takes so many bytes, and then fails.
#[derive(Drop)]
struct Narrow {
    room: usize,
    taken: usize,
}

impl Write for Narrow {
    fn write(&mut self, buf: &[u8]) -> io::Result<usize> {
        let count = buf.len().min(self.room);
        self.room -= count;
        self.taken = self.taken.saturating_add(count);
        Ok(count)
    }

    fn flush(&mut self) -> io::Result<()> {
        Ok(())
    }
}

#[test]
fn a_writer_that_takes_three_bytes(rt: HostRuntime) -> Result<(), Fail> {
    let segments = vec![in rt.alloc(); segment_of(rt.alloc(), LEAST)?]?;
    let mut machine = Machine::load(rt.alloc(), &segments, WORDS)?;
    let none: &[u8] = &[];
    let mut input = Reader512::new(none);
    let mut narrow = Narrow { room: 3, taken: 0 };
    let mut out = Writer512::new(&mut narrow);
    assert_eq!(rt; machine.run(MANY, &mut input, &mut out), End::WriteFault);
    assert_eq!(rt; machine.run(MANY, &mut input, &mut out), End::WriteFault);
    assert_eq!(rt; out.failures(), 1);
    assert_eq!(rt; narrow.taken, 3);
    Ok(())
}

/// Gives one byte, and then fails.
#[derive(Drop)]
struct Broken {
    calls: u32,
}

impl Read for Broken {
    fn read(&mut self, buf: &mut [u8]) -> io::Result<usize> {
        let call = self.calls;
        self.calls = call.saturating_add(1);
        if call > 0 || buf.is_empty() {
            return Err(io::Error::from(ErrorKind::Interrupted));
        }
        buf[0] = 65;
        Ok(1)
    }
}

#[test]
fn a_reader_that_fails_after_a_byte(rt: HostRuntime) -> Result<(), Fail> {
    let segments = vec![in rt.alloc(); segment_of(rt.alloc(), READS_TWICE)?]?;
    let mut machine = Machine::load(rt.alloc(), &segments, WORDS)?;
    let mut broken = Broken { calls: 0 };
    let mut input = Reader512::new(&mut broken);
    let mut bytes = Vec::new(rt.alloc());
    let mut out = Writer512::new(&mut bytes);
    assert_eq!(rt; machine.run(MANY, &mut input, &mut out), End::ReadFault);
    assert_eq!(rt; machine.run(MANY, &mut input, &mut out), End::ReadFault);
    assert_eq!(rt; input.failures(), 1);
    assert_eq!(rt; broken.calls, 2);
    assert_eq!(rt; bytes.as_slice(), b"65".as_slice());
    Ok(())
}

/// Adds a call to a record of calls, the last of which is its last digit: 1 reads, 2 writes, 3 flushes.
fn note(record: &Cell<u64>, call: u64) {
    record.set(record.get().wrapping_mul(10).wrapping_add(call));
}

/// Gives so many letters a call, from A on, and notes each call.
#[derive(Drop)]
struct NotedReader<'a> {
    record: &'a Cell<u64>,
    step: usize,
    next: u8,
}

impl Read for NotedReader<'_> {
    fn read(&mut self, buf: &mut [u8]) -> io::Result<usize> {
        note(self.record, 1);
        let mut count = 0;
        for slot in buf.iter_mut() {
            if count >= self.step {
                break;
            }
            *slot = self.next;
            self.next = self.next.wrapping_add(1);
            count += 1;
        }
        Ok(count.min(buf.len()))
    }
}

/// Takes all bytes, notes each call, and fails at a flush once so many have succeeded.
#[derive(Drop)]
struct NotedWriter<'a> {
    record: &'a Cell<u64>,
    flushes: u32,
}

impl Write for NotedWriter<'_> {
    fn write(&mut self, buf: &[u8]) -> io::Result<usize> {
        note(self.record, 2);
        Ok(buf.len())
    }

    fn flush(&mut self) -> io::Result<()> {
        note(self.record, 3);
        if self.flushes == 0 {
            return Err(io::Error::from(ErrorKind::Interrupted));
        }
        self.flushes -= 1;
        Ok(())
    }
}

/// The end and the record of calls of a run that reads a byte, writes it as a number, and does so once more, run twice.
fn noted(rt: &impl Abort, alloc: Global, step: usize, flushes: u32) -> Result<(End, u64), Fail> {
    let segments = vec![in alloc; segment_of(alloc, READS_TWICE)?]?;
    let mut machine = Machine::load(alloc, &segments, WORDS)?;
    let record = Cell::new(0);
    let mut input = Reader512::new(NotedReader {
        record: &record,
        step,
        next: 65,
    });
    let mut out = Writer512::new(NotedWriter {
        record: &record,
        flushes,
    });
    let end = machine.run(MANY, &mut input, &mut out);
    assert_eq!(rt; machine.run(MANY, &mut input, &mut out), end);
    Ok((end, record.get()))
}

#[test]
fn output_is_flushed_before_a_read_that_waits(rt: HostRuntime) -> Result<(), Fail> {
    assert_eq!(rt; noted(&rt, rt.alloc(), 1, 9)?, (End::Status(0), 3_123_123));
    assert_eq!(rt; noted(&rt, rt.alloc(), 2, 9)?, (End::Status(0), 3_123));
    Ok(())
}

#[test]
fn the_reader_is_not_asked_after_a_failed_flush(rt: HostRuntime) -> Result<(), Fail> {
    assert_eq!(rt; noted(&rt, rt.alloc(), 1, 0)?, (End::WriteFault, 3));
    assert_eq!(rt; noted(&rt, rt.alloc(), 1, 1)?, (End::WriteFault, 3_123));
    assert_eq!(rt; noted(&rt, rt.alloc(), 1, 2)?, (End::WriteFault, 3_123_123));
    Ok(())
}
