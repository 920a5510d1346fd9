//! Buffers over devices that fail at each call, and the texts of faults.
use bk_base::{
    ByteIn, ByteOut, Failed, IntcodeFault, IntcodeKind, Line, OcodeFault, OcodeKind, Reader512,
    Refused, SourceFault, SourceKind, Writer512, put_all,
};
use std::alloc::AllocError;
use std::io;
use std::io::{ErrorKind, Read, Write};
use std::process::Abort;
use std::test::Fail;

/// Gives the bytes 0, 1, .. up to `end`, so many a call, and fails at call `fails`, counted from 0.
#[derive(Drop)]
struct Source {
    next: u16,
    end: u16,
    step: usize,
    fails: u32,
    calls: u32,
}

impl Read for Source {
    fn read(&mut self, buf: &mut [u8]) -> io::Result<usize> {
        let call = self.calls;
        self.calls = call.saturating_add(1);
        if call == self.fails {
            return Err(io::Error::from(ErrorKind::Interrupted));
        }
        let mut count = 0;
        for slot in buf.iter_mut() {
            if count >= self.step || self.next >= self.end {
                break;
            }
            *slot = (self.next % 256) as u8;
            self.next = self.next.saturating_add(1);
            count += 1;
        }
        Ok(count.min(buf.len()))
    }
}

/// Takes so many bytes a call, and at call `fails`, counted from 0, none or an error.
#[derive(Drop)]
struct Sink {
    taken: u16,
    step: usize,
    fails: u32,
    by_zero: bool,
    calls: u32,
    flushes: u32,
    right: bool,
}

impl Write for Sink {
    fn write(&mut self, buf: &[u8]) -> io::Result<usize> {
        let call = self.calls;
        self.calls = call.saturating_add(1);
        if call == self.fails {
            return if self.by_zero {
                Ok(0)
            } else {
                Err(io::Error::from(ErrorKind::Interrupted))
            };
        }
        let mut count = 0;
        for byte in buf.iter() {
            if count >= self.step {
                break;
            }
            if u16::from(*byte) != self.taken % 256 {
                self.right = false;
            }
            self.taken = self.taken.saturating_add(1);
            count += 1;
        }
        Ok(count.min(buf.len()))
    }

    fn flush(&mut self) -> io::Result<()> {
        self.flushes = self.flushes.saturating_add(1);
        Ok(())
    }
}

/// Reads to the end or a failure: how many bytes came, and whether a call failed. Each later call must do the same.
fn drain<R: Read>(rt: &impl Abort, input: &mut Reader512<R>) -> (u16, bool) {
    let mut count = 0u16;
    for _ in 0..2000u32 {
        match input.next() {
            Ok(Some(byte)) => {
                assert_eq!(rt; u16::from(byte), count % 256);
                count = count.saturating_add(1);
            }
            Ok(None) => {
                assert_eq!(rt; input.next().is_ok_and(|given| given.is_none()), true);
                assert!(rt; input.ready());
                assert_eq!(rt; input.failures(), 0);
                return (count, false);
            }
            Err(_) => {
                assert!(rt; input.next().is_err());
                assert!(rt; input.ready());
                assert_eq!(rt; input.failures(), 1);
                return (count, true);
            }
        }
    }
    (count, false)
}

#[test]
fn a_read_that_fails_at_each_call(rt: HostRuntime) -> Result<(), Fail> {
    for step in [1usize, 7, 512, 600] {
        let mut met = false;
        for fails in 0..1100u32 {
            let mut source = Source {
                next: 0,
                end: 1030,
                step,
                fails,
                calls: 0,
            };
            let mut input = Reader512::new(&mut source);
            assert!(rt; !input.ready());
            let (count, failed) = drain(&rt, &mut input);
            let asked = source.calls;
            if failed {
                // all bytes of the calls before, and the device is not asked again
                let most = (fails as usize).saturating_mul(step.min(512)).min(1030);
                assert_eq!(rt; usize::from(count), most);
                assert_eq!(rt; asked, fails + 1);
            } else {
                assert_eq!(rt; count, 1030);
                met = true;
                break;
            }
        }
        assert!(rt; met);
    }
    Ok(())
}

#[test]
fn a_write_that_fails_at_each_call(rt: HostRuntime) -> Result<(), Fail> {
    for by_zero in [false, true] {
        for step in [1usize, 7, 600] {
            let mut met = false;
            for fails in 0..1100u32 {
                let mut sink = Sink {
                    taken: 0,
                    step,
                    fails,
                    by_zero,
                    calls: 0,
                    flushes: 0,
                    right: true,
                };
                let mut out = Writer512::new(&mut sink);
                let mut failed = false;
                for number in 0..1030u16 {
                    if out.put((number % 256) as u8).is_err() {
                        failed = true;
                        break;
                    }
                }
                if !failed {
                    failed = out.flush().is_err();
                }
                if failed {
                    assert_eq!(rt; out.failures(), 1);
                    assert!(rt; out.put(0).is_err());
                    assert!(rt; out.flush().is_err());
                } else {
                    assert_eq!(rt; out.failures(), 0);
                }
                assert!(rt; sink.right);
                if failed {
                    assert_eq!(rt; sink.calls, fails + 1);
                    assert_eq!(rt; sink.flushes, 0);
                } else {
                    assert_eq!(rt; sink.taken, 1030);
                    assert_eq!(rt; sink.flushes, 1);
                    met = true;
                    break;
                }
            }
            assert!(rt; met);
        }
    }
    Ok(())
}

#[test]
fn a_flush_of_the_device_that_fails(rt: HostRuntime) -> Result<(), Fail> {
    #[derive(Drop)]
    struct NoFlush;
    impl Write for NoFlush {
        fn write(&mut self, buf: &[u8]) -> io::Result<usize> {
            Ok(buf.len())
        }

        fn flush(&mut self) -> io::Result<()> {
            Err(io::Error::from(ErrorKind::Interrupted))
        }
    }
    let mut out = Writer512::new(NoFlush);
    assert!(rt; out.put(1).is_ok());
    assert!(rt; out.flush().is_err());
    assert!(rt; out.put(1).is_err());
    assert_eq!(rt; out.failures(), 1);
    Ok(())
}

#[test]
fn bytes_put_together(rt: HostRuntime) -> Result<(), Fail> {
    let mut bytes = Vec::new(rt.alloc());
    let mut out = Writer512::new(&mut bytes);
    assert!(rt; put_all(&mut out, b"HELLO").is_ok());
    assert!(rt; out.flush().is_ok());
    assert_eq!(rt; bytes.as_slice(), b"HELLO".as_slice());
    let mut sink = Sink {
        taken: 0,
        step: 1,
        fails: 3,
        by_zero: true,
        calls: 0,
        flushes: 0,
        right: true,
    };
    let mut out = Writer512::new(&mut sink);
    assert!(rt; put_all(&mut out, &[0, 1, 2, 3, 4]).is_ok());
    assert!(rt; out.flush().is_err());
    assert!(rt; put_all(&mut out, &[5]).is_err());
    assert_eq!(rt; sink.taken, 3);
    Ok(())
}

#[test]
fn texts_of_faults(rt: HostRuntime) -> Result<(), Fail> {
    let name = String::from_str(rt.alloc(), "FOO")?;
    let fault = SourceFault {
        line: Line::new(3),
        kind: SourceKind::NotDeclared(name),
    };
    assert_eq!(rt; fault.kind.number(), 13);
    assert_eq!(rt;
        format!(in rt.alloc(); "{fault}")?.as_str(),
        "line 3: not declared: FOO"
    );
    let fault = SourceFault {
        line: Line::first(),
        kind: SourceKind::UnexpectedSymbol,
    };
    assert_eq!(rt;
        format!(in rt.alloc(); "{fault}")?.as_str(),
        "line 1: unexpected symbol"
    );
    let fault = OcodeFault {
        statement: 6,
        kind: OcodeKind::Truncated,
    };
    assert_eq!(rt;
        format!(in rt.alloc(); "{fault}")?.as_str(),
        "statement 6: truncated"
    );
    let fault = IntcodeFault {
        item: 9,
        kind: IntcodeKind::FrameGivenTwice,
    };
    assert_eq!(rt; fault.kind.number(), 8);
    assert_eq!(rt;
        format!(in rt.alloc(); "{fault}")?.as_str(),
        "item 9: frame given twice"
    );
    let refused: Refused<IntcodeFault> = Refused::Fault(fault);
    assert_eq!(rt;
        format!(in rt.alloc(); "{refused}")?.as_str(),
        "item 9: frame given twice"
    );
    let refused: Refused<IntcodeFault> = Refused::from(Failed);
    assert_eq!(rt; format!(in rt.alloc(); "{refused}")?.as_str(), "read fault");
    let refused: Refused<IntcodeFault> = Refused::from(AllocError);
    assert_eq!(rt; format!(in rt.alloc(); "{refused}")?.as_str(), "no memory");
    Ok(())
}
