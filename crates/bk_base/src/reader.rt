//! A reader over an array of 512 bytes.
ghost use Rattle.std.specs.Prelude.{◌≡◌, ℕ, [], ◌≤◌, None, false, IfOk, OnErr, IsErr, IsTrue, is_err, is_none, drop, take, ◌||◌, ◌&&◌, if◌then◌else◌};
ghost use Rattle.std.specs.Io.KnownBytes.{Consumes, Keeps, prepend_known};
ghost use Rattle.bk_base.specs.Devices.{NothingLeft, byte_list};
ghost use Rattle.bk_base.specs.declared.reader.TheConstants.{SIZE};

use crate::device::{ByteIn, Failed};
use std::io::Read;

const SIZE: usize = 512;

/// A reader of a device, which holds up to 512 bytes and takes no memory. Any error of the device, an interrupted
/// call included, is a failure.
#[derive(Drop)]
pub struct Reader512<R: Read> {
    device: R,
    buffer: [u8; SIZE],
    from: usize,
    to: usize,
    ended: bool,
    failed: bool,
    ghost order: { from ≤ to },
    ghost in_range: { to ≤ SIZE },
    // once the end was reported or the device failed, nothing is held
    ghost drained: { IsTrue (ended || failed) → from ≡ to },
    ghost one_end: { (ended && failed) ≡ false },
    ghost at_end: { IsTrue ended → NothingLeft (R.remaining device) },
}

impl<R: Read> Reader512<R> {
    /// A reader that holds nothing.
    pub fn new(device: R) -> Reader512<R>
        ensures left { ⟦<Reader512<R> as ByteIn>⟧.left result ≡ R.remaining device }
        ensures held { ⟦<Reader512<R> as ByteIn>⟧.held result ≡ [] }
        ensures ended { ⟦<Reader512<R> as ByteIn>⟧.ended result ≡ false }
        ensures faults { ⟦<Reader512<R> as ByteIn>⟧.faults result ≡ 0 }
    {
        Reader512 {
            device,
            buffer: [0; SIZE],
            from: 0,
            to: 0,
            ended: false,
            failed: false,
        }
    }

    /// The next byte where none is held. It is read with up to 511 more. It is a function of its own, so that loops over bytes have no
    /// code that reads.
    #[cold]
    #[inline(never)]
    fn next_read(&mut self) -> Result<Option<u8>, Failed>
        requires none_held { self.old.from ≡ self.old.to }
        ensures delivers { IfOk result (λ given. Consumes (⟦<Reader512<R> as ByteIn>⟧.left self.old)
            (⟦<Reader512<R> as ByteIn>⟧.left self.new) (byte_list given)) }
        ensures end { IfOk result (λ given. self.new.ended ≡ is_none given) }
        ensures end_again { IsTrue self.old.ended → result ≡ Ok None }
        ensures keeps { OnErr result (Keeps (⟦<Reader512<R> as ByteIn>⟧.left self.old) (⟦<Reader512<R> as ByteIn>⟧.left self.new)
            × (self.new.from ≡ self.new.to) × (self.new.ended ≡ self.old.ended)) }
        ensures failures { self.new.failed ≡ is_err result }
        ensures failed_again { IsTrue self.old.failed → IsErr result }
    {
        if self.failed {
            return Err(Failed);
        }
        if self.ended {
            return Ok(None);
        }
        match self.device.read(&mut self.buffer) {
            Err(_) => {
                self.failed = true;
                Err(Failed)
            }
            Ok(0) => {
                self.ended = true;
                Ok(None)
            }
            Ok(n) => {
                let byte = self.buffer[0];
                self.from = 1;
                self.to = n;
                Ok(Some(byte))
            }
        }
    }
}

impl<R: Read> ByteIn for Reader512<R> {
    ghost use Rattle.std.specs.Prelude.{drop, take, if◌then◌else◌};
    ghost use Rattle.std.specs.Io.KnownBytes.{prepend_known};
    ghost use Rattle.bk_base.specs.DeviceLaws.{Begins-prepend_known};
    ghost use Rattle.bk_base.specs.BufferLaws.{faults-le_one, nothing_after_end, nothing_held_at_failure};

    ghost left = { λ s. prepend_known (drop s.from (take s.to s.buffer)) (R.remaining s.device) };

    ghost held = { λ s. drop s.from (take s.to s.buffer) };

    ghost ended = { λ s. s.ended };

    ghost faults = { λ s. if s.failed then 1 else 0 };

    #[inline]
    fn next(&mut self) -> Result<Option<u8>, Failed> {
        if self.from < self.to {
            let byte = self.buffer[self.from];
            self.from += 1;
            return Ok(Some(byte));
        }
        self.next_read()
    }

    #[inline]
    fn ready(&self) -> bool {
        if self.from < self.to {
            return true;
        }
        self.ended || self.failed
    }

    #[inline]
    fn failures(&self) -> u32 {
        if self.failed { 1 } else { 0 }
    }

    #[inline]
    fn buffer(&self) -> &[u8] {
        &self.buffer[self.from..self.to]
    }

    #[inline]
    fn consume(&mut self, count: usize) {
        self.from += count;
    }

    ghost one_failure = { λ s. faults-le_one s.failed };

    ghost held_left = { λ s all is. Begins-prepend_known _ _ all is };

    ghost nothing_after = { λ s reported. nothing_after_end s.ended s.failed s.from s.to s.buffer _ s.drained s.at_end reported };

    ghost failed_empty = { λ s is. nothing_held_at_failure s.ended s.failed s.from s.to s.buffer s.drained s.one_end is };
}
