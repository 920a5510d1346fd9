//! An output that keeps its bytes.
ghost use Rattle.std.specs.Prelude.{◌≡◌, [], length, take};
ghost use Rattle.bk_web.specs.Kept.{kept_of, IsFresh};

use bk_base::{ByteOut, Failed};
use std::alloc::Global;

/// An output that keeps its bytes in memory, up to a number of them. It fails at one more, and where memory is refused.
#[derive(Drop)]
pub struct Kept {
    bytes: Vec<u8>,
    room: usize,
    failed: bool,
}

impl Kept {
    /// An output that took nothing, with room for so many bytes.
    pub fn new(alloc: Global, room: usize) -> Kept
        ensures { IsFresh result }
    {
        Kept {
            bytes: Vec::new(alloc),
            room,
            failed: false,
        }
    }

    /// The bytes that it took.
    pub fn bytes(&self) -> &[u8]
        ensures { result.now ≡ kept_of self.now }
    {
        self.bytes.as_slice()
    }
}

impl ByteOut for Kept {
    ghost use Rattle.std.specs.Prelude.{Some, if◌then◌else◌};
    ghost use Rattle.bk_base.specs.DeviceLaws.{Begins-refl};
    ghost use Rattle.bk_base.specs.BufferLaws.{faults-le_one};

    ghost taken = { λ s. Some s.bytes.items };

    ghost passed = { λ s. Some s.bytes.items };

    ghost faults = { λ s. if s.failed then 1 else 0 };

    fn put(&mut self, byte: u8) -> Result<(), Failed> {
        if self.failed {
            return Err(Failed);
        }
        if self.bytes.len() >= self.room || self.bytes.push(byte).is_err() {
            self.failed = true;
            return Err(Failed);
        }
        Ok(())
    }

    fn flush(&mut self) -> Result<(), Failed> {
        if self.failed {
            return Err(Failed);
        }
        Ok(())
    }

    fn failures(&self) -> u32 {
        if self.failed { 1 } else { 0 }
    }

    ghost one_failure = { λ s. faults-le_one s.failed };

    ghost passed_first = { λ s. Begins-refl (Some s.bytes.items) };
}

/// Copies the front of these bytes, as many as fit, and answers how many bytes they are.
pub fn copy_front(from: &[u8], to: &mut [u8]) -> usize
    ensures count { result ≡ length from.now }
    ensures len { length to.new ≡ length to.old }
    ensures front { take (length from.now) to.new ≡ take (length to.new) from.now }
{
    let count = from.len().min(to.len());
    to[..count].copy_from_slice(&from[..count]);
    from.len()
}
