//! Output that a terminal may show.
ghost use Rattle.std.specs.Prelude.{◌≡◌, OnOk, OnErr};
ghost use Rattle.std.specs.Io.KnownBytes.{Keeps};
ghost use Rattle.bk_base.specs.Devices.{Begins};

use bk_base::{ByteOut, Failed};
use std::cell::Cell;

/// An output. Where a terminal shows it, it passes on what it holds before it takes a line feed, so that a line is seen as
/// soon as it is complete.
#[derive(Drop)]
pub struct ByLines<'a, O> {
    out: O,
    is_shown: bool,
    /// Whether the byte that was taken last ends no line.
    is_open: bool,
    /// Whether the terminal shows the output, and what was passed on ends within a line.
    is_within_line: &'a Cell<bool>,
}

impl<'a, O: ByteOut> ByLines<'a, O> {
    /// The output `out`, which a terminal shows or not.
    pub fn new(out: O, is_shown: bool, is_within_line: &'a Cell<bool>) -> ByLines<'a, O>
        ensures taken { ⟦<ByLines<'a, O> as ByteOut>⟧.taken result ≡ O.taken out }
        ensures passed { ⟦<ByLines<'a, O> as ByteOut>⟧.passed result ≡ O.passed out }
        ensures faults { ⟦<ByLines<'a, O> as ByteOut>⟧.faults result ≡ O.faults out }
    {
        ByLines {
            out,
            is_shown,
            is_open: false,
            is_within_line,
        }
    }

    /// The terminal is to show this byte: before the end of a line what is held is passed on. It is a function of its own, so that no
    /// time goes to it where no terminal shows the output.
    #[cold]
    #[inline(never)]
    fn show(&mut self, byte: u8) -> Result<(), Failed>
        ensures keeps { Keeps (O.taken self.old.out) (O.taken self.new.out) }
        ensures passes { Begins (O.passed self.old.out) (O.passed self.new.out) }
        ensures failed { OnErr result (O.faults self.new.out ≡ 1) }
        ensures failed_again { O.faults self.old.out ≡ 1 → (O.faults self.new.out ≡ 1) × Keeps (O.passed self.old.out) (O.passed self.new.out) }
    {
        self.is_open = byte != b'\n';
        if self.is_open {
            return Ok(());
        }
        self.out.flush()
    }

    /// The same where a terminal shows the output.
    #[inline(always)]
    fn before(&mut self, byte: u8) -> Result<(), Failed>
        ensures keeps { Keeps (O.taken self.old.out) (O.taken self.new.out) }
        ensures passes { Begins (O.passed self.old.out) (O.passed self.new.out) }
        ensures failed { OnErr result (O.faults self.new.out ≡ 1) }
        ensures failed_again { O.faults self.old.out ≡ 1 → (O.faults self.new.out ≡ 1) × Keeps (O.passed self.old.out) (O.passed self.new.out) }
    {
        if self.is_shown {
            return self.show(byte);
        }
        Ok(())
    }
}

impl<O: ByteOut> ByteOut for ByLines<'_, O> {
    ghost taken = { λ s. O.taken s.out };

    ghost passed = { λ s. O.passed s.out };

    ghost faults = { λ s. O.faults s.out };

    #[inline(always)]
    fn put(&mut self, byte: u8) -> Result<(), Failed> {
        self.before(byte)?;
        self.out.put(byte)
    }

    fn flush(&mut self) -> Result<(), Failed> {
        if self.is_shown {
            self.is_within_line.set(self.is_open);
        }
        self.out.flush()
    }

    #[inline]
    fn failures(&self) -> u32 {
        self.out.failures()
    }

    ghost one_failure = { λ s. O.one_failure s.out };

    ghost passed_first = { λ s. O.passed_first s.out };
}
