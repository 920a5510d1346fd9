//! Layouts of sections.
ghost use Rattle.std.specs.Prelude.{◌≡◌, IfOk, IfErr};
ghost use Rattle.bk_base.specs.Devices.{Begins};
ghost use Rattle.bk_show.specs.Viewed.{Viewed, viewed};
ghost use Rattle.bk_show.specs.declared.section.NotShown.{NotShown};
ghost use Rattle.bk_show.specs.declared.section.NotShown.TheVariants.{Device};

use crate::part::Part;
use crate::section::{NotShown, Shown, show};
use bk_base::ByteOut;
use std::alloc::Global;

/// A way to write what the phases of the compiler make of a section.
pub trait Layout<O> {
    // what it writes of a section, by the output before and after
    ghost writes: { Self → O → O → Viewed → Type 0 };
    // what is left of the output where a section was not written, and why
    ghost fails: { Self → O → O → NotShown → Type 0 };

    /// Writes a section.
    fn write(&self, alloc: Global, section: &Shown<'_>, out: &mut O) -> Result<(), NotShown>
        ensures written { IfOk result (λ done. writes self.now out.old out.new (viewed section.now)) }
        ensures failed { IfErr result (λ why. fails self.now out.old out.new why) };
}

impl<O: ByteOut> Layout<O> for Part {
    ghost writes = { λ part old new section. Begins (O.taken old) (O.taken new) × Begins (O.passed old) (O.passed new) };

    ghost fails = { λ part old new why. Begins (O.taken old) (O.taken new) × Begins (O.passed old) (O.passed new) × (why ≡ Device → O.faults new ≡ 1) };

    fn write(&self, alloc: Global, section: &Shown<'_>, out: &mut O) -> Result<(), NotShown> {
        show(alloc, section, *self, out)
    }
}
