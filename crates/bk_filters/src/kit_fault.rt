//! Why a call of the kit gives no result.
ghost use Rattle.std.specs.Prelude.{◌≡◌, ◌++◌, OnOk, OnErr, codes};
ghost use Rattle.std.specs.Io.KnownBytes.{Appends};
ghost use Rattle.bk_base.specs.Devices.{Begins, AppendsPart};
ghost use Rattle.bk_filters.specs.FaultLine.{fault_text, line_of};

use crate::pieces::put_pieces;
use bk_base::{ByteOut, Failed, IntcodeFault, OcodeFault, Refused, SourceFault};
use bk_machine::LoadFault;
use itoa::Buffer;
use std::alloc::AllocError;
use thiserror::Error;

/// Why a call of the kit gives no result.
#[derive(Debug, Drop, PartialEq, Eq, Error)]
pub enum KitFault {
    /// The source is refused.
    #[error("{0}")]
    Source(SourceFault),
    /// A section of OCODE, counted from 1, is refused.
    #[error("section {0}, {1}")]
    Ocode(u32, OcodeFault),
    /// A segment of INTCODE, counted from 1, is refused.
    #[error("segment {0}, {1}")]
    Intcode(u32, IntcodeFault),
    /// Less than 16 words of the store would be left for the stack.
    #[error("store too small")]
    TooSmall,
    /// No segment sets global 1.
    #[error("no START")]
    NoStart,
    /// The read of source or code failed.
    #[error("read fault")]
    Read,
    /// The write of a result failed.
    #[error("write fault")]
    Write,
    /// A growth was refused.
    #[error("no memory")]
    Memory,
}

impl From<AllocError> for KitFault {
    ghost use Rattle.std.specs.Prelude.{◌≡◌};
    ghost use Rattle.bk_filters.specs.declared.kit_fault.KitFault.TheVariants.{Memory};

    ghost from_gives = { λ _ fault. fault ≡ Memory };

    fn from(_error: AllocError) -> KitFault {
        KitFault::Memory
    }
}

impl From<Refused<SourceFault>> for KitFault {
    ghost use Rattle.std.specs.Prelude.{◌≡◌};
    ghost use Rattle.bk_filters.specs.CompilingSection.{source_refused};

    ghost from_gives = { λ refused fault. fault ≡ source_refused refused };

    fn from(refused: Refused<SourceFault>) -> KitFault {
        match refused {
            Refused::Fault(fault) => KitFault::Source(fault),
            Refused::Memory => KitFault::Memory,
            Refused::Device => KitFault::Read,
        }
    }
}

impl From<LoadFault> for KitFault {
    ghost use Rattle.std.specs.Prelude.{◌≡◌};
    ghost use Rattle.bk_filters.specs.Loading.{load_refused};

    ghost from_gives = { λ loading fault. fault ≡ load_refused loading };

    fn from(fault: LoadFault) -> KitFault {
        match fault {
            LoadFault::TooSmall => KitFault::TooSmall,
            LoadFault::NoStart => KitFault::NoStart,
            LoadFault::Memory => KitFault::Memory,
        }
    }
}

impl KitFault {
    /// Writes its line, which ends with byte 10. It takes no memory.
    pub fn put_line<O: ByteOut>(&self, out: &mut O) -> Result<(), Failed>
        ensures takes { OnOk result (Appends (O.taken out.old) (O.taken out.new) (line_of (fault_text self.now))) }
        ensures part { OnErr result (AppendsPart (O.taken out.old) (O.taken out.new) (line_of (fault_text self.now))) }
        ensures passes { Begins (O.passed out.old) (O.passed out.new) }
        ensures same_failures { OnOk result (O.faults out.new ≡ O.faults out.old) }
        ensures failed { OnErr result (O.faults out.new ≡ 1) }
    {
        match self {
            KitFault::Source(fault) => put_source(fault, out),
            KitFault::Ocode(section, fault) => put_ocode(*section, *fault, out),
            KitFault::Intcode(segment, fault) => put_intcode(*segment, *fault, out),
            KitFault::TooSmall => put_text("store too small", out),
            KitFault::NoStart => put_text("no START", out),
            KitFault::Read => put_text("read fault", out),
            KitFault::Write => put_text("write fault", out),
            KitFault::Memory => put_text("no memory", out),
        }
    }
}

/// Writes a line.
pub fn put_text<O: ByteOut>(text: &str, out: &mut O) -> Result<(), Failed>
    ensures takes { OnOk result (Appends (O.taken out.old) (O.taken out.new) (line_of text.now)) }
    ensures part { OnErr result (AppendsPart (O.taken out.old) (O.taken out.new) (line_of text.now)) }
    ensures passes { Begins (O.passed out.old) (O.passed out.new) }
    ensures same_failures { OnOk result (O.faults out.new ≡ O.faults out.old) }
    ensures failed { OnErr result (O.faults out.new ≡ 1) }
{
    put_pieces(out, &[text.as_bytes(), b"\n"])
}

/// Writes the line of a fault of a source.
fn put_source<O: ByteOut>(fault: &SourceFault, out: &mut O) -> Result<(), Failed>
    ensures takes { OnOk result (Appends (O.taken out.old) (O.taken out.new) (line_of (fault_text (KitFault.Source fault.now)))) }
    ensures part { OnErr result (AppendsPart (O.taken out.old) (O.taken out.new) (line_of (fault_text (KitFault.Source fault.now)))) }
    ensures passes { Begins (O.passed out.old) (O.passed out.new) }
    ensures same_failures { OnOk result (O.faults out.new ≡ O.faults out.old) }
    ensures failed { OnErr result (O.faults out.new ≡ 1) }
{
    let mut line = Buffer::new();
    put_source_parts(
        line.format(fault.line.number()).as_bytes(),
        fault.kind.phrase().as_bytes(),
        fault.kind.name().as_bytes(),
        out,
    )
}

/// Writes a line from the number of a line of source, a phrase and a name.
fn put_source_parts<'a, O: ByteOut>(
    number: &'a [u8],
    phrase: &'a [u8],
    name: &'a [u8],
    out: &mut O,
) -> Result<(), Failed>
    ensures takes { OnOk result (Appends (O.taken out.old) (O.taken out.new) (line_of (codes "line " ++ number.now ++ codes ": " ++ phrase.now ++ name.now))) }
    ensures part { OnErr result (AppendsPart (O.taken out.old) (O.taken out.new)
        (line_of (codes "line " ++ number.now ++ codes ": " ++ phrase.now ++ name.now))) }
    ensures passes { Begins (O.passed out.old) (O.passed out.new) }
    ensures same_failures { OnOk result (O.faults out.new ≡ O.faults out.old) }
    ensures failed { OnErr result (O.faults out.new ≡ 1) }
{
    put_pieces(out, &[b"line ", number, b": ", phrase, name, b"\n"])
}

/// Writes the line of a fault of OCODE.
fn put_ocode<O: ByteOut>(section: u32, fault: OcodeFault, out: &mut O) -> Result<(), Failed>
    ensures takes { OnOk result (Appends (O.taken out.old) (O.taken out.new) (line_of (fault_text (KitFault.Ocode section fault)))) }
    ensures part { OnErr result (AppendsPart (O.taken out.old) (O.taken out.new) (line_of (fault_text (KitFault.Ocode section fault)))) }
    ensures passes { Begins (O.passed out.old) (O.passed out.new) }
    ensures same_failures { OnOk result (O.faults out.new ≡ O.faults out.old) }
    ensures failed { OnErr result (O.faults out.new ≡ 1) }
{
    let mut place = Buffer::new();
    let mut statement = Buffer::new();
    put_pieces(
        out,
        &[
            b"section ",
            place.format(section).as_bytes(),
            b", statement ",
            statement.format(fault.statement).as_bytes(),
            b": ",
            fault.kind.text().as_bytes(),
            b"\n",
        ],
    )
}

/// Writes the line of a fault of INTCODE.
fn put_intcode<O: ByteOut>(segment: u32, fault: IntcodeFault, out: &mut O) -> Result<(), Failed>
    ensures takes { OnOk result (Appends (O.taken out.old) (O.taken out.new) (line_of (fault_text (KitFault.Intcode segment fault)))) }
    ensures part { OnErr result (AppendsPart (O.taken out.old) (O.taken out.new) (line_of (fault_text (KitFault.Intcode segment fault)))) }
    ensures passes { Begins (O.passed out.old) (O.passed out.new) }
    ensures same_failures { OnOk result (O.faults out.new ≡ O.faults out.old) }
    ensures failed { OnErr result (O.faults out.new ≡ 1) }
{
    let mut place = Buffer::new();
    let mut item = Buffer::new();
    put_pieces(
        out,
        &[
            b"segment ",
            place.format(segment).as_bytes(),
            b", item ",
            item.format(fault.item).as_bytes(),
            b": ",
            fault.kind.text().as_bytes(),
            b"\n",
        ],
    )
}
