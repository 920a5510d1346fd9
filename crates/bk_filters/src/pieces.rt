//! Text in pieces, which takes no memory.
ghost use Rattle.std.specs.Prelude.{◌≡◌, OnOk, OnErr};
ghost use Rattle.std.specs.Io.KnownBytes.{Appends};
ghost use Rattle.bk_base.specs.Devices.{Begins, AppendsPart};
ghost use Rattle.bk_filters.specs.Pieces.{joined};

use bk_base::{ByteOut, Failed, put_all};

/// Puts these pieces, one after another.
pub fn put_pieces<O: ByteOut>(out: &mut O, pieces: &[&[u8]]) -> Result<(), Failed>
    ensures takes { OnOk result (Appends (O.taken out.old) (O.taken out.new) (joined pieces.now)) }
    ensures part { OnErr result (AppendsPart (O.taken out.old) (O.taken out.new) (joined pieces.now)) }
    ensures passes { Begins (O.passed out.old) (O.passed out.new) }
    ensures same_failures { OnOk result (O.faults out.new ≡ O.faults out.old) }
    ensures failed { OnErr result (O.faults out.new ≡ 1) }
{
    for piece in pieces {
        put_all(out, piece)?;
    }
    Ok(())
}
