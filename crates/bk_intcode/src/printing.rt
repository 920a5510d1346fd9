//! Printing segments.
ghost use Rattle.std.specs.Prelude.{◌≡◌, ◌++◌, [], ◌∷◌, List, Ok, Err, OnOk, OnErr, IsErr, is_err, if◌then◌else◌};
ghost use Rattle.std.specs.Io.KnownBytes.{Appends, Keeps};
ghost use Rattle.bk_base.specs.Devices.{Begins, AppendsPart};
ghost use Rattle.bk_machine.specs.Segment.{IsItem};
ghost use Rattle.bk_machine.specs.SegmentItems.{items_of};
ghost use Rattle.bk_intcode.specs.ItemText.{item_text};
ghost use Rattle.bk_intcode.specs.SegmentText.{segment_text};

use crate::item_word::item_word;
use bk_base::{ByteOut, Failed, put_all};
use bk_machine::{Intcode, Item};

/// Writes the line of an item.
fn put_item<O: ByteOut>(item: Item, out: &mut O) -> Result<(), Failed>
    requires { IsItem item }
    ensures takes { OnOk result (Appends (O.taken out.old) (O.taken out.new) (item_text item ++ 10 ∷ [])) }
    ensures part { OnErr result (AppendsPart (O.taken out.old) (O.taken out.new) (item_text item ++ 10 ∷ [])) }
    ensures passes { Begins (O.passed out.old) (O.passed out.new) }
    ensures failures { O.faults out.new ≡ (if is_err result then 1 else 0) }
    ensures failed_again { O.faults out.old ≡ 1 → IsErr result × Keeps (O.taken out.old) (O.taken out.new) × Keeps (O.passed out.old) (O.passed out.new) }
{
    put_all(out, item_word(item).as_bytes())?;
    out.put(b'\n')?;
    Ok(())
}

/// Writes the text of a segment. It takes no memory. Where the device failed before, nothing is taken or passed on.
pub fn print<O: ByteOut>(segment: &Intcode, out: &mut O) -> Result<(), Failed>
    ensures takes { OnOk result (Appends (O.taken out.old) (O.taken out.new) (segment_text (items_of segment.now))) }
    ensures part { OnErr result (AppendsPart (O.taken out.old) (O.taken out.new) (segment_text (items_of segment.now))) }
    ensures passes { Begins (O.passed out.old) (O.passed out.new) }
    ensures failures { O.faults out.new ≡ (if is_err result then 1 else 0) }
    ensures failed_again { O.faults out.old ≡ 1 → IsErr result × Keeps (O.taken out.old) (O.taken out.new) × Keeps (O.passed out.old) (O.passed out.new) }
{
    for item in segment.items() {
        put_item(*item, out)?;
    }
    Ok(())
}
