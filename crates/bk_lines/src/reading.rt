//! Reading on to the end of a line.
ghost use Rattle.std.specs.Prelude.{◌≡◌, ◌++◌, ◌≤◌, ℕ, List, OnOk, length};
ghost use Rattle.bk_lines.specs.Places.{LineEnd};

use bk_base::ByteIn;
use std::alloc::AllocError;

/// Reads on to the end of a line, and adds its bytes, the line feed too: so many at most, and none after the source ended or failed.
pub fn read_line_end<C: ByteIn>(
    source: &mut C,
    most: usize,
    line: &mut Vec<u8>,
) -> Result<(), AllocError>
    ensures { (more : List ℕ) × LineEnd (C.left source.old) (C.left source.new) more × (length more ≤ most)
        × OnOk result (line.new.items ≡ line.old.items ++ more) }
{
    for i in 0..most {
        let Ok(Some(byte)) = source.next() else {
            return Ok(());
        };
        line.push(byte)?;
        if byte == b'\n' {
            return Ok(());
        }
    }
    Ok(())
}
