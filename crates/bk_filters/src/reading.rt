//! Reading a source, a section at a time, by the bytes that its device holds.
ghost use Rattle.std.specs.Prelude.{ℕ, List, ◌≡◌, ◌<◌, ◌≤◌, ◌⊎◌, Ok, OnOk, OnErr, IfOk, IfErr, if◌then◌else◌};
ghost use Rattle.bk_base.specs.declared.limit.TheConstants.{INPUT_BYTES};
ghost use Rattle.bk_lex.specs.Cutting.{Means};
ghost use Rattle.bk_lex.specs.Found.{cut_after};
ghost use Rattle.bk_lex.specs.declared.cutter.Cut.TheVariants.{More, End};
ghost use Rattle.bk_filters.specs.Interpreting.{is_read, is_read_fault};
ghost use Rattle.bk_filters.specs.ReadingSource.{IsUndecided, Settles, IsDelivered, TakesHeld};

use crate::kit_fault::KitFault;
use bk_base::limit::{INPUT_BYTES, SECTION_BYTES};
use bk_base::{ByteIn, Line};
use bk_lex::{Cut, Lexer};
use std::alloc::{AllocError, Global};

/// Memory was refused for a section. A byte of it is asked for all the same, so that a source that failed is reported.
#[cold]
#[inline(never)]
fn no_memory<C: ByteIn>(source: &mut C, taken: &mut u64) -> KitFault
    ensures fault { (text : List ℕ) × IsDelivered text (C.left source.old) (C.left source.new) taken.old taken.new
        × ((result ≡ KitFault.Memory) ⊎ ((result ≡ KitFault.Read) × IsUndecided text)) }
    ensures within { taken.new ≤ INPUT_BYTES }
    ensures failures { (taken.old < INPUT_BYTES) ⊎ (C.faults source.old ≡ 0) → C.faults source.new ≡ (if is_read_fault result then 1 else 0) }
{
    if *taken == INPUT_BYTES {
        return KitFault::Memory;
    }
    match source.next() {
        Ok(Some(_)) => {
            *taken += 1;
            KitFault::Memory
        }
        Ok(None) => KitFault::Memory,
        Err(_) => KitFault::Read,
    }
}

/// Takes bytes that the source holds, for which no device is asked.
#[inline]
fn take_held<C: ByteIn>(
    source: &mut C,
    lexer: &mut Lexer,
    taken: &mut u64,
) -> Result<Cut, AllocError>
    requires { cut_after lexer.old.bytes ≡ More }
    ensures takes { OnOk result (TakesHeld (C.left source.old) (C.left source.new) lexer.old lexer.new taken.old taken.new) }
    ensures says { IfOk result (λ cut. cut ≡ cut_after lexer.new.bytes) }
    ensures means { IfOk result (λ cut. Means cut lexer.new.bytes) }
    ensures within { taken.new ≤ INPUT_BYTES }
    ensures going { result ≡ Ok More → (C.faults source.new ≡ C.faults source.old) }
    ensures some { OnOk result (taken.old < taken.new → C.faults source.new ≡ 0) }
    ensures ended { result ≡ Ok End → C.faults source.new ≡ 0 }
    ensures refused { OnErr result ((C.left source.new ≡ C.left source.old) × (taken.new ≡ taken.old) × (C.faults source.new ≡ 0)) }
{
    let left = INPUT_BYTES - *taken;
    let held = source.buffer();
    if held.is_empty() {
        return Ok(Cut::More);
    }
    let most = if (held.len() as u64) < left {
        held.len()
    } else {
        left as usize
    };
    let front = lexer.take_front(&held[..most])?;
    source.consume(front.count);
    *taken += front.count as u64;
    Ok(front.cut)
}

/// Reads the next section of a source, its `.` included, up to where a fault of it is certain, or to the end; its first line has the
/// number `from`. `taken` counts the bytes that were read of the source, of which one call reads `limit::INPUT_BYTES` at most.
pub fn read_source_section<C: ByteIn>(
    alloc: Global,
    source: &mut C,
    taken: &mut u64,
    from: Line,
) -> Result<Lexer, KitFault>
    ensures read { IfOk result (λ lexer. IsDelivered lexer.bytes (C.left source.old) (C.left source.new) taken.old taken.new
        × (taken.new < INPUT_BYTES → Settles lexer.bytes (C.ended source.new))) }
    ensures line { IfOk result (λ lexer. lexer.from ≡ from) }
    ensures fault { IfErr result (λ fault. (text : List ℕ) × IsDelivered text (C.left source.old) (C.left source.new) taken.old taken.new
        × ((fault ≡ KitFault.Memory) ⊎ ((fault ≡ KitFault.Read) × IsUndecided text))) }
    ensures within { taken.new ≤ INPUT_BYTES }
    ensures failures { (taken.old < INPUT_BYTES) ⊎ (C.faults source.old ≡ 0) → C.faults source.new ≡ (if is_read result then 1 else 0) }
{
    let Ok(mut lexer) = Lexer::new(alloc, from) else {
        return Err(no_memory(source, taken));
    };
    let room = (INPUT_BYTES - *taken).min(SECTION_BYTES as u64 + 1);
    for _ in 0..room {
        match take_held(source, &mut lexer, taken) {
            Ok(Cut::More) => {}
            Ok(Cut::End) => return Ok(lexer),
            Err(_) => return Err(KitFault::Memory),
        }
        if *taken == INPUT_BYTES {
            return Ok(lexer);
        }
        let byte = match source.next() {
            Ok(Some(byte)) => byte,
            Ok(None) => return Ok(lexer),
            Err(_) => return Err(KitFault::Read),
        };
        *taken += 1;
        match lexer.step(byte) {
            Ok(Cut::More) => {}
            Ok(Cut::End) => return Ok(lexer),
            Err(_) => return Err(KitFault::Memory),
        }
    }
    Ok(lexer)
}
