//! Devices of bytes, and what they report.
ghost use Rattle.std.specs.Prelude.{◌≡◌, ℕ, List, [], ◌∷◌, ◌≤◌, Bool, false, None, Some, IfOk, OnOk, OnErr, IsTrue, IsErr, is_err, is_none, Option, if◌then◌else◌, ◌≢◌, ◌⊎◌, length, take, drop};
ghost use Rattle.std.specs.Io.KnownBytes.{Consumes, Appends, Keeps};
ghost use Rattle.bk_base.specs.Devices.{byte_list, NothingLeft, Begins, AppendsPart};

use thiserror::Error;

/// A device failed, in this call or before.
#[derive(Clone, Copy, Debug, PartialEq, Eq, Error)]
#[error("device failed")]
pub struct Failed;

/// A source of bytes, read once and forwards.
///
/// Contracts see what it reports: the bytes left, where they are known, those of them that it holds, whether the end was
/// reported, and how often the device failed, which is never more than once. The bytes that a call delivered are those by
/// which the bytes left grew shorter.
pub trait ByteIn {
    // the bytes left, where they are known
    ghost left: { Self → Option (List ℕ) };
    // those of them that it holds
    ghost held: { Self → List ℕ };
    // whether the end was reported
    ghost ended: { Self → Bool };
    // how often the device failed
    ghost faults: { Self → ℕ };

    /// The next byte, or None at the end, each time. After the first failure each call fails.
    fn next(&mut self) -> Result<Option<u8>, Failed>
        ensures delivers { IfOk result (λ given. Consumes (left self.old) (left self.new) (byte_list given)) }
        // Bytes that are held come before a failure shows.
        ensures held_first { (byte : ℕ) (rest : List ℕ) → held self.old ≡ byte ∷ rest →
            (result ≡ Ok (Some byte)) × (held self.new ≡ rest) }

        ensures end { IfOk result (λ given. ended self.new ≡ is_none given) }
        ensures end_again { IsTrue (ended self.old) → result ≡ Ok None }

        ensures keeps { OnErr result (Keeps (left self.old) (left self.new)
            × (held self.new ≡ held self.old) × (ended self.new ≡ ended self.old)) }
        ensures failures { faults self.new ≡ (if is_err result then 1 else 0) }
        ensures failed_again { faults self.old ≡ 1 → IsErr result };

    /// Whether the next call of `next` asks no device: a byte is held, or the end was reported, or the device failed.
    fn ready(&self) -> bool
        ensures ready { IsTrue result → (held self.now ≢ []) ⊎ IsTrue (ended self.now) ⊎ (faults self.now ≡ 1) }
        ensures asks { result ≡ false → (held self.now ≡ []) × (ended self.now ≡ false) × (faults self.now ≡ 0) };

    /// How often the device failed: 0 or 1.
    fn failures(&self) -> u32
        ensures { result ≡ faults self.now };

    /// Bytes that come next and for which no device is asked: a beginning of those that it holds. A reader that does not have
    /// them in one piece answers none.
    #[inline]
    fn buffer(&self) -> &[u8]
        ensures { Begins (Some result.now) (Some (held self.now)) }
    {
        &[]
    }

    /// Delivers the next bytes that it holds, so many.
    #[inline]
    fn consume(&mut self, count: usize)
        requires held { count ≤ length (held self.old) }
        ensures delivers { Consumes (left self.old) (left self.new) (take count (held self.old)) }
        ensures rest { held self.new ≡ drop count (held self.old) }
        ensures same { (ended self.new ≡ ended self.old) × (faults self.new ≡ faults self.old) }
    {
        for _ in 0..count {
            let _byte = self.next();
        }
    }

    ghost one_failure: { (s : Self) → faults s ≤ 1 };
    // what is held comes first of what is left
    ghost held_left: { (s : Self) (all : List ℕ) → left s ≡ Some all → Begins (Some (held s)) (Some all) };

    ghost nothing_after: { (s : Self) → IsTrue (ended s) → NothingLeft (left s) × (held s ≡ []) };

    ghost failed_empty: { (s : Self) → faults s ≡ 1 → (held s ≡ []) × (ended s ≡ false) };
}

/// A sink of bytes.
///
/// Contracts see what it reports: the bytes taken and the bytes passed on, where they are known, and how often the device
/// failed, which is never more than once. The bytes passed on always begin those taken.
pub trait ByteOut {
    // the bytes taken, where they are known
    ghost taken: { Self → Option (List ℕ) };
    // those of them that were passed on
    ghost passed: { Self → Option (List ℕ) };
    // how often the device failed
    ghost faults: { Self → ℕ };

    /// Takes a byte. After the first failure each call fails, and passes nothing on.
    fn put(&mut self, byte: u8) -> Result<(), Failed>
        ensures takes { OnOk result (Appends (taken self.old) (taken self.new) (byte ∷ [])) }
        ensures keeps { OnErr result (Keeps (taken self.old) (taken self.new)) }
        ensures passes { Begins (passed self.old) (passed self.new) }
        ensures failures { faults self.new ≡ (if is_err result then 1 else 0) }
        ensures failed_again { faults self.old ≡ 1 → IsErr result × Keeps (passed self.old) (passed self.new) };

    /// Passes on all that was taken. After the first failure each call fails, and passes nothing on.
    fn flush(&mut self) -> Result<(), Failed>
        ensures all { OnOk result (passed self.new ≡ taken self.new) }
        ensures keeps { Keeps (taken self.old) (taken self.new) }
        ensures passes { Begins (passed self.old) (passed self.new) }
        ensures failures { faults self.new ≡ (if is_err result then 1 else 0) }
        ensures failed_again { faults self.old ≡ 1 → IsErr result × Keeps (passed self.old) (passed self.new) };

    /// How often the device failed: 0 or 1.
    fn failures(&self) -> u32
        ensures { result ≡ faults self.now };

    ghost one_failure: { (s : Self) → faults s ≤ 1 };

    ghost passed_first: { (s : Self) → Begins (passed s) (taken s) };
}

/// Puts these bytes, one after another.
pub fn put_all<O: ByteOut>(out: &mut O, bytes: &[u8]) -> Result<(), Failed>
    ensures takes { OnOk result (Appends (O.taken out.old) (O.taken out.new) bytes.now) }
    ensures part { OnErr result (AppendsPart (O.taken out.old) (O.taken out.new) bytes.now) }
    ensures passes { Begins (O.passed out.old) (O.passed out.new) }
    ensures same_failures { OnOk result (O.faults out.new ≡ O.faults out.old) }
    ensures failed { OnErr result (O.faults out.new ≡ 1) }
    ensures failed_again { O.faults out.old ≡ 1 → Keeps (O.taken out.old) (O.taken out.new) × Keeps (O.passed out.old) (O.passed out.new) }
{
    for byte in bytes {
        out.put(*byte)?;
    }
    Ok(())
}
