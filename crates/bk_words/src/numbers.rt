//! Numbers in words.
ghost use Rattle.std.specs.Prelude.{◌≡◌, ◌≢◌, ℕ, ℤ, pos, FitsSigned, ◌<◌, ◌≤◌, ◌^◌, IfSome, IfNone};
ghost use Rattle.std.specs.Int.{w32};
ghost use Rattle.bk_base.specs.Decimal.{spelling};

use bk_base::{read_natural, read_word};

/// The number of 32 bits that the bytes spell.
pub fn number(bytes: &[u8]) -> Option<i32>
    ensures found { IfSome result (λ z. FitsSigned w32 z × (spelling z ≡ bytes.now)) }
    ensures none { IfNone result ((z : ℤ) → FitsSigned w32 z → spelling z ≢ bytes.now) }
{
    read_word(bytes)
}

/// The number from 0 that the bytes spell.
pub fn natural(bytes: &[u8]) -> Option<u32>
    ensures found { IfSome result (λ n. (n < 2 ^ 31) × (spelling (pos n) ≡ bytes.now)) }
    ensures none { IfNone result ((n : ℕ) → n < 2 ^ 31 → spelling (pos n) ≢ bytes.now) }
{
    read_natural(bytes)
}

/// The number in these bounds that the bytes spell.
pub fn within(bytes: &[u8], least: u32, most: u32) -> Option<u32>
    requires { most < 2 ^ 31 }
    ensures found { IfSome result (λ n. (least ≤ n) × (n ≤ most) × (spelling (pos n) ≡ bytes.now)) }
    ensures none { IfNone result ((n : ℕ) → least ≤ n → n ≤ most → spelling (pos n) ≢ bytes.now) }
{
    let n = natural(bytes)?;
    if n < least {
        return None;
    }
    if n > most {
        return None;
    }
    Some(n)
}
