//! Names and strings as statements keep them.
ghost use Rattle.std.specs.Prelude.{◌≡◌, IfOk};
ghost use Rattle.bk_base.specs.Strings.{first_bytes as FirstBytes};

use bk_base::limit::NAME_BYTES;
use bk_ocode::ByteString;
use std::alloc::{AllocError, Global};

/// The first bytes of a name or a string, as many as a statement has.
pub fn first_bytes(alloc: Global, bytes: &[u8]) -> Result<ByteString, AllocError>
    ensures { IfOk result (λ string. string ≡ FirstBytes bytes.now) }
{
    let mut copy = Vec::new(alloc);
    copy.extend_from_slice(bytes)?;
    copy.truncate(NAME_BYTES);
    Ok(ByteString::new(copy))
}
