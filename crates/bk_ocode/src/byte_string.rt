//! The bytes of a name or a string.
ghost use Rattle.std.specs.Prelude.{◌≡◌, ◌≤◌, length};

use bk_base::limit::NAME_BYTES;
use std::marker::Model;

/// At most `limit::NAME_BYTES` bytes, which contracts see as their list.
#[derive(Debug, Drop)]
pub struct ByteString {
    bytes: Vec<u8>,
}

impl Model for ByteString {
    ghost use Rattle.std.specs.Prelude.{ℕ, List, ◌≤◌, length};
    ghost use Rattle.bk_base.specs.declared.limit.TheConstants.{NAME_BYTES};

    ghost Value = { List ℕ };

    ghost view = { λ string. string.bytes.items };

    ghost invariant = { λ string. length string.bytes.items ≤ NAME_BYTES };
}

impl ByteString {
    /// These bytes, at most `limit::NAME_BYTES`. It takes no memory.
    pub fn new(bytes: Vec<u8>) -> ByteString
        requires { length bytes.items ≤ NAME_BYTES }
        ensures { result ≡ bytes.items }
    {
        ByteString { bytes }
    }

    /// The bytes.
    pub fn as_bytes(&self) -> &[u8]
        ensures value { result.now ≡ self.now }
        ensures short { length result.now ≤ NAME_BYTES }
    {
        self.bytes.as_slice()
    }
}
