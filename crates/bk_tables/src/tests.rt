//! The key is of all the words and bytes, in their order. The SipHash of what is added was
//! computed by the standard library of Rust, and what follows by a program in Rust that was written for this test.

use crate::KeyMaker;
use std::hash::BuildHasher;

/// What a number is hashed to, where the key is of these words and bytes.
fn hashed(words: &[u64], bytes: &[u8]) -> u64 {
    let mut key = KeyMaker::new();
    for word in words {
        key.add(*word);
    }
    key.add_bytes(bytes);
    key.hashers().hash_one(7u32)
}

#[test]
fn keys_are_of_all(rt: HostRuntime) {
    assert_eq!(rt; hashed(&[1, 2], b""), 0x5dbb_06a3_8ed2_d7d3);
    assert_eq!(rt; hashed(&[2, 1], b""), 0x8760_a5e9_64be_205b);
    assert_eq!(rt;
        hashed(&[], b"LET A = 1 // and so on"),
        0x57ea_a532_891a_8370
    );
}
