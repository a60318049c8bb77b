//! The Toeplitz hash, a byte of the input at a time.
ghost use Rattle.std.specs.Prelude.{◌≡◌, ◌+◌, ◌≤◌, length, drop};
ghost use Rattle.flow_hash.specs.Toeplitz.{hash_of};

use crate::Key;

/// The Toeplitz hash of receive side scaling (Microsoft's "RSS Hashing Types"): for each set bit of
/// the input, counted from the left, the 32 bits of the key that begin at that bit's place are
/// xored in. It takes no memory.
pub fn toeplitz(key: &Key, input: &[u8]) -> u32
    requires { length input.now ≤ 36 }
    ensures { result ≡ hash_of key.now input.now }
{
    hash_from(key, 0, input)
}

/// The hash of an input that begins at this byte.
#[tactic(auto, using(crate::proofs::BitLists::pieces))]
pub(crate) fn hash_from(key: &Key, at: usize, input: &[u8]) -> u32
    requires { at + length input.now ≤ 36 }
    ensures { result ≡ hash_of (drop at key.now) input.now }
{
    let mut hash = 0;
    for (place, byte) in input.iter().enumerate() {
        hash ^= key.share(at + place, *byte);
    }
    hash
}
