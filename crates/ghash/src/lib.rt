// GHASH of SP 800-38D, sections 6.3 and 6.4, as section 7.1 uses it: the plain engine, for the smallest box.
//
// There is no table. In this source no byte decides a branch or an index.

#![tactic(auto)]

mod blocks;
mod field;

ghost use Rattle.std.specs.Prelude.{◌≡◌};
ghost use Rattle.ghash.specs.Ghash.{hash_of};

use crate::blocks::{absorb, block, len_bits, start};
use crate::field::mul;

// S of section 7.1, step 5: the hash of additional data and ciphertext under the subkey h.
pub fn hash(h: [u8; 16], a: &[u8], c: &[u8]) -> [u8; 16]
    ensures { result ≡ hash_of h a.now c.now }
{
    let k = block(&h);
    let y = absorb(k, start(k, a), c);
    let lengths = u128::from(len_bits(a)) << 64 | u128::from(len_bits(c));
    mul::<4>(y ^ lengths, k).to_be_bytes()
}
