// Blocks out of bytes, and GHASH's steps over the blocks of a byte string: SP 800-38D, section 6.4.
ghost use Rattle.std.specs.Prelude.{◌≡◌};
ghost use Rattle.ghash.specs.Bytes.{num_at};
ghost use Rattle.ghash.specs.Ghash.{padded, ghash_from, len_bits};

use crate::field::mul;

// The first sixteen bytes as a block. Where s ends before, it is padded with 0s.
pub(crate) fn block(s: &[u8]) -> u128
    ensures { result ≡ num_at s.now 0 16 }
{
    u128::from_be_bytes(octets::bytes_at(s, 0))
}

// GHASH's steps from y on, over the blocks of s.
pub(crate) fn absorb(h: u128, mut y: u128, s: &[u8]) -> u128
    ensures { result ≡ ghash_from h y (padded s.now) }
{
    for part in s.chunks(16) {
        y = mul::<4>(y ^ block(part), h);
    }
    y
}

// GHASH's steps from 0 on, over the blocks of s. One to four bytes, as a command's additional data, make one block with only its
// first 32 bits set.
pub(crate) fn start(h: u128, s: &[u8]) -> u128
    ensures { result ≡ ghash_from h 0 (padded s.now) }
{
    if 0 < s.len() && s.len() < 5 {
        return mul::<1>(block(s), h);
    }
    absorb(h, 0, s)
}

// The length of s in bits. `as` loses nothing, which the check proves, and std has no `From<usize>` for `u64`.
pub(crate) fn len_bits(s: &[u8]) -> u64
    ensures { result ≡ len_bits s.now }
{
    (s.len() % 0x2000_0000_0000_0000) as u64 * 8
}
