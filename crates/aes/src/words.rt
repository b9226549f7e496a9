// The state, or a round key, as four words, each a column: FIPS 197, section 3.5.
ghost use Rattle.std.specs.Prelude.{◌≡◌};
ghost use Rattle.aes.specs.Cipher.{add_round_key, sub_bytes, shift_rows, mix_columns};
ghost use Rattle.aes.specs.Words.{bytes};

use crate::columns::{mix, sub_bytes};
use std::ops::BitXor;

#[derive(Clone, Copy)]
pub(crate) struct Words {
    pub a: u32,
    pub b: u32,
    pub c: u32,
    pub d: u32,
}

impl From<[u8; 16]> for Words {
    ghost from_gives = { λ s w. bytes w ≡ s };

    fn from(s: [u8; 16]) -> Words {
        Words {
            a: u32::from_le_bytes([s[0], s[1], s[2], s[3]]),
            b: u32::from_le_bytes([s[4], s[5], s[6], s[7]]),
            c: u32::from_le_bytes([s[8], s[9], s[10], s[11]]),
            d: u32::from_le_bytes([s[12], s[13], s[14], s[15]]),
        }
    }
}

impl From<Words> for [u8; 16] {
    ghost from_gives = { λ w s. s ≡ bytes w };

    fn from(w: Words) -> [u8; 16] {
        let mut s = [0; 16];
        s[..4].copy_from_slice(&w.a.to_le_bytes());
        s[4..8].copy_from_slice(&w.b.to_le_bytes());
        s[8..12].copy_from_slice(&w.c.to_le_bytes());
        s[12..].copy_from_slice(&w.d.to_le_bytes());
        s
    }
}

// ADDROUNDKEY
impl BitXor for Words {
    type Output = Words;

    ghost bitxor_gives = { λ s k r. bytes r ≡ add_round_key (bytes s) (bytes k) };

    fn bitxor(self, k: Words) -> Words {
        Words {
            a: self.a ^ k.a,
            b: self.b ^ k.b,
            c: self.c ^ k.c,
            d: self.d ^ k.d,
        }
    }
}

impl Words {
    // SHIFTROWS after SUBBYTES: byte i of a column comes from the column i places on.
    pub(crate) fn sub_shift(self) -> Words
        ensures { bytes result ≡ shift_rows (sub_bytes (bytes self)) }
    {
        let Words { a, b, c, d } = self;
        Words {
            a: sub_bytes(a, b, c, d),
            b: sub_bytes(b, c, d, a),
            c: sub_bytes(c, d, a, b),
            d: sub_bytes(d, a, b, c),
        }
    }

    // MIXCOLUMNS
    pub(crate) fn mix_columns(self) -> Words
        ensures { bytes result ≡ mix_columns (bytes self) }
    {
        Words {
            a: mix(self.a),
            b: mix(self.b),
            c: mix(self.c),
            d: mix(self.d),
        }
    }
}
