// A column, four bytes as a word with byte 0 lowest, so that its bytes are worked on at once: FIPS 197, section 3.5.
ghost use Rattle.std.specs.Prelude.{◌≡◌, [], ◌∷◌};
ghost use Rattle.aes.specs.Field.{xtimes};
ghost use Rattle.aes.specs.Sbox.{sbox};
ghost use Rattle.aes.specs.Words.{bytes_of, b0, b1, b2, b3, column_mixed};

use crate::sbox::sbox;

// Each byte times x.
pub(crate) fn times_x(w: u32) -> u32
    ensures { bytes_of result ≡ xtimes (b0 w) ∷ xtimes (b1 w) ∷ xtimes (b2 w) ∷ xtimes (b3 w) ∷ [] }
{
    ((w & 0x7f7f7f7f) * 2) ^ ((w & 0x80808080) / 128 * 0x1b)
}

// MIXCOLUMNS of one column. {03} • b is b ⊕ {02} • b, so that one turn serves the terms of the next byte and of the last.
pub(crate) fn mix(w: u32) -> u32
    ensures { bytes_of result ≡ column_mixed (b0 w) (b1 w) (b2 w) (b3 w) }
{
    let y = times_x(w) ^ w.rotate_right(16);
    y ^ (w ^ y).rotate_right(8)
}

// Byte 0 of a, byte 1 of b, byte 2 of c and byte 3 of d, each through the S-box.
pub(crate) fn sub_bytes(a: u32, b: u32, c: u32, d: u32) -> u32
    ensures { bytes_of result ≡ sbox (b0 a) ∷ sbox (b1 b) ∷ sbox (b2 c) ∷ sbox (b3 d) ∷ [] }
{
    u32::from_le_bytes([
        sbox(a.to_le_bytes()[0]),
        sbox(b.to_le_bytes()[1]),
        sbox(c.to_le_bytes()[2]),
        sbox(d.to_le_bytes()[3]),
    ])
}
