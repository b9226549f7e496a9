// The rounds of CIPHER: FIPS 197, section 5.1.
ghost use Rattle.std.specs.Prelude.{◌≡◌};
ghost use Rattle.aes.specs.Prepared.{under};
ghost use Rattle.aes.specs.Words.{bytes};

use crate::keys::round_key;
use crate::words::Words;

// CIPHER with the round keys of p.
pub(crate) fn rounds(p: &[u8; 176], block: Words) -> Words
    ensures { bytes result ≡ under p.now (bytes block) }
{
    let mut s = block ^ round_key(p, 0);
    for i in 1..10 {
        s = s.sub_shift().mix_columns() ^ round_key(p, i);
    }
    s.sub_shift() ^ round_key(p, 10)
}
