// KEYEXPANSION for AES-128: FIPS 197, section 5.2.
ghost use Rattle.std.specs.Prelude.{◌≡◌, ◌<◌};
ghost use Rattle.aes.specs.KeyExpansion.{next_key};
ghost use Rattle.aes.specs.Prepared.{prepared, key_at};
ghost use Rattle.aes.specs.Words.{bytes};

use crate::columns::{sub_bytes, times_x};
use crate::words::Words;

// The round key after k, of round constant rc.
fn next_key(k: Words, rc: u32) -> Words
    requires { rc < 256 }
    ensures { bytes result ≡ next_key rc (bytes k) }
{
    let w = k.d.rotate_right(8);
    let a = k.a ^ (sub_bytes(w, w, w, w) ^ rc);
    let b = k.b ^ a;
    let c = k.c ^ b;
    let d = k.d ^ c;
    Words { a, b, c, d }
}

// All eleven round keys of a key.
pub(crate) fn expand(key: Words) -> [u8; 176]
    ensures { result ≡ prepared (bytes key) }
{
    let mut p = [0; 176];
    let mut k = key;
    let mut rc = 1;
    // By an index: once the borrows of chunks_exact_mut are over, the check knows p's length and none of its bytes.
    for i in 0..11 {
        p[16 * i..16 * i + 16].copy_from_slice(&<[u8; 16]>::from(k));
        k = next_key(k, rc);
        rc = times_x(rc);
    }
    p
}

// Round key i of a prepared key.
pub(crate) fn round_key(p: &[u8; 176], i: usize) -> Words
    requires { i < 11 }
    ensures { bytes result ≡ key_at p.now i }
{
    let mut k = [0; 16];
    k.copy_from_slice(&p[16 * i..16 * i + 16]);
    Words::from(k)
}
