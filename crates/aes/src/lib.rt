// AES-128 encryption of one block, FIPS 197: the plain engine, for the smallest box.
//
// The state's four columns are held as four words, byte 0 of a column lowest, so that MixColumns works on the four bytes of a
// column at once. There is no table but the S-box. `prepare` does a key's part of the work once for many blocks. Its contract
// names `prepared`, whose bytes no caller looks into: callers use the law `under-prepared` (proofs/PreparedLaws), that under the
// prepared key a block is enciphered as `cipher` says.

#![tactic(auto)]

mod columns;
mod keys;
mod round;
mod sbox;
mod words;

ghost use Rattle.std.specs.Prelude.{◌≡◌};
ghost use Rattle.aes.specs.Cipher.{cipher};
ghost use Rattle.aes.specs.Prepared.{prepared, under};

use crate::words::Words;

// What encrypting under one key needs of that key.
pub type Prepared = [u8; 176];

// Prepares a key for many blocks.
pub fn prepare(key: [u8; 16]) -> Prepared
    ensures { result ≡ prepared key }
{
    keys::expand(Words::from(key))
}

// The encryption of a block under a prepared key.
pub fn encrypt_prepared(p: &Prepared, block: [u8; 16]) -> [u8; 16]
    ensures { result ≡ under p.now block }
{
    round::rounds(p, Words::from(block)).into()
}

// The encryption of a block under a key: CIPHER (block) with the key schedule of key.
pub fn encrypt(key: [u8; 16], block: [u8; 16]) -> [u8; 16]
    ensures { result ≡ cipher key block }
{
    encrypt_prepared(&prepare(key), block)
}
