// GCM of SP 800-38D over AES-128, for 96-bit vectors and 128-bit tags.
//
// `seal` and `open` take a key. Below them stands the work under a prepared key and a given subkey, for whoever keeps these:
// `seal_in_place`, `authentic` and `crypt`. Every function takes all inputs, of every length. The prepared key p and the subkey h stay
// two parameters of the public ones, whose signatures are promised.

#![tactic(auto)]

mod gctr;

ghost use Rattle.std.specs.Prelude.{◌≡◌};
ghost use Rattle.octets.specs.Room.{fits};
ghost use Rattle.octets.specs.Same.{same};
ghost use Rattle.aes.specs.Cipher.{cipher};
ghost use Rattle.aes.specs.Prepared.{prepared, under};
ghost use Rattle.gcm.specs.Gcm.{subkey, tag_of, seal_under, seal, open'};
ghost use Rattle.gcm.specs.Answers.{sealing, sealed_in, room_sealed, opening, opened_in, room_opened};

pub use gctr::{blocks_in, crypt};

// A sealed text: its tag, and how many blocks were enciphered.
#[derive(Clone, Copy, Debug, PartialEq, Eq)]
pub struct Sealed {
    pub tag: [u8; 16],
    pub blocks: usize,
}

// Why a text wasn't opened: the room is shorter than the text; or the tag is wrong, with the number of blocks enciphered.
#[derive(Clone, Copy, Debug, PartialEq, Eq)]
pub enum Unopened {
    Short,
    TagWrong { blocks: usize },
}

// The tag of additional data and ciphertext under the subkey h. One block is enciphered.
pub fn tag(p: &aes::Prepared, h: [u8; 16], iv: [u8; 12], a: &[u8], c: &[u8]) -> [u8; 16]
    ensures { result ≡ (tag_of (under p.now) h iv a.now c.now).bytes }
{
    let s = ghash::hash(h, a, c);
    let e = aes::encrypt_prepared(p, gctr::counter_block(iv, 1));
    gctr::xor16(s, e)
}

// Whether t is the tag of additional data and ciphertext, found out without an early exit.
pub fn authentic(
    p: &aes::Prepared,
    h: [u8; 16],
    iv: [u8; 12],
    a: &[u8],
    c: &[u8],
    t: [u8; 16],
) -> bool
    ensures { result ≡ same (tag_of (under p.now) h iv a.now c.now).bytes t }
{
    let e = tag(p, h, iv, a, c);
    octets::equal(&e, &t)
}

// Seals the whole room in place, under the subkey h: the ciphertext stands where the text stood; the tag is the result.
// Blocks enciphered: one for each block of text, and one for the tag.
pub fn seal_in_place(
    p: &aes::Prepared,
    h: [u8; 16],
    iv: [u8; 12],
    a: &[u8],
    room: &mut [u8],
) -> [u8; 16]
    ensures { (room.new ≡ (seal_under (under p.now) h iv a.now room.old).bytes)
        × (result ≡ (seal_under (under p.now) h iv a.now room.old).tag) }
{
    crypt(p, iv, 2, room);
    tag(p, h, iv, a, room)
}

// A key made ready: prepared for its blocks, and its subkey. One block is enciphered.
fn keyed(key: [u8; 16]) -> (aes::Prepared, [u8; 16])
    ensures { (result.0 ≡ prepared key) × (result.1 ≡ subkey (under result.0)) }
{
    let p = aes::prepare(key);
    let h = aes::encrypt_prepared(&p, [0; 16]);
    (p, h)
}

// GCM-AE: the ciphertext at the start of the room, and nothing after it; None where the room is shorter than the text.
pub fn seal(key: [u8; 16], iv: [u8; 12], a: &[u8], text: &[u8], room: &mut [u8]) -> Option<Sealed>
    ensures { (sealed_in result ≡ sealing (fits text.now room.old) (seal (cipher key) iv a.now text.now))
        × (room.new ≡ room_sealed (fits text.now room.old) (seal (cipher key) iv a.now text.now) room.old) }
{
    let n = text.len();
    if room.len() < n {
        return None;
    }
    let (p, h) = keyed(key);
    let lent = &mut room[..n];
    octets::put(lent, 0, text);
    let tag = seal_in_place(&p, h, iv, a, lent);
    Some(Sealed {
        tag,
        blocks: blocks_in(n) + 2,
    })
}

// GCM-AD: the tag is judged first; where it is right the text is written at the start of the room, and nothing after it. The
// result is the number of blocks enciphered.
pub fn open(
    key: [u8; 16],
    iv: [u8; 12],
    a: &[u8],
    text: &[u8],
    t: [u8; 16],
    room: &mut [u8],
) -> Result<usize, Unopened>
    ensures { (opened_in result ≡ opening (fits text.now room.old) (open' (cipher key) iv a.now text.now t))
        × (room.new ≡ room_opened (fits text.now room.old) (open' (cipher key) iv a.now text.now t) room.old) }
{
    let n = text.len();
    if room.len() < n {
        return Err(Unopened::Short);
    }
    let (p, h) = keyed(key);
    if !authentic(&p, h, iv, a, text, t) {
        return Err(Unopened::TagWrong { blocks: 2 });
    }
    let lent = &mut room[..n];
    octets::put(lent, 0, text);
    Ok(crypt(&p, iv, 2, lent) + 2)
}
