// AES-128 and GCM as C calls them: `engine_c` gives these functions to the benchmark and the differential tests.
//
// Each function hands its answer out through what the caller lends. The number is document 01's: 0 for done, 7 for a room
// that is too short, 8 for a wrong tag; a refusal writes nothing but the count of blocks.

#![tactic(auto)]

ghost use Rattle.std.specs.Prelude.{◌≡◌};
ghost use Rattle.octets.specs.Room.{fits};
ghost use Rattle.aes.specs.Cipher.{cipher};
ghost use Rattle.aes.specs.Prepared.{prepared, under};
ghost use Rattle.gcm.specs.Gcm.{seal, open'};
ghost use Rattle.gcm.specs.Answers.{sealing, room_sealed, seal_number, opening, room_opened, open_number, open_blocks};
ghost use Rattle.engine.specs.Numbers.{seal_tag};

use gcm::Unopened;
use refusal::Refusal;

const DONE: u8 = 0;

// out := CIPH_key (block)
pub fn dq_aes128_encrypt(key: &[u8; 16], block: &[u8; 16], out: &mut [u8; 16])
    ensures { out.new ≡ cipher key.now block.now }
{
    *out = aes::encrypt(*key, *block);
}

// out := the prepared key
pub fn dq_aes128_prepare(key: &[u8; 16], out: &mut aes::Prepared)
    ensures { out.new ≡ prepared key.now }
{
    *out = aes::prepare(*key);
}

// out := the encryption of block under a prepared key
pub fn dq_aes128_encrypt_prepared(p: &aes::Prepared, block: &[u8; 16], out: &mut [u8; 16])
    ensures { out.new ≡ under p.now block.now }
{
    *out = aes::encrypt_prepared(p, *block);
}

// Seals text into the start of room, and its tag into tag; blocks := how many blocks were enciphered.
pub fn dq_gcm_seal(
    key: &[u8; 16],
    iv: &[u8; 12],
    a: &[u8],
    text: &[u8],
    room: &mut [u8],
    tag: &mut [u8; 16],
    blocks: &mut usize,
) -> u8
    ensures { let fit = fits text.now room.old in
        let s = seal (cipher key.now) iv.now a.now text.now in
        (result ≡ seal_number fit)
        × (blocks.new ≡ (sealing fit s).blocks)
        × (tag.new ≡ seal_tag fit s tag.old)
        × (room.new ≡ room_sealed fit s room.old) }
{
    match gcm::seal(*key, *iv, a, text, room) {
        Some(sealed) => {
            // An array that is a field isn't stored straight: the check doesn't cover that.
            let made = sealed.tag;
            *tag = made;
            *blocks = sealed.blocks;
            DONE
        }
        None => {
            *blocks = 0;
            Refusal::RoomShort.number()
        }
    }
}

// Opens text into the start of room where tag is right; blocks := how many blocks were enciphered.
pub fn dq_gcm_open(
    key: &[u8; 16],
    iv: &[u8; 12],
    a: &[u8],
    text: &[u8],
    tag: &[u8; 16],
    room: &mut [u8],
    blocks: &mut usize,
) -> u8
    ensures { let fit = fits text.now room.old in
        let o = open' (cipher key.now) iv.now a.now text.now tag.now in
        (result ≡ open_number (opening fit o))
        × (blocks.new ≡ open_blocks (opening fit o))
        × (room.new ≡ room_opened fit o room.old) }
{
    let (number, count) = match gcm::open(*key, *iv, a, text, *tag, room) {
        Ok(enciphered) => (DONE, enciphered),
        Err(Unopened::Short) => (Refusal::RoomShort.number(), 0),
        Err(Unopened::TagWrong { blocks }) => (Refusal::TagWrong.number(), blocks),
    };
    *blocks = count;
    number
}
