// AES-128 and GCM under C's names: the static library that the benchmark and the differential tests link. Each function is `engine`'s of the same
// name, with the same contract.

#![tactic(auto)]

ghost use Rattle.std.specs.Prelude.{◌≡◌};
ghost use Rattle.octets.specs.Room.{fits};
ghost use Rattle.aes.specs.Cipher.{cipher};
ghost use Rattle.aes.specs.Prepared.{prepared, under};
ghost use Rattle.gcm.specs.Gcm.{seal, open'};
ghost use Rattle.gcm.specs.Answers.{sealing, room_sealed, seal_number, opening, room_opened, open_number, open_blocks};
ghost use Rattle.engine.specs.Numbers.{seal_tag};

// out := CIPH_key (block)
#[unsafe(no_mangle)]
pub extern "C" fn dq_aes128_encrypt(key: &[u8; 16], block: &[u8; 16], out: &mut [u8; 16])
    ensures { out.new ≡ cipher key.now block.now }
{
    engine::dq_aes128_encrypt(key, block, out)
}

// out := the prepared key
#[unsafe(no_mangle)]
pub extern "C" fn dq_aes128_prepare(key: &[u8; 16], out: &mut aes::Prepared)
    ensures { out.new ≡ prepared key.now }
{
    engine::dq_aes128_prepare(key, out)
}

// out := the encryption of block under a prepared key
#[unsafe(no_mangle)]
pub extern "C" fn dq_aes128_encrypt_prepared(
    p: &aes::Prepared,
    block: &[u8; 16],
    out: &mut [u8; 16],
)
    ensures { out.new ≡ under p.now block.now }
{
    engine::dq_aes128_encrypt_prepared(p, block, out)
}

// Seals text into the start of room, and its tag into tag; blocks := how many blocks were enciphered.
#[unsafe(no_mangle)]
pub extern "C" fn dq_gcm_seal(
    key: &[u8; 16],
    iv: &[u8; 12],
    a: &[u8],
    text: &[u8],
    room: &mut [u8],
    tag: &mut [u8; 16],
    blocks: &mut usize,
) -> u8
    ensures { let fit = fits text.now room.old in
        let s = seal (cipher key.now) iv.now a.now text.now in
        (result ≡ seal_number fit)
        × (blocks.new ≡ (sealing fit s).blocks)
        × (tag.new ≡ seal_tag fit s tag.old)
        × (room.new ≡ room_sealed fit s room.old) }
{
    engine::dq_gcm_seal(key, iv, a, text, room, tag, blocks)
}

// Opens text into the start of room where tag is right; blocks := how many blocks were enciphered.
#[unsafe(no_mangle)]
pub extern "C" fn dq_gcm_open(
    key: &[u8; 16],
    iv: &[u8; 12],
    a: &[u8],
    text: &[u8],
    tag: &[u8; 16],
    room: &mut [u8],
    blocks: &mut usize,
) -> u8
    ensures { let fit = fits text.now room.old in
        let o = open' (cipher key.now) iv.now a.now text.now tag.now in
        (result ≡ open_number (opening fit o))
        × (blocks.new ≡ open_blocks (opening fit o))
        × (room.new ≡ room_opened fit o room.old) }
{
    engine::dq_gcm_open(key, iv, a, text, tag, room, blocks)
}
