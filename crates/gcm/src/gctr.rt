// GCTR of SP 800-38D, section 6.5, in place.
ghost use Rattle.std.specs.Prelude.{◌≡◌, ◌≤◌, length};
ghost use Rattle.aes.specs.Prepared.{under};
ghost use Rattle.ghash.specs.Ghash.{blocks_in};
ghost use Rattle.gcm.specs.Gctr.{xors, gctr};
ghost use Rattle.gcm.specs.Gcm.{counter};

// How many blocks n bytes make, the last of them perhaps in part.
#[tactic(auto, unfolding(ghash::specs::Ghash::blocks_in))]
pub fn blocks_in(n: usize) -> usize
    ensures { result ≡ blocks_in n }
{
    n.div_ceil(16)
}

// IV ‖ [n]_32
pub(crate) fn counter_block(iv: [u8; 12], n: u32) -> [u8; 16]
    ensures { result ≡ counter iv n }
{
    let mut block = [0; 16];
    block[..12].copy_from_slice(&iv);
    block[12..].copy_from_slice(&n.to_be_bytes());
    block
}

// x ⊕ MSB (ks), for x of at most a block, in place. `ks` goes by an index: after a zip of `iter_mut` the check knows x's length alone (tried).
fn mix(x: &mut [u8], ks: [u8; 16])
    requires { length x.old ≤ 16 }
    ensures { x.new ≡ xors x.old ks }
{
    for (j, b) in x.iter_mut().enumerate() {
        *b ^= ks[j];
    }
}

pub(crate) fn xor16(a: [u8; 16], b: [u8; 16]) -> [u8; 16]
    ensures { result ≡ xors a b }
{
    let mut out = a;
    mix(&mut out, b);
    out
}

// GCTR over the whole room, in place, from the counter block IV ‖ [n]_32 on. The result is the number of blocks enciphered.
// Its blocks go by an index: after `chunks_mut` the check knows the room's length alone (tried).
#[tactic(auto, unfolding(ghash::specs::Ghash::blocks_in))]
pub fn crypt(p: &aes::Prepared, iv: [u8; 12], n: u32, room: &mut [u8]) -> usize
    ensures { (room.new ≡ (gctr (under p.now) (counter iv n) room.old).bytes)
        × (result ≡ length (gctr (under p.now) (counter iv n) room.old).enciphered) }
{
    let m = blocks_in(room.len());
    let mut c = n;
    for i in 0..m {
        let ks = aes::encrypt_prepared(p, counter_block(iv, c));
        let at = 16 * i;
        let end = room.len().min(at + 16);
        mix(&mut room[at..end], ks);
        c = c.wrapping_add(1);
    }
    m
}
