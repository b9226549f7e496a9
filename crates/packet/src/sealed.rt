// Packets sealed and opened under a key: additional data, vector, tag, ciphertext. These stay parameters of their own: `authentic` and `seal`
// are public, and a reply has no additional data.
ghost use Rattle.std.specs.Prelude.{◌≡◌, ◌++◌, ◌+◌, ◌≤◌, leb, length};
ghost use Rattle.std.specs.List.{flat_map};
ghost use Rattle.octets.specs.Room.{placed};
ghost use Rattle.aes.specs.Cipher.{cipher};
ghost use Rattle.aes.specs.Prepared.{under};
ghost use Rattle.gcm.specs.Gctr.{gctr};
ghost use Rattle.gcm.specs.Gcm.{counter, seal};
ghost use Rattle.packet.specs.Sealed.{right_tag, sealed_packet, sealed_blocks};

// Whether t is the tag of additional data and ciphertext, found out without an early exit.
pub fn authentic(p: &aes::Prepared, a: &[u8], iv: [u8; 12], t: [u8; 16], c: &[u8]) -> bool
    ensures { result ≡ right_tag (under p.now) a.now iv t c.now }
{
    let h = aes::encrypt_prepared(p, [0; 16]);
    gcm::authentic(p, h, iv, a, c, t)
}

// GCTR of x from the counter block IV ‖ [n]_32 on, at the start of the room; a room where it doesn't fit stays as it was.
pub fn decipher(p: &aes::Prepared, iv: [u8; 12], n: u32, x: &[u8], room: &mut [u8])
    ensures { room.new ≡ placed room.old 0 (gctr (under p.now) (counter iv n) x.now).bytes }
{
    let m = x.len();
    if room.len() < m {
        return;
    }
    octets::put(room, 0, x);
    gcm::crypt(p, iv, n, &mut room[..m]);
}

// Whether a room of n bytes holds a packet with that many bytes of additional data, of lead and of payload.
fn holds(n: usize, a: usize, lead: usize, payload: usize) -> bool
    ensures { result ≡ leb (a + 28 + (lead + payload)) n }
{
    let left = n
        .checked_sub(28)
        .and_then(|left| left.checked_sub(a))
        .and_then(|left| left.checked_sub(lead));
    left.is_some_and(|left| payload <= left)
}

// Puts the pieces one after another into the room from `at` on.
fn put_all(room: &mut [u8], mut at: usize, pieces: &[&[u8]])
    requires { at + length (flat_map (λ x. x.now) pieces.now) ≤ length room.old }
    ensures { room.new ≡ placed room.old at (flat_map (λ x. x.now) pieces.now) }
{
    for piece in pieces {
        octets::put(room, at, piece);
        at += piece.len();
    }
}

// Seals a text in place. The tag is the result. The first two lines are gcm's keyed, which is its own: a public one would be one promise more
// for two lines.
fn seal_text(key: [u8; 16], a: &[u8], iv: [u8; 12], text: &mut [u8]) -> [u8; 16]
    ensures { (text.new ≡ (seal (cipher key) iv a.now text.old).bytes)
        × (result ≡ (seal (cipher key) iv a.now text.old).tag) }
{
    let p = aes::prepare(key);
    let h = aes::encrypt_prepared(&p, [0; 16]);
    gcm::seal_in_place(&p, h, iv, a, text)
}

// Seals lead and payload as one text: additional data, vector, tag and ciphertext at the start of the room. The result is the number of
// blocks enciphered. Where the packet doesn't fit, the room stays as it was, and the result is 0. (0 and no None: both callers have judged the
// room, and would unwrap a None that can't come; the clause says sealed_blocks.)
pub fn seal(
    key: [u8; 16],
    a: &[u8],
    iv: [u8; 12],
    lead: &[u8],
    payload: &[u8],
    room: &mut [u8],
) -> usize
    ensures { (room.new ≡ placed room.old 0 (sealed_packet key a.now iv (lead.now ++ payload.now)))
        × (result ≡ sealed_blocks key a.now iv (lead.now ++ payload.now) room.old) }
{
    if !holds(room.len(), a.len(), lead.len(), payload.len()) {
        return 0;
    }
    let at = a.len() + 28;
    let n = lead.len() + payload.len();
    put_all(room, at, &[lead, payload]);
    let t = seal_text(key, a, iv, &mut room[at..at + n]);
    put_all(room, 0, &[a, &iv, &t]);
    gcm::blocks_in(n) + 2
}
