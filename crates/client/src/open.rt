// Opening a reply.
ghost use Rattle.std.specs.Prelude.{◌≡◌, ◌-◌, ◌≤◌, [], length, drop};
ghost use Rattle.octets.specs.Room.{placed, filled};
ghost use Rattle.refusal.specs.Numbers.{number_of};
ghost use Rattle.aes.specs.Prepared.{under};
ghost use Rattle.packet.specs.Sealed.{right_tag};
ghost use Rattle.client.specs.OpenReply.{vector_of, tag_in, encrypted, reply_text, reply_outer, reply_inner, opened_in, opened, open_room};

use octets::Little;
use refusal::{Refusal, Refused};

// What an opened reply is answered: how many blocks were counted, and the payload's length.
#[derive(Clone, Copy, Debug, PartialEq, Eq)]
pub struct Payload {
    pub blocks: usize,
    pub length: usize,
}

// What is judged before the tag: 28, 1, 2, 5, 7.
#[tactic(auto, using(octets::proofs::CheckLaws::tests), unfolding(crate::specs::OpenReply::reply_outer))]
fn judge(key: &[u8], expected: u16, reply: &[u8], room: usize) -> Result<(), Refusal>
    ensures { number_of result ≡ reply_outer key.now expected reply.now room }
{
    if key.len() != 16 {
        return Err(Refusal::LengthWrong);
    }
    let n = reply.len();
    if n < 32 {
        return Err(Refusal::Below);
    }
    if 16416 < n {
        return Err(Refusal::Above);
    }
    if !octets::equal(octets::part(reply, 0, 12), &fields::reply_vector(expected)) {
        return Err(Refusal::Vector);
    }
    if room < n - 32 {
        return Err(Refusal::RoomShort);
    }
    Ok(())
}

// What the first sixteen bytes of the text say, of a reply with m bytes of payload: 11, 12.
#[tactic(auto, using(octets::proofs::CheckLaws::tests), unfolding(crate::specs::OpenReply::reply_inner))]
fn judge_fields(expected: u16, m: usize, text: [u8; 16]) -> Result<(), Refusal>
    ensures { number_of result ≡ reply_inner expected m text }
{
    if usize::from(u16::at(&text, 2)) != m {
        return Err(Refusal::LengthField);
    }
    if u16::at(&text, 0) != expected {
        return Err(Refusal::NotFresh);
    }
    Ok(())
}

// A reply past the outer checks, and its key, prepared.
#[derive(Clone, Copy)]
struct Sealed<'a> {
    p: &'a aes::Prepared,
    reply: &'a [u8],
    ghost long: { 32 ≤ length reply.now },
}

impl Sealed<'_> {
    // Whether the reply's tag is right under its key.
    fn tag_right(&self) -> bool
        ensures { let r = self.now.reply.now in result ≡ right_tag (under self.now.p.now) [] (vector_of r) (tag_in r) (encrypted r) }
    {
        packet::authentic(
            self.p,
            &[],
            fields::vector_at(self.reply, 0),
            octets::bytes_at(self.reply, 12),
            &self.reply[28..],
        )
    }

    // The first sixteen bytes of the text, with zeros past its end.
    fn head(&self) -> [u8; 16]
        ensures { result ≡ filled 16 (reply_text (under self.now.p.now) self.now.reply.now).bytes 0 }
    {
        let mut text = [0; 16];
        let iv = fields::vector_at(self.reply, 0);
        packet::decipher(self.p, iv, 2, octets::part(self.reply, 28, 16), &mut text);
        text
    }

    // The payload at the start of the room: up to twelve bytes of it stand in `text`, the first sixteen bytes deciphered, and the others are
    // deciphered in place.
    fn put_payload(&self, text: [u8; 16], room: &mut [u8])
        requires { (length self.now.reply.now - 32 ≤ length room.old)
            × (text ≡ filled 16 (reply_text (under self.now.p.now) self.now.reply.now).bytes 0) }
        ensures { room.new ≡ placed room.old 0 (drop 4 (reply_text (under self.now.p.now) self.now.reply.now).bytes) }
    {
        let m = self.reply.len() - 32;
        octets::put(room, 0, octets::part(&text, 4, m));
        if 12 < m {
            let iv = fields::vector_at(self.reply, 0);
            packet::decipher(self.p, iv, 3, &self.reply[44..], &mut room[12..]);
        }
    }
}

// Opens the reply for the expected number: its payload at the start of the room.
#[tactic(auto, using(crate::proofs::OpenLaws::passed), unfolding(ghash::specs::Ghash::blocks_in))]
pub fn open_reply(
    key: &[u8],
    expected: u16,
    reply: &[u8],
    room: &mut [u8],
) -> Result<Payload, Refused>
    ensures { (opened_in result ≡ opened key.now expected reply.now room.old)
        × (room.new ≡ open_room key.now expected reply.now room.old) }
{
    judge(key, expected, reply, room.len())?;
    let p = aes::prepare(octets::bytes_at(key, 0));
    let sealed = Sealed { p: &p, reply };
    if !sealed.tag_right() {
        return Err(Refused {
            why: Refusal::TagWrong,
            blocks: 2,
        });
    }
    let text = sealed.head();
    let blocks = gcm::blocks_in(reply.len() - 28) + 2;
    let length = reply.len() - 32;
    judge_fields(expected, length, text).map_err(|why| Refused { why, blocks })?;
    sealed.put_payload(text, room);
    Ok(Payload { blocks, length })
}
