// The check of a command (document 01, "Command: 39, then 1 to 19"), over the view of the host that its open part names.
//
// The order is the document's, and nothing is written before the last check has passed. Of the text only the first 64 bytes are deciphered
// before that; the payload is deciphered into the lent room at the end. What a refusal by 9 to 19 counts is what document 01 sets: all the
// text's blocks.

#![tactic(auto)]

mod judge;

ghost use Rattle.std.specs.Prelude.{◌≡◌, ◌+◌, ◌-◌, ◌≤◌, length, drop};
ghost use Rattle.octets.specs.Room.{part};
ghost use Rattle.aes.specs.Prepared.{under};
ghost use Rattle.gcm.specs.Gctr.{gctr};
ghost use Rattle.gcm.specs.Gcm.{counter};
ghost use Rattle.ghash.specs.Ghash.{blocks_in};
ghost use Rattle.capability.specs.Chain.{right_blocks};
ghost use Rattle.capability.specs.Calls.{written};
ghost use Rattle.fields.specs.Command.{vector_of, additional, tag_in, encrypted, payload_of};
ghost use Rattle.packet.specs.Sealed.{right_tag};
ghost use Rattle.command.specs.Command.{text, order, genuine};
ghost use Rattle.command.specs.Heard.{answering, heard_in, text_heard, text_room, heard, heard_room};

use octets::Little;
use refusal::{Refusal, Refused};

// What an accepted command is answered: how many blocks were counted, and its inner fields.
#[derive(Clone, Copy, Debug, PartialEq, Eq)]
pub struct Accepted {
    pub blocks: usize,
    pub order: fields::Order,
}

// A packet past the outer checks, and its key, prepared.
#[derive(Clone, Copy)]
struct Sealed<'a> {
    p: &'a aes::Prepared,
    packet: &'a [u8],
    ghost long: { 96 ≤ length packet.now },
    ghost bounded: { length packet.now ≤ 16480 },
}

impl Sealed<'_> {
    // Whether the packet's tag is right under its key.
    fn tag_right(&self) -> bool
        ensures { let p = self.now.packet.now in result ≡ right_tag (under self.now.p.now) (additional p) (vector_of p) (tag_in p) (encrypted p) }
    {
        packet::authentic(
            self.p,
            octets::part(self.packet, 0, 4),
            fields::vector_at(self.packet, 4),
            octets::bytes_at(self.packet, 16),
            &self.packet[32..],
        )
    }

    // What the first 64 bytes of the text say.
    fn order(&self) -> fields::Order
        ensures { result ≡ order (under self.now.p.now) self.now.packet.now }
    {
        let mut head = [0; 64];
        packet::decipher(
            self.p,
            fields::vector_at(self.packet, 4),
            2,
            octets::part(self.packet, 32, 64),
            &mut head,
        );
        fields::order_of(head)
    }

    // The checks of the text, and the payload where they pass.
    fn entered(
        &self,
        v: view::View,
        rights: state::Rights,
        room: &mut [u8],
    ) -> Result<Accepted, Refused>
        ensures { (heard_in result ≡ text_heard (under self.now.p.now) v rights self.now.packet.now)
            × (room.new ≡ text_room (under self.now.p.now) v rights self.now.packet.now room.old) }
    {
        let o = self.order();
        let f = view::right_at(rights, o.interface, o.capability);
        let client = u16::at(self.packet, 0);
        let blocks = gcm::blocks_in(self.packet.len() - 32) + 2;
        judge::judged(v, f, client, self.packet.len() - 96, o).map_err(|why| Refused {
            why,
            blocks,
        })?;
        self.finish(f, o, blocks, room)
    }

    // The last check, and the payload at the start of the room where it passes. `count` is what is counted before it.
    fn finish(
        &self,
        f: view::Right,
        o: fields::Order,
        count: usize,
        room: &mut [u8],
    ) -> Result<Accepted, Refused>
        requires { count ≤ 1100 }
        ensures { (heard_in result ≡ answering (genuine f o) (count + length (right_blocks f.secret o.capability o.words)) o)
            × (room.new ≡ written (genuine f o) (payload_of (text (under self.now.p.now) self.now.packet.now).bytes) room.old) }
    {
        let right = capability::right_secret(f.secret, o.capability, o.words);
        let blocks = count + right.blocks;
        if !octets::equal(&o.secret, &right.secret) {
            return Err(Refused {
                why: Refusal::SecretWrong,
                blocks,
            });
        }
        let payload = &self.packet[96..];
        packet::decipher(self.p, fields::vector_at(self.packet, 4), 6, payload, room);
        Ok(Accepted { blocks, order: o })
    }
}

// Judges a command, and writes its payload where it is accepted.
pub fn hear(
    v: view::View,
    rights: state::Rights,
    packet: &[u8],
    room: &mut [u8],
) -> Result<Accepted, Refused>
    ensures { (heard_in result ≡ heard v rights packet.now room.old)
        × (room.new ≡ heard_room v rights packet.now room.old) }
{
    judge::outer(v, packet, room.len())?;
    let p = aes::prepare(v.held.key);
    let sealed = Sealed { p: &p, packet };
    if !sealed.tag_right() {
        return Err(Refused {
            why: Refusal::TagWrong,
            blocks: 2,
        });
    }
    sealed.entered(v, rights, room)
}
