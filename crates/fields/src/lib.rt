// The fields of command and reply packets, read and laid out (document 01, "Command packet"; 000, figure 2). Server and client share these. Every
// function takes all inputs.

#![tactic(auto, unfolding(octets::specs::Little::octets, octets::specs::Room::placed, crate::specs::Command::command_lead, crate::specs::Command::open_lead, crate::specs::Reply::reply_vector, crate::specs::Reply::reply_lead))]

ghost use Rattle.std.specs.Prelude.{◌≡◌};
ghost use Rattle.octets.specs.Room.{filled};
ghost use Rattle.fields.specs.Command.{order_of, command_lead, open_lead};
ghost use Rattle.fields.specs.Reply.{reply_vector, reply_lead};

use octets::Little;

// The inner fields of a command, in the order of document 01 but for the payload. C reads it as it stands.
#[repr(C)]
#[derive(Clone, Copy, Debug, PartialEq, Eq, Default)]
pub struct Order {
    pub client: u16,
    pub sequence: u16,
    pub group: u16,
    pub interface: u16,
    pub capability: u16,
    pub length: u16,
    pub command: u8,
    pub zeros: u32,
    pub words: [u64; 4],
    pub secret: [u8; 16],
}

// An initial vector's twelve bytes, from `at` on; what the string doesn't reach counts as 0. It is `bytes_at` for twelve bytes,
// and stays: it is public, and docs/PROMISES.md names it.
pub fn vector_at(s: &[u8], at: usize) -> [u8; 12]
    ensures { result ≡ filled 12 s.now at }
{
    octets::bytes_at(s, at)
}

// What the first 64 bytes of a command's text say.
pub fn order_of(text: [u8; 64]) -> Order
    ensures { result ≡ order_of text }
{
    Order {
        client: u16::at(&text, 0),
        sequence: u16::at(&text, 2),
        group: u16::at(&text, 4),
        interface: u16::at(&text, 6),
        capability: u16::at(&text, 8),
        length: u16::at(&text, 10),
        command: u8::at(&text, 12),
        zeros: u32::from_le_bytes([text[13], text[14], text[15], 0]),
        words: capability::four_at(&text, 16),
        secret: octets::bytes_at(&text, 48),
    }
}

// The first sixteen bytes of a command's text: all fields before the reduction words. The seven numbers stay parameters: the function is public,
// and docs/PROMISES.md names it.
pub fn command_lead(
    client: u16,
    sequence: u16,
    group: u16,
    interface: u16,
    capability: u16,
    length: u16,
    command: u8,
) -> [u8; 16]
    ensures { result ≡ command_lead client sequence group interface capability length command }
{
    let mut lead = [0; 16];
    client.put_at(&mut lead, 0);
    sequence.put_at(&mut lead, 2);
    group.put_at(&mut lead, 4);
    interface.put_at(&mut lead, 6);
    capability.put_at(&mut lead, 8);
    length.put_at(&mut lead, 10);
    lead[12] = command;
    lead
}

// A command's additional data: its client ID and two zeros.
pub fn open_lead(client: u16) -> [u8; 4]
    ensures { result ≡ open_lead client }
{
    let mut open = [0; 4];
    client.put_at(&mut open, 0);
    open
}

// The vector of the reply for a number.
pub fn reply_vector(sequence: u16) -> [u8; 12]
    ensures { result ≡ reply_vector sequence }
{
    let mut iv = [0; 12];
    iv[0] = 128;
    sequence.put_at(&mut iv, 2);
    iv
}

// The first four bytes of a reply's text.
pub fn reply_lead(sequence: u16, length: u16) -> [u8; 4]
    ensures { result ≡ reply_lead sequence length }
{
    let mut lead = [0; 4];
    sequence.put_at(&mut lead, 0);
    length.put_at(&mut lead, 2);
    lead
}
