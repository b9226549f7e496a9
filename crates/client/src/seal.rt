// Sealing a command.
ghost use Rattle.std.specs.Prelude.{◌≡◌, ◌++◌, length, drop};
ghost use Rattle.refusal.specs.Numbers.{number_of};
ghost use Rattle.refusal.specs.Answer.{said};
ghost use Rattle.capability.specs.Bytes.{id_of};
ghost use Rattle.fields.specs.Command.{command_lead};
ghost use Rattle.client.specs.Seal.{seal_refusal, sealing, seal_room};

use octets::Little;
use refusal::{Refusal, Refused};

// What a command asks for, beside its capability and its payload. None of these is judged here but the sequence number.
#[derive(Clone, Copy, Debug, PartialEq, Eq)]
pub struct Ask {
    pub client: u16,
    pub sequence: u16,
    pub group: u16,
    pub interface: u16,
    pub command: u8,
}

#[tactic(auto, using(octets::proofs::CheckLaws::tests), unfolding(crate::specs::Seal::seal_refusal))]
fn judge(
    key: &[u8],
    vector: &[u8],
    capability: &[u8],
    sequence: u16,
    payload: usize,
    room: usize,
) -> Result<(), Refusal>
    ensures { number_of result ≡ seal_refusal key.now vector.now capability.now sequence payload room }
{
    if key.len() != 16 || vector.len() != 12 || capability.len() != 50 {
        return Err(Refusal::LengthWrong);
    }
    if 128 <= u8::at(vector, 0) {
        return Err(Refusal::Vector);
    }
    if sequence == 0 {
        return Err(Refusal::NotFresh);
    }
    if 16384 < payload {
        return Err(Refusal::PayloadAbove);
    }
    if room < 96 + payload {
        return Err(Refusal::RoomShort);
    }
    Ok(())
}

// The text before the payload: the fields, then the capability's words and secret.
fn head(capability: &[u8], ask: Ask, size: u16) -> [u8; 64]
    requires { length capability.now ≡ 50 }
    ensures { result ≡ command_lead ask.client ask.sequence ask.group ask.interface (id_of capability.now) size ask.command ++ drop 2 capability.now }
{
    let id = u16::at(capability, 0);
    let lead = fields::command_lead(
        ask.client,
        ask.sequence,
        ask.group,
        ask.interface,
        id,
        size,
        ask.command,
    );
    let mut out = [0; 64];
    octets::put(&mut out, 0, &lead);
    octets::put(&mut out, 16, &capability[2..]);
    out
}

// Seals a command: the packet at the start of the room. How many blocks that took.
#[tactic(auto, using(crate::proofs::SealLaws::judged), unfolding(crate::specs::Seal::sealing, crate::specs::Seal::seal_room))]
pub fn seal_command(
    key: &[u8],
    vector: &[u8],
    capability: &[u8],
    ask: Ask,
    payload: &[u8],
    room: &mut [u8],
) -> Result<usize, Refused>
    ensures { (said result ≡ sealing key.now vector.now capability.now ask payload.now room.old)
        × (room.new ≡ seal_room key.now vector.now capability.now ask payload.now room.old) }
{
    judge(
        key,
        vector,
        capability,
        ask.sequence,
        payload.len(),
        room.len(),
    )?;
    // The judge lets 16,384 bytes pass at most: `as` is proved to lose nothing, and `try_from` would add a refusal that can't come.
    let lead = head(capability, ask, payload.len() as u16);
    let open = fields::open_lead(ask.client);
    let key = octets::bytes_at(key, 0);
    let vector = fields::vector_at(vector, 0);
    Ok(packet::seal(key, &open, vector, &lead, payload, room))
}
