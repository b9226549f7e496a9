// Command: the check is crate command's.
ghost use Rattle.std.specs.Prelude.{◌≡◌};
ghost use Rattle.gateway.specs.Command.{commanded_in, commanding, command_room};

use octets::Little;
use refusal::Refused;
use state::{Records, Rights};

// What an accepted command hands back, and the records after it.
#[derive(Clone, Copy)]
pub struct Commanded {
    pub heard: command::Accepted,
    pub records: Records,
}

// Judges a command packet; where it is accepted its payload is written to the room.
#[tactic(auto, unfolding(crate::specs::Command::command_heard, crate::specs::Command::commanding, crate::specs::Command::command_room))]
pub fn command(
    rights: Rights,
    records: Records,
    packet: &[u8],
    room: &mut [u8],
) -> Result<Commanded, Refused>
    ensures { (commanded_in records result ≡ commanding rights records packet.now room.old)
        × (room.new ≡ command_room rights records packet.now room.old) }
{
    let client = u16::at(packet, 0);
    let v = view::see(rights, records, client);
    let heard = command::hear(v, rights, packet, room)?;
    let open = v.held.accept(heard.order.sequence);
    let records = state::with_record(records, usize::from(client) - 1, open);
    Ok(Commanded { heard, records })
}
