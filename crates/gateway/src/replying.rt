// Reply: "One reply for the last accepted command, once."
ghost use Rattle.std.specs.Prelude.{◌≡◌, length};
ghost use Rattle.refusal.specs.Numbers.{number_of};
ghost use Rattle.gateway.specs.Common.{changed_in};
ghost use Rattle.gateway.specs.Reply.{reply_refusal, replying, reply_room};

use crate::{Done, judge_host};
use refusal::{Refusal, Refused};
use state::{Phase, Records, Rights};

#[tactic(auto, unfolding(crate::specs::Close::close_refusal, crate::specs::Reply::reply_refusal))]
fn judge(
    v: view::View,
    host: u16,
    sequence: u16,
    payload: usize,
    room: usize,
) -> Result<(), Refusal>
    ensures { number_of result ≡ reply_refusal v host sequence payload room }
{
    judge_host(v, host)?;
    let Phase::Open { last, owed } = v.held.phase else {
        return Err(Refusal::NotOpen);
    };
    if !owed || last != sequence {
        return Err(Refusal::NotOwed);
    }
    if 16384 < payload {
        return Err(Refusal::PayloadAbove);
    }
    if room < 32 + payload {
        return Err(Refusal::RoomShort);
    }
    Ok(())
}

// Seals the reply for a host's last accepted command.
#[tactic(auto, unfolding(crate::specs::Reply::replying, crate::specs::Reply::reply_room))]
pub fn reply(
    rights: Rights,
    records: Records,
    host: u16,
    sequence: u16,
    payload: &[u8],
    room: &mut [u8],
) -> Result<Done<Records>, Refused>
    ensures { (changed_in records result ≡ replying rights records host sequence payload.now (length room.old))
        × (room.new ≡ reply_room rights records host sequence payload.now room.old) }
{
    let v = view::see(rights, records, host);
    judge(v, host, sequence, payload.len(), room.len())?;
    // `as`, since what was judged is at most 16,384: of `u16::try_from` an `Err` would be left that can't come.
    let lead = fields::reply_lead(sequence, payload.len() as u16);
    let vector = fields::reply_vector(sequence);
    let blocks = packet::seal(v.held.key, &[], vector, &lead, payload, room);
    let after = state::with_record(records, usize::from(host) - 1, v.held.reply());
    Ok(Done { blocks, after })
}
