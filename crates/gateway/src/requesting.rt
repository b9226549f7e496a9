// Request: the first step of the handshake.
ghost use Rattle.std.specs.Prelude.{◌≡◌, length};
ghost use Rattle.refusal.specs.Numbers.{number_of};
ghost use Rattle.gateway.specs.Request.{name_at, found, host_of, form_refusal, requested_in, requesting, request_room};

use octets::Little;
use refusal::{Refusal, Refused};
use state::{Records, Rights};

// What an accepted request hands back: how many blocks were counted, the number of the host named, and the records after it.
#[derive(Clone, Copy)]
pub struct Requested {
    pub blocks: usize,
    pub host: u16,
    pub records: Records,
}

// The name of the host at place i.
#[tactic(auto, unfolding(crate::specs::Request::name_at))]
fn name_at<'a>(rights: &Rights, names: &'a [u8], i: u16) -> &'a [u8]
    ensures { result.now ≡ name_at rights.now names.now i }
{
    let i = usize::from(i);
    let size = rights.sizes.get(i).copied().unwrap_or(0);
    octets::part(names, i * 256, usize::from(size))
}

// The number of the lowest host of that name. Each name up to it is compared in full. A `for`: of `find(..).map(|i| i + 1)` it stayed open
// that `i + 1` fits.
fn find(rights: &Rights, names: &[u8], name: &[u8]) -> Option<u16>
    ensures { result ≡ host_of (found rights.now names.now name.now) }
{
    for i in 0..rights.hosts {
        if octets::equal(name_at(rights, names, i), name) {
            return Some(i + 1);
        }
    }
    None
}

// What is judged before the name: 39, 28, 20, 21, 22.
#[tactic(auto, unfolding(octets::specs::Little::number, crate::specs::Request::form_refusal))]
fn judge(rights: Rights, request: &[u8], fresh: &[u8]) -> Result<(), Refusal>
    ensures { number_of result ≡ form_refusal rights request.now fresh.now }
{
    if !state::sound(rights) {
        return Err(Refusal::Unsound);
    }
    if fresh.len() != 16 {
        return Err(Refusal::LengthWrong);
    }
    if !octets::between(21, 276, request.len()) {
        return Err(Refusal::RequestLength);
    }
    if u16::at(request, 0) != 1 {
        return Err(Refusal::Version);
    }
    if usize::from(u16::at(request, 2)) != request.len() - 20 {
        return Err(Refusal::NameLength);
    }
    Ok(())
}

// A host asks for a connection: its record waits for the proof of the fresh challenge. The room gets the two challenges.
pub fn request(
    rights: Rights,
    records: Records,
    names: &[u8],
    request: &[u8],
    fresh: &[u8],
    room: &mut [u8],
) -> Result<Requested, Refused>
    ensures { (requested_in records result ≡ requesting rights records names.now request.now fresh.now (length room.old))
        × (room.new ≡ request_room rights names.now request.now fresh.now room.old) }
{
    judge(rights, request, fresh)?;
    let host = find(&rights, names, &request[20..]).ok_or(Refusal::NoName)?;
    if room.len() < 32 {
        return Err(Refusal::RoomShort.into());
    }
    octets::put(room, 0, octets::part(request, 4, 16));
    octets::put(room, 16, fresh);
    let at = usize::from(host) - 1;
    let waiting = state::record_at(records, at).request(octets::bytes_at(fresh, 0));
    Ok(Requested {
        blocks: 0,
        host,
        records: state::with_record(records, at, waiting),
    })
}
