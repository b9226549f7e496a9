// Proof: the second step of the handshake.
ghost use Rattle.std.specs.Prelude.{◌≡◌, length};
ghost use Rattle.refusal.specs.Numbers.{number_of};
ghost use Rattle.gateway.specs.Common.{changed_in};
ghost use Rattle.gateway.specs.Proof.{proof_refusal, proving, proof_room};

use crate::{Done, judge_host};
use refusal::{Refusal, Refused};
use state::{Phase, Records, Rights};

#[tactic(auto, unfolding(crate::specs::Close::close_refusal, crate::specs::Proof::proof_refusal))]
fn judge(v: view::View, host: u16, proof: &[u8], room: usize) -> Result<(), Refusal>
    ensures { number_of result ≡ proof_refusal v host proof.now room }
{
    judge_host(v, host)?;
    if proof.len() != 32 {
        return Err(Refusal::ProofLength);
    }
    let Phase::Waiting = v.held.phase else {
        return Err(Refusal::NotWaiting);
    };
    if !octets::equal(octets::part(proof, 0, 16), &v.held.challenge) {
        return Err(Refusal::ChallengeDiffers);
    }
    if room < 20 {
        return Err(Refusal::RoomShort);
    }
    Ok(())
}

// A host proves that it read the challenge: its connection opens under a new key. The room gets client ID, two zeros and challenge 3.
#[tactic(auto, unfolding(crate::specs::Proof::proving, crate::specs::Proof::proof_room))]
pub fn proof(
    rights: Rights,
    records: Records,
    host: u16,
    proof: &[u8],
    room: &mut [u8],
) -> Result<Done<Records>, Refused>
    ensures { (changed_in records result ≡ proving rights records host proof.now (length room.old))
        × (room.new ≡ proof_room rights records host proof.now room.old) }
{
    let v = view::see(rights, records, host);
    judge(v, host, proof, room.len())?;
    let key = aes::encrypt(octets::bytes_at(proof, 0), octets::bytes_at(proof, 16));
    octets::put(room, 0, &fields::open_lead(host));
    octets::put(room, 4, octets::part(proof, 16, 16));
    let after = state::with_record(records, usize::from(host) - 1, v.held.proof(key));
    Ok(Done { blocks: 1, after })
}
