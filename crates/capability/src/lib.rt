// Capabilities (document 01, "Capability"; 000, section 3.6): the chain of secrets, what words permit, issuing and narrowing.

#![tactic(auto)]

mod bytes;
mod chain;

ghost use Rattle.std.specs.Prelude.{◌≡◌};
ghost use Rattle.refusal.specs.Answer.{said};
ghost use Rattle.capability.specs.Calls.{issue_refusal, issued, issue_blocks, narrow_refusal, narrowing, narrow_blocks, answer, written};

pub use bytes::{four_at, permits};
pub use chain::{Chained, right_secret};
use octets::Little;
use refusal::{Refusal, Refused};

// Issues a capability: four all-ones words and the first secret, at the start of the room. How many blocks that took.
#[tactic(auto, using(crate::proofs::ChainLaws::made), unfolding(crate::specs::Calls::issue_refusal, crate::specs::Calls::issued, crate::specs::Calls::issue_blocks))]
pub fn issue(master: &[u8], id: u16, room: &mut [u8]) -> Result<usize, Refused>
    ensures { (said result ≡ answer (issue_refusal master.now id room.old) (issue_blocks master.now id))
        × (room.new ≡ written (issue_refusal master.now id room.old) (issued master.now id) room.old) }
{
    if master.len() != 16 {
        return Err(Refusal::LengthWrong.into());
    }
    if id == 0 {
        return Err(Refusal::NoEntry.into());
    }
    if room.len() < 50 {
        return Err(Refusal::RoomShort.into());
    }
    let secret = chain::next_secret(octets::bytes_at(master, 0), id);
    bytes::put_capability(room, id, [u64::MAX; 4], secret);
    Ok(1)
}

// Narrows a capability by a word: the word in the first all-ones place, and the secret moved one step. How many blocks that took.
#[tactic(auto, using(crate::proofs::ChainLaws::made), unfolding(crate::specs::Calls::narrow_refusal, crate::specs::Calls::narrowing, crate::specs::Calls::narrow_blocks, crate::specs::Bytes::id_of, crate::specs::Bytes::secret_of))]
pub fn narrow(capability: &[u8], word: u64, room: &mut [u8]) -> Result<usize, Refused>
    ensures { (said result ≡ answer (narrow_refusal capability.now word room.old) (narrow_blocks capability.now word))
        × (room.new ≡ written (narrow_refusal capability.now word room.old) (narrowing capability.now word) room.old) }
{
    if capability.len() != 50 {
        return Err(Refusal::LengthWrong.into());
    }
    if word == u64::MAX {
        return Err(Refusal::AllOnes.into());
    }
    let words = bytes::four_at(capability, 2);
    let words = bytes::narrow_words(words, word).ok_or(Refusal::NoPlaceLeft)?;
    if room.len() < 50 {
        return Err(Refusal::RoomShort.into());
    }
    let held = octets::bytes_at(capability, 34);
    let secret = chain::next_secret(held, word);
    let id = u16::at(capability, 0);
    bytes::put_capability(room, id, words, secret);
    Ok(1)
}
