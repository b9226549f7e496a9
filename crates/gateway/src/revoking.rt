// "Revocation replaces an entry's word by its AND with the given word, at once."
ghost use Rattle.std.specs.Prelude.{◌≡◌};
ghost use Rattle.gateway.specs.Revoke.{revoked_in, revoking};

use crate::Done;
use refusal::{Refusal, Refused};
use state::Rights;

// Takes permitted bits away from an entry, at once.
#[tactic(auto, unfolding(crate::specs::Revoke::revoke_refusal, crate::specs::Revoke::revoking))]
pub fn revoke(
    rights: Rights,
    interface: u16,
    entry: u16,
    word: u64,
) -> Result<Done<Rights>, Refused>
    ensures { revoked_in rights result ≡ revoking rights interface entry word }
{
    if !state::sound(rights) {
        return Err(Refusal::Unsound.into());
    }
    if view::no_such(interface, rights.interfaces) {
        return Err(Refusal::NoInterface.into());
    }
    let f = view::right_at(rights, interface, entry);
    if view::no_such(entry, f.entries) {
        return Err(Refusal::NoEntry.into());
    }
    let i = usize::from(interface) - 1;
    let after = state::with_word(rights, i, usize::from(entry) - 1, f.word & word);
    Ok(Done { blocks: 0, after })
}
