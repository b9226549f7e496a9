// The server's calls, by value over the parts of the state that they read (document 01, "Handshake", "Command packet", "Numbers of
// refusal"). Each judges a view of the state by its table of refusals, in the document's order, and acts once the last check has passed: a
// refusal hands nothing back but why, and writes nothing. Every call takes all inputs, a state that nobody loaded too.
//
// Rights, records and room stay parameters of their own, since a refusal hands none back and a pair would be copied; host and view too, since the
// tables of document 01 are over both.

#![tactic(auto)]

mod closing;
mod commanding;
mod proving;
mod replying;
mod requesting;
mod revoking;

ghost use Rattle.std.specs.Prelude.{◌≡◌};
ghost use Rattle.refusal.specs.Numbers.{number_of};
ghost use Rattle.gateway.specs.Close.{close_refusal};

pub use closing::close;
pub use commanding::{Commanded, command};
pub use proving::proof;
use refusal::Refusal;
pub use replying::reply;
pub use requesting::{Requested, request};
pub use revoking::revoke;

// What an accepted call hands back: how many blocks were counted, and the part of the state that it changed.
#[derive(Clone, Copy, Debug, PartialEq, Eq)]
pub struct Done<T> {
    pub blocks: usize,
    pub after: T,
}

// What each call about a host judges first: the state, and whether there is such a host.
#[tactic(auto, unfolding(crate::specs::Close::close_refusal))]
pub(crate) fn judge_host(v: view::View, host: u16) -> Result<(), Refusal>
    ensures { number_of result ≡ close_refusal v host }
{
    if !v.good {
        return Err(Refusal::Unsound);
    }
    if view::no_such(host, v.hosts) {
        return Err(Refusal::NoHost);
    }
    Ok(())
}
