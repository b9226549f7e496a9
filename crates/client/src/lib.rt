// The client's calls beside issuing and narrowing: sealing a command and opening a reply (document 01, "Command packet"). Every call takes all
// inputs; a refusal writes nothing.

#![tactic(auto)]

mod open;
mod seal;

pub use open::{Payload, open_reply};
pub use seal::{Ask, seal_command};
