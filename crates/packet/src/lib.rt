// The packets of commands and replies (document 01, "Command packet"): GCM over them. Server and client share these. Every function takes all
// inputs.

#![tactic(auto)]

mod sealed;

pub use sealed::{authentic, decipher, seal};
