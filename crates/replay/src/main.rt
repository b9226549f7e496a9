// Reads a trace of calls from standard input, performs each and prints a line for each answer. The format is docs/TRACES.md.
//
// What is claimed of this program is that it is safe on every input and comes to an end; the calls themselves are proved in their crates.
// A read that fails counts as the end of the trace; a write that fails ends it with an error.

#![tactic(auto)]

mod dump;
mod input;
mod keeper;
mod machine;
mod op;
mod output;
mod poke;
mod server;

use op::Op;
use std::io;

// The trace is read from one side, and its lines are printed to the other.
#[derive(Drop)]
pub(crate) struct Player<R: Drop, P: Drop> {
    from: R,
    to: P,
}

// A proved loop has to end, and nothing says that a trace does: no trace has so many calls.
fn main(rt: HostRuntime) -> io::Result<()> {
    let mut player = Player {
        from: rt.stdin(),
        to: rt,
    };
    let mut slots = [book::empty_state(); 4];
    let mut selected: u8 = 0;
    for _ in 0..u64::MAX {
        let s = &mut slots[usize::from(selected % 4)];
        match player.op() {
            Op::End => break,
            Op::Load => player.load(s)?,
            Op::Request => player.request(s)?,
            Op::Proof => player.proof(s)?,
            Op::Command => player.command(s)?,
            Op::Reply => player.reply(s)?,
            Op::Close => player.close(s)?,
            Op::Revoke => player.revoke(s)?,
            Op::Issue => player.issue()?,
            Op::Narrow => player.narrow()?,
            Op::Seal => player.seal()?,
            Op::Open => player.open()?,
            Op::Dump => player.dump(s)?,
            Op::Poke => player.poke(s),
            Op::Select => selected = player.byte(),
            Op::Note => player.note()?,
        }
    }
    Ok(())
}
