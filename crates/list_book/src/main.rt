// Reads a book from standard input and lists it on standard output; a book that is refused gives the one line `refused N at M`.
// A read that fails counts as the end of the book; a write that fails ends it with an error.

#![tactic(auto)]

use std::io;

// A byte more than the longest book, so that a longer one shows.
const MOST: usize = 12233;

const ROOM: usize = 11264;

// Puts what a load answered into the room, and hands back the part that it fills.
fn answered<'a>(book: &[u8], room: &'a mut [u8]) -> &'a [u8] {
    let loaded = book::load(book);
    let n = match loaded.verdict {
        Ok(()) => {
            let state = &loaded.state;
            listing::render(state.rights, &state.names, &state.labels, room).unwrap_or(0)
        }
        Err(fault) => listing::render_refused(fault.why.number(), fault.offset, room),
    };
    octets::part(room, 0, n)
}

fn list(to: &impl Print, book: &[u8]) -> io::Result<()> {
    let mut room = [0u8; ROOM];
    to.write_all(answered(book, &mut room))
}

fn main(rt: HostRuntime) -> io::Result<()> {
    let mut buffer = [0u8; MOST];
    let n = reading::read_full(&mut rt.stdin(), &mut buffer);
    list(&rt, &buffer[..n])
}
