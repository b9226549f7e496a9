// Input that ends where it ends: what programs here read, from a file or a pipe, into a buffer of their own.

#![tactic(auto)]

ghost use Rattle.std.specs.Prelude.{◌≡◌, ◌≤◌, length, take};
ghost use Rattle.std.specs.Io.KnownBytes.{Consumes};

use std::io::Read;

// Reads until the buffer is full or the input ends, and answers how many bytes it got, which stand at the buffer's start; `read_exact` doesn't say.
// A read that fails counts as the end. A `while`: `done` grows by what was read, and is no index over items.
// A count and no slice, as `read` gives it: replay keeps the zeros past it.
pub fn read_full<R: Read>(from: &mut R, buffer: &mut [u8]) -> usize
    ensures within { result ≤ length buffer.new }
    ensures kept { length buffer.new ≡ length buffer.old }
    ensures bytes { Consumes (R.remaining from.old) (R.remaining from.new) (take result buffer.new) }
{
    let mut done = 0;
    while done < buffer.len() {
        match from.read(&mut buffer[done..]) {
            Ok(0) | Err(_) => break,
            Ok(n) => done += n,
        }
    }
    done
}
