// Bytes: numbers read and placed, a part placed in a room, comparison without an early exit; numbers in a range, and words that fit.
//
// Document 01: "All numbers of ours are little-endian." Every public function takes all inputs: what is read past the end of a
// slice counts as no byte, and what doesn't fit a room isn't placed. A string, or a room, and a place are two parameters: the functions are
// public and named by docs/PROMISES.md, and a pair would keep no fact, since every place is allowed.

#![tactic(auto)]

ghost use Rattle.std.specs.Prelude.{◌≡◌, ℕ, ◌+◌, ◌≤◌, ◌^◌, drop, ltb, length};
ghost use Rattle.octets.specs.Little.{octets};
ghost use Rattle.octets.specs.Room.{filled, part, number_at, placed};
ghost use Rattle.octets.specs.Range.{between};
ghost use Rattle.octets.specs.Same.{same};

// The bytes of s from `at` on.
fn from(s: &[u8], at: usize) -> &[u8]
    ensures { result.now ≡ drop at s.now }
{
    &s[at.min(s.len())..]
}

// The `size` bytes of s from `at` on, or as many of them as there are.
pub fn part(s: &[u8], at: usize, size: usize) -> &[u8]
    ensures { result.now ≡ part s.now at size }
{
    let there = from(s, at);
    there.get(..size).unwrap_or(there)
}

// Puts x into the room from `at` on; a room where it doesn't fit stays as it was. A `for`: `copy_from_slice` of a length that only the call knows is
// `memmove`, which an archive for C would then want of whoever links it.
pub fn put(room: &mut [u8], at: usize, x: &[u8])
    ensures { room.new ≡ placed room.old at x.now }
{
    if at <= room.len() && x.len() <= room.len() - at {
        for i in 0..x.len() {
            room[at + i] = x[i];
        }
    }
}

// The first N bytes, and 0 for those that aren't there. Byte by byte, since of a part that is put into zeros a compiler makes `memset`, which an archive
// for C may not have wanted. Out of line, so that a caller of `bytes_at` has no room for it on its stack.
#[inline(never)]
fn padded<const N: usize>(s: &[u8]) -> [u8; N]
    ensures { result ≡ filled N s.now 0 }
{
    let mut out = [0; N];
    for i in 0..N {
        out[i] = u8::at(s, i);
    }
    out
}

// N bytes from `at` on; what the string doesn't reach counts as 0.
pub fn bytes_at<const N: usize>(s: &[u8], at: usize) -> [u8; N]
    ensures { result ≡ filled N s.now at }
{
    let there = from(s, at);
    if let Some(whole) = there.first_chunk::<N>() {
        return *whole;
    }
    padded(there)
}

// An unsigned number in its bytes, the lowest first.
pub trait Little {
    // how many bytes it takes
    ghost size: { ℕ };

    ghost value: { Self → ℕ };

    // The number in the bytes from `at` on.
    fn at(s: &[u8], at: usize) -> Self
        ensures { value result ≡ number_at s.now at size };

    // Puts its bytes into the room from `at` on.
    fn put_at(self, room: &mut [u8], at: usize)
        ensures { room.new ≡ placed room.old at (octets size (value self)) };
}

// The impls of u16, u32 and u64 are alike, and written out: the kit refuses an impl that a macro of this repository wrote, and std has no
// trait over `to_le_bytes`.
impl Little for u8 {
    ghost size = { 1 };

    ghost value = { λ n. n };

    fn at(s: &[u8], at: usize) -> u8 {
        if at < s.len() { s[at] } else { 0 }
    }

    fn put_at(self, room: &mut [u8], at: usize) {
        put(room, at, &[self]);
    }
}

impl Little for u16 {
    ghost size = { 2 };

    ghost value = { λ n. n };

    fn at(s: &[u8], at: usize) -> u16 {
        u16::from_le_bytes(bytes_at(s, at))
    }

    fn put_at(self, room: &mut [u8], at: usize) {
        put(room, at, &u16::to_le_bytes(self));
    }
}

impl Little for u32 {
    ghost size = { 4 };

    ghost value = { λ n. n };

    fn at(s: &[u8], at: usize) -> u32 {
        u32::from_le_bytes(bytes_at(s, at))
    }

    fn put_at(self, room: &mut [u8], at: usize) {
        put(room, at, &u32::to_le_bytes(self));
    }
}

impl Little for u64 {
    ghost size = { 8 };

    ghost value = { λ n. n };

    fn at(s: &[u8], at: usize) -> u64 {
        u64::from_le_bytes(bytes_at(s, at))
    }

    fn put_at(self, room: &mut [u8], at: usize) {
        put(room, at, &u64::to_le_bytes(self));
    }
}

// Whether two byte strings are the same. In this source no byte decides a branch or an index.
pub fn equal(a: &[u8], b: &[u8]) -> bool
    ensures { result ≡ same a.now b.now }
{
    if a.len() != b.len() {
        return false;
    }
    let mut differ = 0;
    for (x, y) in a.iter().zip(b) {
        differ |= x ^ y;
    }
    differ == 0
}

// Whether v is from lo to hi.
pub fn between(lo: usize, hi: usize, v: usize) -> bool
    ensures { result ≡ between lo hi v }
{
    lo <= v && v <= hi
}

// Whether a word has no bit at or above c: every word is below 2 ^ 64.
pub fn word_fits(word: u64, c: u16) -> bool
    ensures { result ≡ ltb word (2 ^ c) }
{
    64 <= c || word >> c == 0
}
