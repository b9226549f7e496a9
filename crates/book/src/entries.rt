// The arrays that hold the entries of all interfaces, sixteen places for each: flat arrays beside one another, as document 01 has the state.
ghost use Rattle.std.specs.Prelude.{◌≡◌, ℕ, ◌+◌, ◌*◌, ◌≤◌, ◌<◌, length};
ghost use Rattle.octets.specs.Room.{over};
ghost use Rattle.layout.specs.Layout as L;
ghost use Rattle.book.specs.States.{fill, laid};
ghost use Rattle.book.specs.Columns as C;

// The entries of row i, e of them, from place `at` on. By an index: j is the entry's number in the book too, and of what a zip of two
// `iter_mut` wrote no proof knows more than the length (the kit's NOT_COVERED.md; gcm's `mix`, tried).
fn put_entries(words: &mut [u64], owners: &mut [u16], at: usize, book: &[u8], i: u16, e: u16)
    requires { (at + e ≤ length words.old) × (at + e ≤ length owners.old) }
    ensures { (words.new ≡ over words.old at (C.collect (L.word book.now i) 0 e))
        × (owners.new ≡ over owners.old at (C.collect (L.owner book.now i) 0 e)) }
{
    for j in 0..e {
        words[at + usize::from(j)] = layout::word(book, i, j);
        owners[at + usize::from(j)] = layout::owner(book, i, j);
    }
}

// The words and the owners of the entries of the m interfaces from row h on.
pub(crate) fn entry_rows(book: &[u8], h: u16, m: u16) -> ([u64; 128], [u16; 128])
    requires { (m ≤ 8) × (h ≤ 32) × ((k : ℕ) → k < m → L.entries book.now (h + k) ≤ 16) }
    ensures { (result.0 ≡ fill 128 (laid 16 (C.collect (C.words book.now) h m)))
        × (result.1 ≡ fill 128 (laid 16 (C.collect (C.owners book.now) h m))) }
{
    let mut words = [0; 128];
    let mut owners = [0; 128];
    for k in 0..m {
        let i = h + k;
        put_entries(
            &mut words,
            &mut owners,
            16 * usize::from(k),
            book,
            i,
            layout::entries(book, i),
        );
    }
    (words, owners)
}
