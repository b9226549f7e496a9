// The fields of a book, read where they stand. A field that the book doesn't reach reads as the bytes that are there, so each
// function takes all inputs. Rows and entries are counted from 0.
//
// A book and a row's number go side by side, and not as one `Row`: it would have no fact to keep, since every number is allowed, and each contract would
// say `row.book.now` and `row.i` for `book.now` and `i`.
//
// `start` and `size`, `commands` and `entries`, `owner` and `word` stay apart: they are one field each, named by document 01 and by docs/PROMISES.md.
// What is read as 32 bits goes to `usize` by `as`: std has no `From<u32>` for `usize`.

#![tactic(auto, unfolding(crate::specs::Kinds::kind_of, crate::specs::Layout::format, crate::specs::Layout::rows, crate::specs::Layout::total, crate::specs::Layout::kind, crate::specs::Layout::id, crate::specs::Layout::start, crate::specs::Layout::size, crate::specs::Layout::group, crate::specs::Layout::secret, crate::specs::Layout::commands, crate::specs::Layout::entries, crate::specs::Layout::owner, crate::specs::Layout::word, crate::specs::Layout::lead, crate::specs::Layout::name_start, crate::specs::Layout::name))]

mod kinds;

ghost use Rattle.std.specs.Prelude.{◌≡◌, ◌<◌, ◌^◌};
ghost use Rattle.layout.specs.Layout as L;
ghost use Rattle.layout.specs.Kinds.{kind_of};

pub use kinds::Kind;
use octets::Little;

pub fn format(book: &[u8]) -> usize
    ensures { (result ≡ L.format book.now) × (result < 2 ^ 16) }
{
    usize::from(u16::at(book, 0))
}

pub fn rows(book: &[u8]) -> u16
    ensures { result ≡ L.rows book.now }
{
    u16::at(book, 2)
}

pub fn total(book: &[u8]) -> usize
    ensures { (result ≡ L.total book.now) × (result < 2 ^ 32) }
{
    u32::at(book, 4) as usize
}

// Where row i stands.
pub fn row(i: u16) -> usize
    ensures { result ≡ L.row i }
{
    8 + 12 * usize::from(i)
}

pub fn kind(book: &[u8], i: u16) -> Kind
    ensures { result ≡ kind_of (L.kind book.now i) }
{
    Kind::from(u16::at(book, row(i)))
}

pub fn id(book: &[u8], i: u16) -> usize
    ensures { (result ≡ L.id book.now i) × (result < 2 ^ 16) }
{
    usize::from(u16::at(book, row(i) + 2))
}

pub fn start(book: &[u8], i: u16) -> usize
    ensures { (result ≡ L.start book.now i) × (result < 2 ^ 32) }
{
    u32::at(book, row(i) + 4) as usize
}

pub fn size(book: &[u8], i: u16) -> usize
    ensures { (result ≡ L.size book.now i) × (result < 2 ^ 32) }
{
    u32::at(book, row(i) + 8) as usize
}

pub fn commands(book: &[u8], i: u16) -> u16
    ensures { result ≡ L.commands book.now i }
{
    u16::at(book, start(book, i) + 16)
}

pub fn entries(book: &[u8], i: u16) -> u16
    ensures { result ≡ L.entries book.now i }
{
    u16::at(book, start(book, i) + 18)
}

pub fn group(book: &[u8], i: u16) -> u16
    ensures { result ≡ L.group book.now i }
{
    u16::at(book, start(book, i))
}

pub fn owner(book: &[u8], i: u16, j: u16) -> u16
    ensures { result ≡ L.owner book.now i j }
{
    u16::at(book, start(book, i) + 20 + 10 * usize::from(j))
}

pub fn word(book: &[u8], i: u16, j: u16) -> u64
    ensures { result ≡ L.word book.now i j }
{
    u64::at(book, start(book, i) + 22 + 10 * usize::from(j))
}

// How many bytes stand before the name in body i.
pub fn lead(book: &[u8], i: u16) -> usize
    ensures { (result ≡ L.lead book.now i) × (result < 2 ^ 20) }
{
    match kind(book, i) {
        Kind::Host => 2,
        _ => 20 + 10 * usize::from(entries(book, i)),
    }
}

pub fn name_start(book: &[u8], i: u16) -> usize
    ensures { (result ≡ L.name_start book.now i) × (result < 2 ^ 33) }
{
    start(book, i) + lead(book, i)
}

// The name in body i.
pub fn name(book: &[u8], i: u16) -> &[u8]
    ensures { result.now ≡ L.name book.now i }
{
    let before = lead(book, i);
    octets::part(
        book,
        start(book, i) + before,
        size(book, i).saturating_sub(before),
    )
}

// The master secret in body i.
pub fn secret(book: &[u8], i: u16) -> &[u8]
    ensures { result.now ≡ L.secret book.now i }
{
    octets::part(book, start(book, i), 16)
}
