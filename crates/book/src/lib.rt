// Loading a book (document 01, "The book"): its first fault with its place, or the state that holds just what it says.
//
// The book is judged first (crate grammar), once; then each array of the new state is made by one pass over the rows. Loading copies
// all that is needed: the book isn't lent again.

#![tactic(auto)]

mod entries;
mod tables;

ghost use Rattle.std.specs.Prelude.{◌≡◌};
ghost use Rattle.grammar.specs.Checks.{fault_of};
ghost use Rattle.book.specs.Contents.{host_count, contents_of};
ghost use Rattle.book.specs.States.{rights_of, state_of, empty_state, loaded, told};
ghost use Rattle.book.specs.Columns.{contents, InRoom};

use crate::tables::{column, put_strings};
use layout::Kind;

// What a load answers: the first fault if there is one, the count of enciphered blocks, which is 0, and the new state.
#[derive(Clone, Copy)]
pub struct Loaded {
    pub verdict: Result<(), grammar::Fault>,
    pub blocks: usize,
    pub state: state::State,
}

// How many hosts a book has. A loop: `filter(..).count()` is a usize, and would want a cast back.
fn host_count(book: &[u8]) -> u16
    ensures { result ≡ host_count book.now }
{
    let mut hosts = 0;
    for i in 0..layout::rows(book) {
        if layout::kind(book, i) == Kind::Host {
            hosts += 1;
        }
    }
    hosts
}

// What a book with h hosts and m interfaces says of them, but their names.
fn rights(book: &[u8], h: u16, m: u16) -> state::Rights
    requires { InRoom book.now h m }
    ensures { result ≡ rights_of (contents book.now h m) }
{
    let (words, owners) = entries::entry_rows(book, h, m);
    let mut secrets = [0; 128];
    put_strings(&mut secrets, 16, h, m, |i| layout::secret(book, i));
    // The two `as`: no `From` narrows, and a name has at most 256 bytes, as the check proves.
    state::Rights {
        words,
        hosts: h,
        interfaces: m,
        groups: column(0, h, |i| layout::group(book, i)),
        sizes: column(0, h, |i| layout::name(book, i).len() as u16),
        spans: column(h, m, |i| layout::name(book, i).len() as u16),
        commands: column(h, m, |i| layout::commands(book, i)),
        entries: column(h, m, |i| layout::entries(book, i)),
        owners,
        secrets,
    }
}

// The state with no hosts and no interfaces.
pub fn empty_state() -> state::State
    ensures { result ≡ empty_state }
{
    state::State {
        rights: state::no_rights(),
        records: state::idle_records(),
        names: [0; 8192],
        labels: [0; 2048],
    }
}

// Fills the empty state with what a good book says.
fn fill(state: &mut state::State, book: &[u8])
    requires { ((fault_of book.now).number ≡ 0) × (state.old ≡ empty_state) }
    ensures { state.new ≡ state_of (contents_of book.now) }
{
    let h = host_count(book);
    let m = layout::rows(book) - h;
    state.rights = rights(book, h, m);
    put_strings(&mut state.names, 256, 0, h, |i| layout::name(book, i));
    put_strings(&mut state.labels, 256, h, m, |i| layout::name(book, i));
}

// Loads a book.
//
// Judging looks at each letter and word of a body once, at 780 pairs of rows at most, and of these compares 524 pairs of names of at
// most 256 bytes. Making the state: a pass over at most 40 rows for each array; each name, secret and entry is copied once.
pub fn load(book: &[u8]) -> Loaded
    ensures { told result ≡ loaded book.now }
{
    let mut loaded = Loaded {
        verdict: grammar::judge(book),
        blocks: 0,
        state: empty_state(),
    };
    if loaded.verdict.is_ok() {
        fill(&mut loaded.state, book);
    }
    loaded
}
