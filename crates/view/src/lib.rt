// What a call may read of the state (document 01, "Numbers of refusal"): whether the state
// is sound, its counts, one host's group and record, and of one interface one entry. Every function takes all inputs, a state that
// nobody loaded too.

#![tactic(auto)]

ghost use Rattle.std.specs.Prelude.{◌≡◌, get_or};
ghost use Rattle.view.specs.Counted.{no_such, place};
ghost use Rattle.view.specs.View.{see};
ghost use Rattle.view.specs.Right.{right_of};

use state::{Record, Records, Rights};

// What a call about a host sees. `good` is no test of the other fields: they are there in a state that isn't sound too.
#[derive(Clone, Copy, Debug, PartialEq, Eq)]
pub struct View {
    pub good: bool,
    pub hosts: u16,
    pub interfaces: u16,
    pub group: u16,
    pub held: Record,
}

// What a command sees of the interface that it names, and of the entry.
#[derive(Clone, Copy, Debug, PartialEq, Eq)]
pub struct Right {
    pub commands: u16,
    pub entries: u16,
    pub owner: u16,
    pub word: u64,
    pub secret: [u8; 16],
}

// Whether there is no thing of that number: they are counted from 1.
#[tactic(auto, unfolding(crate::specs::Counted::no_such))]
pub fn no_such(n: u16, count: u16) -> bool
    ensures { result ≡ no_such n count }
{
    n == 0 || count < n
}

// Where thing n stands, from 0 on; `past` if there is no such thing. It is no Option, since `place` of specs/Counted has it so: what stands past
// the end of an array reads as 0.
#[tactic(auto, unfolding(crate::specs::Counted::place))]
fn place_of(n: u16, count: u16, past: usize) -> usize
    ensures { result ≡ place n count past }
{
    if no_such(n, count) {
        return past;
    }
    usize::from(n) - 1
}

// The value at place i, and `past` beyond the last.
fn value_at<T: Copy>(values: &[T], i: usize, past: T) -> T
    ensures { result ≡ get_or values.now i past }
{
    values.get(i).copied().unwrap_or(past)
}

// What a call about that host sees. Inlined, or each of the calls would copy the records for it.
#[inline(always)]
#[tactic(auto, unfolding(crate::specs::View::see))]
pub fn see(rights: Rights, records: Records, host: u16) -> View
    ensures { result ≡ see rights records host }
{
    let Rights {
        hosts,
        interfaces,
        groups,
        ..
    } = rights;
    let at = place_of(host, hosts, 32);
    View {
        good: state::sound(rights),
        hosts,
        interfaces,
        group: value_at(&groups, at, 0),
        held: state::record_at(records, at),
    }
}

// Entry e of interface i, and what the interface says of itself.
#[tactic(auto, unfolding(crate::specs::Right::right_of))]
pub fn right_at(rights: Rights, interface: u16, entry: u16) -> Right
    ensures { result ≡ right_of rights interface entry }
{
    let Rights {
        words,
        commands,
        entries,
        owners,
        secrets,
        ..
    } = rights;
    let i = place_of(interface, rights.interfaces, 8);
    let count = value_at(&entries, i, 0);
    let k = i * 16 + place_of(entry, count, 128);
    Right {
        commands: value_at(&commands, i, 0),
        entries: count,
        owner: value_at(&owners, k, 0),
        word: value_at(&words, k, 0),
        secret: octets::bytes_at(&secrets, i * 16),
    }
}
