// The contents list, row by row: kind and id, start and length. h, how many hosts stand before row i, goes beside book and i: a struct of the
// three would hold h ≡ hosts_before, which is more than the two functions that need h ≤ i ask for.
ghost use Rattle.std.specs.Prelude.{◌≡◌, ◌≤◌, ◌<◌};
ghost use Rattle.layout.specs.Layout.{hosts_before};
ghost use Rattle.grammar.specs.Faults.{first, each, fault_in};
ghost use Rattle.grammar.specs.Checks.{kind_fits, ordinal, size_fits, end_checks, identity_checks, place_checks, row_checks};
ghost use Rattle.layout.specs.Layout as L;

use crate::Fault;
use layout::Kind;
use refusal::Refusal;

// Whether row i may be of its kind where h of the rows before it are hosts.
#[tactic(auto, unfolding(layout::specs::Kinds::kind_of, crate::specs::Checks::kind_fits))]
fn kind_fits(book: &[u8], i: u16, h: u16) -> bool
    requires { h ≤ i }
    ensures { result ≡ kind_fits (L.kind book.now i) i h }
{
    match layout::kind(book, i) {
        Kind::Host => h == i && i < 32,
        Kind::Interface => 0 < h && i - h < 8,
        Kind::Other(_) => false,
    }
}

// The id that row i has within its kind.
#[tactic(auto, unfolding(layout::specs::Kinds::kind_of, crate::specs::Checks::ordinal))]
fn ordinal(book: &[u8], i: u16, h: u16) -> usize
    requires { h ≤ i }
    ensures { result ≡ ordinal (L.kind book.now i) i h }
{
    match layout::kind(book, i) {
        Kind::Host => usize::from(i) + 1,
        _ => usize::from(i - h) + 1,
    }
}

#[tactic(auto, unfolding(layout::specs::Kinds::kind_of, crate::specs::Checks::size_fits))]
fn size_fits(book: &[u8], i: u16) -> bool
    ensures { result ≡ size_fits (L.kind book.now i) (L.size book.now i) }
{
    let size = layout::size(book, i);
    match layout::kind(book, i) {
        Kind::Host => octets::between(3, 258, size),
        _ => octets::between(31, 436, size),
    }
}

// Where body i has to start: after the rows, or where the last body ended.
#[tactic(auto, unfolding(layout::specs::Layout::expected))]
fn expected(book: &[u8], i: u16) -> usize
    ensures { result ≡ L.expected book.now i }
{
    if i == 0 {
        return layout::row(layout::rows(book));
    }
    layout::start(book, i - 1) + layout::size(book, i - 1)
}

// Kind and id of row i, h of the rows before it being hosts.
fn judge_identity(book: &[u8], i: u16, h: u16) -> Result<(), Fault>
    requires { h ≡ hosts_before book.now i }
    ensures { fault_in result ≡ first (identity_checks book.now i) }
{
    let at = layout::row(i);
    if !kind_fits(book, i, h) {
        return Err(Fault::at(Refusal::KindOrId, at));
    }
    if layout::id(book, i) != ordinal(book, i, h) {
        return Err(Fault::at(Refusal::KindOrId, at + 2));
    }
    Ok(())
}

// Start and length of row i.
fn judge_place(book: &[u8], i: u16) -> Result<(), Fault>
    ensures { fault_in result ≡ first (place_checks book.now i) }
{
    let at = layout::row(i);
    let start = layout::start(book, i);
    if start != expected(book, i) {
        return Err(Fault::at(Refusal::StartOrLength, at + 4));
    }
    if !size_fits(book, i) {
        return Err(Fault::at(Refusal::StartOrLength, at + 8));
    }
    judge_end(book, i, start + layout::size(book, i))
}

// Row i, h of the rows before it being hosts.
fn judge_row(book: &[u8], i: u16, h: u16) -> Result<(), Fault>
    requires { h ≡ hosts_before book.now i }
    ensures { fault_in result ≡ first (row_checks book.now i) }
{
    judge_identity(book, i, h)?;
    judge_place(book, i)
}

// Where body i ends: not past the total, and the last one there.
fn judge_end(book: &[u8], i: u16, end: usize) -> Result<(), Fault>
    ensures { fault_in result ≡ first (end_checks book.now i end) }
{
    let at = layout::row(i);
    let total = layout::total(book);
    if total < end {
        return Err(Fault::at(Refusal::StartOrLength, at + 8));
    }
    if usize::from(i) + 1 == usize::from(layout::rows(book)) && end != total {
        return Err(Fault::at(Refusal::StartOrLength, at + 8));
    }
    Ok(())
}

// All n rows.
#[tactic(auto, using(crate::proofs::FaultLaws::things), unfolding(layout::specs::Layout::hosts_before))]
pub(crate) fn judge_rows(book: &[u8], n: u16) -> Result<(), Fault>
    ensures { fault_in result ≡ first (each (row_checks book.now) 0 n) }
{
    let mut hosts = 0;
    for i in 0..n {
        judge_row(book, i, hosts)?;
        if layout::kind(book, i) == Kind::Host {
            hosts += 1;
        }
    }
    Ok(())
}
