// The bodies, one after the other: an interface's counts and words, and the names.
ghost use Rattle.std.specs.Prelude.{◌≡◌};
ghost use Rattle.layout.specs.Layout as L;
ghost use Rattle.grammar.specs.Faults.{first, each, fault_in};
ghost use Rattle.grammar.specs.Checks.{span_checks, count_checks, word_checks, name_checks, interface_checks, body_checks};

use crate::{Fault, names};
use layout::Kind;
use refusal::Refusal;

// Whether an interface's entries leave a name of 1 to 256 bytes.
fn judge_span(book: &[u8], i: u16) -> Result<(), Fault>
    ensures { fault_in result ≡ first (span_checks book.now i) }
{
    let e = usize::from(layout::entries(book, i));
    if !octets::between(21 + 10 * e, 276 + 10 * e, layout::size(book, i)) {
        return Err(Fault::at(Refusal::Counts, layout::start(book, i) + 18));
    }
    Ok(())
}

fn judge_counts(book: &[u8], i: u16) -> Result<(), Fault>
    ensures { fault_in result ≡ first (count_checks book.now i) }
{
    let body = layout::start(book, i);
    if !octets::between(1, 64, usize::from(layout::commands(book, i))) {
        return Err(Fault::at(Refusal::Counts, body + 16));
    }
    if !octets::between(1, 16, usize::from(layout::entries(book, i))) {
        return Err(Fault::at(Refusal::Counts, body + 18));
    }
    judge_span(book, i)
}

#[tactic(auto, using(crate::proofs::FaultLaws::things), unfolding(crate::specs::Faults::first))]
fn judge_words(book: &[u8], i: u16) -> Result<(), Fault>
    ensures { fault_in result ≡ first (each (word_checks book.now i) 0 (L.entries book.now i)) }
{
    let c = layout::commands(book, i);
    let body = layout::start(book, i);
    for j in 0..layout::entries(book, i) {
        if !octets::word_fits(layout::word(book, i, j), c) {
            return Err(Fault::at(Refusal::Permitted, body + 22 + 10 * usize::from(j)));
        }
    }
    Ok(())
}

fn judge_name(book: &[u8], i: u16) -> Result<(), Fault>
    ensures { fault_in result ≡ first (name_checks book.now i) }
{
    let at = layout::name_start(book, i);
    names::judge_letters(layout::name(book, i), at)?;
    if names::used_before(book, i) {
        return Err(Fault::at(Refusal::NameUsed, at));
    }
    Ok(())
}

fn judge_interface(book: &[u8], i: u16) -> Result<(), Fault>
    ensures { fault_in result ≡ first (interface_checks book.now i) }
{
    judge_counts(book, i)?;
    judge_words(book, i)
}

fn judge_body(book: &[u8], i: u16) -> Result<(), Fault>
    ensures { fault_in result ≡ first (body_checks book.now i) }
{
    if layout::kind(book, i) != Kind::Host {
        judge_interface(book, i)?;
    }
    judge_name(book, i)
}

// All n bodies.
#[tactic(auto, using(crate::proofs::FaultLaws::things))]
pub(crate) fn judge_bodies(book: &[u8], n: u16) -> Result<(), Fault>
    ensures { fault_in result ≡ first (each (body_checks book.now) 0 n) }
{
    for i in 0..n {
        judge_body(book, i)?;
    }
    Ok(())
}
