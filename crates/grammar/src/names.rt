// Names: their letters, and that none is used twice within a kind.
ghost use Rattle.std.specs.Prelude.{◌≡◌, ◌<◌, ◌^◌, ℕ, length, ◌&&◌, eqb};
ghost use Rattle.octets.specs.Same.{same};
ghost use Rattle.layout.specs.Kinds.{kind_of};
ghost use Rattle.layout.specs.Layout as L;
ghost use Rattle.grammar.specs.Names.{letter, inner, all_inner, plain, fitting};
ghost use Rattle.grammar.specs.Faults.{first, each, fault_in};
ghost use Rattle.grammar.specs.Checks.{letter_checks, used_below};

use crate::Fault;
use layout::Kind;
use octets::Little;
use refusal::Refusal;

#[tactic(auto, unfolding(crate::specs::Names::letter))]
fn is_letter(c: u8) -> bool
    ensures { result ≡ letter c }
{
    matches!(c, b'A'..=b'Z' | b'a'..=b'z' | b'0'..=b'9' | b'-' | b'_' | b'+' | b'.' | b'/')
}

#[tactic(auto, unfolding(crate::specs::Names::inner))]
fn is_inner(c: u8) -> bool
    ensures { result ≡ inner c }
{
    is_letter(c) || c == b' '
}

// Whether all bytes of a name may stand inside one. No byte ends the loop, so that a compiler takes many at a time: the largest book is judged in 7.4
// microseconds, and with `name.iter().all(..)` in 36.8, with which loading would miss its bar (docs/BENCHMARKS.md).
fn all_inner(name: &[u8]) -> bool
    ensures { result ≡ all_inner name.now }
{
    let mut all = true;
    for &c in name {
        all &= is_inner(c);
    }
    all
}

// Whether a name has no bad letter.
#[tactic(auto, unfolding(crate::specs::Names::plain))]
fn is_plain(name: &[u8]) -> bool
    ensures { result ≡ plain name.now }
{
    let n = name.len();
    n == 0 || name[0] != b' ' && name[n - 1] != b' ' && all_inner(name)
}

// Whether byte k of a name may stand there: a letter, or a space inside.
#[tactic(auto, unfolding(crate::specs::Names::fitting, crate::specs::Names::inner_space))]
fn is_fitting(name: &[u8], k: usize) -> bool
    requires { k < length name.now }
    ensures { result ≡ fitting name.now k }
{
    is_letter(name[k]) || name[k] == b' ' && 0 < k && k + 1 < name.len()
}

// The letters of a name that stands at `at`. Most names are fine; only another is looked through for the first byte that doesn't fit.
#[tactic(auto, using(crate::proofs::FaultLaws::things), unfolding(crate::specs::Faults::first))]
pub(crate) fn judge_letters(name: &[u8], at: usize) -> Result<(), Fault>
    requires { at < 2 ^ 33 }
    ensures { fault_in result ≡ first (each (letter_checks at name.now) 0 (length name.now)) }
{
    if is_plain(name) {
        return Ok(());
    }
    for k in 0..name.len() {
        if !is_fitting(name, k) {
            return Err(Fault::at(Refusal::Letter, at + k));
        }
    }
    Ok(())
}

// Whether two names are the same. They are no secret: most pairs are told apart by their first or last eight bytes. `a == b` goes byte by byte: with it the
// largest book whose names differ in their last bytes is judged in 15.4 microseconds, and so in 7.5 (9.9 at the commit where docs/DESIGN-PASS.md begins).
#[tactic(auto, using(octets::proofs::SameLaws::differ_same))]
fn alike(a: &[u8], b: &[u8]) -> bool
    ensures { result ≡ same a.now b.now }
{
    let n = a.len();
    if n != b.len() {
        return false;
    }
    if u64::at(a, 0) != u64::at(b, 0) {
        return false;
    }
    if 8 <= n && u64::at(a, n - 8) != u64::at(b, n - 8) {
        return false;
    }
    octets::equal(a, b)
}

// Whether row j has that kind and that name.
#[tactic(auto, unfolding(layout::specs::Kinds::kind_of))]
fn twins(book: &[u8], j: u16, kind: Kind, name: &[u8]) -> bool
    ensures { (n : ℕ) → kind ≡ kind_of n → result ≡ (eqb (L.kind book.now j) n && same (L.name book.now j) name.now) }
{
    layout::kind(book, j) == kind && alike(layout::name(book, j), name)
}

// Whether a row before row i has its kind and its name.
#[tactic(auto, unfolding(crate::specs::Checks::used_below))]
pub(crate) fn used_before(book: &[u8], i: u16) -> bool
    ensures { result ≡ used_below book.now i i }
{
    let kind = layout::kind(book, i);
    let name = layout::name(book, i);
    (0..i).any(|j| twins(book, j, kind, name))
}
