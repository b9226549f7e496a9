// What a book is (document 01, "The book" and, of "Numbers of refusal", the book): its first fault, if it has one.
//
// Every byte string is judged. Each letter and each word of a body is looked at once; each row is also looked at with every row before
// it, and where both are of a kind their names are compared. A book has at most 12,232 bytes and 40 rows: 780 pairs of rows at
// most, and 524 comparisons of names of at most 256 bytes.

#![tactic(auto, unfolding(crate::specs::Faults::first))]

mod bodies;
mod names;
mod rows;

ghost use Rattle.std.specs.Prelude.{◌≡◌};
ghost use Rattle.refusal.specs.Numbers.{refusal_number};
ghost use Rattle.grammar.specs.Faults.{first, fault, fault_in};
ghost use Rattle.grammar.specs.Checks.{head_checks, fault_of};

use refusal::Refusal;

// Why a book is refused, and the place of its fault.
#[derive(Clone, Copy, Debug, PartialEq, Eq)]
pub struct Fault {
    pub why: Refusal,
    pub offset: usize,
}

impl Fault {
    fn at(why: Refusal, offset: usize) -> Fault
        ensures { fault_in (Err result) ≡ fault (refusal_number why) offset }
    {
        Fault { why, offset }
    }
}

fn judge_head(book: &[u8]) -> Result<(), Fault>
    ensures { fault_in result ≡ first (head_checks book.now) }
{
    if book.len() < 8 {
        return Err(Fault::at(Refusal::Size, 0));
    }
    if 12232 < book.len() {
        return Err(Fault::at(Refusal::Size, 0));
    }
    if layout::total(book) != book.len() {
        return Err(Fault::at(Refusal::Size, 4));
    }
    if layout::format(book) != 1 {
        return Err(Fault::at(Refusal::Format, 0));
    }
    let n = layout::rows(book);
    if n == 0 {
        return Err(Fault::at(Refusal::Rows, 2));
    }
    if 40 < n {
        return Err(Fault::at(Refusal::Rows, 2));
    }
    if book.len() < layout::row(n) {
        return Err(Fault::at(Refusal::Rows, 2));
    }
    Ok(())
}

// The first fault of a book.
pub fn judge(book: &[u8]) -> Result<(), Fault>
    ensures { fault_in result ≡ fault_of book.now }
{
    judge_head(book)?;
    let n = layout::rows(book);
    rows::judge_rows(book, n)?;
    bodies::judge_bodies(book, n)
}
