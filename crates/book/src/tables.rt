// The arrays that hold one number, or one byte string, of each row. Rows come as a first and a count, as specs/Columns' `collect` counts
// them: of a range each bound would say end - start.
ghost use Rattle.std.specs.Prelude.{◌≡◌, ℕ, ◌+◌, ◌*◌, ◌≤◌, ◌<◌, List, length, replicate};
ghost use Rattle.book.specs.States.{fill, laid};
ghost use Rattle.book.specs.Columns.{collect, Short, Gives, GivesBytes};

// A number of each of the m rows from row `from` on, at the start of an array of 0s. By an index: k is the row's number, a u16, as well as
// the place; `enumerate` gives a usize, which would want a cast.
pub(crate) fn column<const N: usize, F: Fn(u16) -> u16>(from: u16, m: u16, f: F) -> [u16; N]
    requires { (m ≤ N) × (from + m ≤ 65535) × ((k : ℕ) → k < m → F.pre f (from + k)) }
    ensures { (g : ℕ → ℕ) → Gives (F.post f) g from m → result ≡ fill N (collect g from m) }
{
    let mut out = [0; N];
    for k in 0..m {
        out[usize::from(k)] = f(from + k);
    }
    out
}

// A byte string of each of the m rows from row `from` on, each at its own place of an array of 0s: w bytes for each. The array is lent, and not
// made here as in `column`: tried with `<'a, const N: usize, F>`, in both orders and with the call in a `let`, and each call of it stayed open with
// rattle's own message `known-1` (a type is wanted where N, a number, stands).
pub(crate) fn put_strings<'a, F: Fn(u16) -> &'a [u8]>(
    out: &mut [u8],
    w: usize,
    from: u16,
    m: u16,
    f: F,
)
    requires { (w * m ≤ length out.old) × (out.old ≡ replicate (length out.old) 0) × (from + m ≤ 65535) × F.IsAlwaysCallable f }
    ensures { (g : ℕ → List ℕ) → GivesBytes (F.post f) g from m → Short w g from m → out.new ≡ fill (length out.old) (laid w (collect g from m)) }
{
    for k in 0..m {
        octets::put(out, w * usize::from(k), f(from + k));
    }
}
