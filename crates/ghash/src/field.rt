// Multiplication of blocks: SP 800-38D, section 6.3, algorithm 1. A block is the number that its bits write, the first bit highest.
//
// Algorithm 1 adds V_i to Z for each bit x_i that is set, and V_i+1 is V_i times x. Here bits i, 32 + i, 64 + i and 96 + i are
// looked at in one turn: all four add the same V_i, to four sums, since V_k+i is V_i times x^k and multiplying by x^k keeps sums. At
// the end the sums are taken together from the last on, times x^32 in one go. That leaves a quarter of the work on V. X is doubled
// in each turn, so that the bits to look at stay at the same places.
ghost use Rattle.std.specs.Prelude.{◌≡◌, ◌-◌, ◌*◌, ◌%◌, ◌^◌, ◌<◌, ◌≤◌};
ghost use Rattle.ghash.specs.Field.{next_z, next_v, v_i, dot};

// R
const R: u128 = 0xe1 << 120;

// z where b is 0, z ⊕ v where b is 1, without a branch. The mask is one word twice: a mask of 128 bits at once takes a tenth longer.
fn add(b: u64, z: u128, v: u128) -> u128
    requires { b < 2 }
    ensures { result ≡ next_z b z v }
{
    let half = u128::from(b * u64::MAX);
    z ^ (v & (half << 64 | half))
}

// v times x: v >> 1, ⊕ R where the bit shifted out is 1. Here and in `mul` `as` loses nothing, which the check proves, and std has no `From` that
// narrows.
fn times_x(v: u128) -> u128
    ensures { result ≡ next_v v }
{
    add((v % 2) as u64, v >> 1, R)
}

// v times x^32: v >> 32, and R brings back the 32 bits shifted out, L, as L, L >> 1, L >> 2 and L >> 7.
fn times_x32(v: u128) -> u128
    ensures { result ≡ v_i v 32 }
{
    let l = v << 96;
    (v >> 32) ^ (l ^ (l >> 1) ^ (l >> 2) ^ (l >> 7))
}

// X • Y, where only the first 32 * N bits of X may be set: so many of the four sums are all.
pub(crate) fn mul<const N: usize>(mut x: u128, y: u128) -> u128
    requires four { N ≤ 4 }
    requires rest { x % 2 ^ (128 - 32 * N) ≡ 0 }
    ensures { result ≡ dot x y }
{
    let mut sums = [0; N];
    let mut v = y;
    for _ in 0..32u32 {
        for (j, sum) in sums.iter_mut().enumerate() {
            *sum = add(((x >> (127 - 32 * j)) % 2) as u64, *sum, v);
        }
        v = times_x(v);
        x <<= 1;
    }
    let mut z = 0;
    for sum in sums.iter().rev() {
        z = times_x32(z) ^ sum;
    }
    z
}
