// Sums of 440-bit numbers, big-endian, modulo 2^440: a number's 55 bytes and one byte behind them are seven limbs of eight bytes.
// No carry is branched on.

#![tactic(auto)]

ghost use Rattle.std.specs.Prelude.{◌≡◌, ◌+◌, ◌/◌, ◌%◌, ◌^◌, ◌<◌, ◌≤◌, [], ◌∷◌, ◌++◌, length, take, drop};
ghost use Rattle.standard.specs.Strings.{number_of, bytes_of};
ghost use Rattle.sums.specs.Limbs.{string_of, value_in};

use std::array;

// The eight bytes from `at` on as a limb.
fn limb_at(s: &[u8], at: usize) -> u64
    requires { at + 8 ≤ length s.now }
    ensures { bytes_of 8 result ≡ take 8 (drop at s.now) }
{
    u64::from_be_bytes(copies::part(s, at))
}

// The limbs of s and of the byte behind it.
pub fn limbs_of(s: [u8; 55], last: u8) -> [u64; 7]
    ensures { string_of result ≡ s ++ (last ∷ []) }
{
    let mut whole = [last; 56];
    copies::copy(&mut whole, 0, &s);
    array::from_fn(|i| limb_at(&whole, 8 * i))
}

// The limbs' bytes, over the first 56 of a block. By place: of what is written through chunks_mut a proof knows the length alone.
pub fn put_limbs(block: &mut [u8; 64], limbs: [u64; 7])
    ensures { block.new ≡ string_of limbs ++ drop 56 block.old }
{
    for (i, limb) in limbs.iter().enumerate() {
        copies::copy(block, 8 * i, &limb.to_be_bytes());
    }
}

// a + b, modulo 2^448
pub fn plus(a: [u64; 7], b: [u64; 7]) -> [u64; 7]
    ensures { string_of result ≡ bytes_of 56 (number_of (string_of a) + number_of (string_of b)) }
{
    let mut sum = a;
    let mut carry = 0;
    // By place, from the last to the first: of what is written through iter_mut a proof knows the length alone. A sum that wraps is below
    // each of its parts, and this comparison is the carry: the library's carrying_add branches on the sum.
    for i in (0..7).rev() {
        let low = a[i].wrapping_add(b[i]);
        let last = low.wrapping_add(carry);
        sum[i] = last;
        carry = u64::from(low < a[i]) + u64::from(last < low);
    }
    sum
}

// The limbs' bytes but the last.
fn number_of(limbs: [u64; 7]) -> [u8; 55]
    ensures { result ≡ value_in limbs }
{
    let mut block = [0; 64];
    put_limbs(&mut block, limbs);
    copies::part(&block, 0)
}

// A number of fewer bytes as one of 55: the library widens no string of bytes.
fn widened(s: &[u8]) -> [u8; 55]
    requires { length s.now ≤ 55 }
    ensures { number_of result ≡ number_of s.now }
{
    let mut w = [0; 55];
    copies::copy(&mut w, 55 - s.len(), s);
    w
}

// v + h + c + n
#[inline(always)]
pub fn total(v: [u8; 55], h: [u8; 32], c: [u8; 55], n: u64) -> [u8; 55]
    ensures { result ≡ bytes_of 55 (number_of v + (number_of h + number_of c + n)) }
{
    let moved = plus(limbs_of(v, 0), limbs_of(widened(&h), 0));
    let more = plus(moved, limbs_of(c, 0));
    number_of(plus(more, limbs_of(widened(&n.to_be_bytes()), 0)))
}
