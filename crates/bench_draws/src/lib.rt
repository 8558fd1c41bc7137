// Openings and draws on numbers and lent slices, for the bench: a generator's two fields go in, and its successor's come back.
// The exports have C's arguments, numbers among them.

#![tactic(auto)]

ghost use Rattle.std.specs.Prelude.{◌≡◌, [], length};
ghost use Rattle.bench_draws.specs.Held.{in_limits, opened_in, drawn_in};

use drbg::generator;

fn field_of(s: &[u8]) -> [u8; 55]
    requires { length s.now ≡ 55 }
    ensures { result ≡ s.now }
{
    copies::part(s, 0)
}

fn put(to: &mut [u8], field: [u8; 55])
    requires { length to.old ≡ 55 }
    ensures { to.new ≡ field }
{
    to.copy_from_slice(&field);
}

// Whether two fields are whole, and two numbers are within their limits.
fn in_limits(first: usize, second: usize, a: usize, most: usize, b: u64, limit: u64) -> bool
    ensures { result ≡ in_limits first second a most b limit }
{
    ((first == 55) & (second == 55)) & ((a <= most) & (b <= limit))
}

// The blocks that were consumed; 0 and nothing done where a length is not one that the bench uses.
#[unsafe(no_mangle)]
pub extern "C" fn purangsa_bench_open<'a>(
    mechanism: u8,
    entropy: &'a [u8],
    nonce: &'a [u8],
    first: &mut [u8],
    second: &mut [u8],
) -> u64
    ensures { record { first = first.new; second = second.new; blocks = result; output = [] }
        ≡ opened_in mechanism entropy.now nonce.now first.old second.old }
{
    if !in_limits(
        first.len(),
        second.len(),
        entropy.len(),
        1024,
        nonce.len() as u64,
        64,
    ) {
        return 0;
    }
    let mut a = [0u8; 55];
    let mut b = [0u8; 55];
    let blocks = generator::opened(mechanism, &mut a, &mut b, entropy, nonce, &[]);
    put(first, a);
    put(second, b);
    blocks
}

#[unsafe(no_mangle)]
pub extern "C" fn purangsa_bench_draw(
    mechanism: u8,
    first: &mut [u8],
    second: &mut [u8],
    counter: u64,
    additional: &[u8],
    out: &mut [u8],
) -> u64
    ensures { record { first = first.new; second = second.new; blocks = result; output = out.new }
        ≡ drawn_in mechanism first.old second.old counter additional.now out.old }
{
    if !in_limits(
        first.len(),
        second.len(),
        out.len(),
        65536,
        additional.len() as u64,
        1024,
    ) {
        return 0;
    }
    let mut a = field_of(first);
    let mut b = field_of(second);
    let blocks = generator::drawn(mechanism, &mut a, &mut b, counter, additional, out);
    put(first, a);
    put(second, b);
    blocks
}
