// The library that C and Rust link: the six calls on a table in the caller's 2,148 bytes, and a test of them. include/purangsa.h says what
// each promises. Names, arguments and numbers are C's, so an export is written out for each call.

#![tactic(auto)]

ghost use Rattle.std.specs.Prelude.{◌≡◌, [], not, eqb};
ghost use Rattle.table.specs.Calls.{opens, reseeds, draws, fresh_draws, closes, inquires};
ghost use Rattle.table.specs.OnBytes.{told_of, in_bytes};
ghost use Rattle.capi.specs.Left.{leaves};
ghost use Rattle.self_test.specs.SelfTest.{first_differing};

use reasons::Reason;
use table::answers::{Served, told};

// What a call tells goes out by the result and the two pointers.
fn tell(outcome: Result<Served, Reason>, blocks: &mut u64, value: &mut u64) -> u64
    ensures { record { number = result; blocks = blocks.new; value = value.new } ≡ told_of outcome }
{
    let (number, told_blocks, told_value) = told(outcome);
    *blocks = told_blocks;
    *value = told_value;
    number
}

// `fresh` is C's truth: 0 is no, any other number is yes.
#[unsafe(no_mangle)]
pub extern "C" fn purangsa_open<'a>(
    table: &mut [u8],
    mechanism: u64,
    strength: u64,
    interval: u64,
    fresh: u64,
    entropy: &'a [u8],
    nonce: &'a [u8],
    personalization: &'a [u8],
    blocks: &mut u64,
    value: &mut u64,
) -> u64
    ensures { leaves result blocks.new value.new table.new []
        ≡ in_bytes
        (opens mechanism strength interval (not (eqb fresh 0)) entropy.now nonce.now personalization.now)
        table.old }
{
    tell(
        calls::open(
            table,
            mechanism,
            strength,
            interval,
            fresh != 0,
            entropy,
            nonce,
            personalization,
        ),
        blocks,
        value,
    )
}

#[unsafe(no_mangle)]
pub extern "C" fn purangsa_reseed<'a>(
    table: &mut [u8],
    handle: u64,
    entropy: &'a [u8],
    additional: &'a [u8],
    blocks: &mut u64,
    value: &mut u64,
) -> u64
    ensures { leaves result blocks.new value.new table.new []
        ≡ in_bytes (reseeds handle entropy.now additional.now)
        table.old }
{
    tell(
        calls::reseed(table, handle, entropy, additional),
        blocks,
        value,
    )
}

#[unsafe(no_mangle)]
pub extern "C" fn purangsa_draw(
    table: &mut [u8],
    handle: u64,
    strength: u64,
    additional: &[u8],
    output: &mut [u8],
    blocks: &mut u64,
    value: &mut u64,
) -> u64
    ensures { leaves result blocks.new value.new table.new output.new
        ≡ in_bytes (draws handle strength output.old additional.now)
        table.old }
{
    tell(
        calls::draw(table, handle, strength, additional, output),
        blocks,
        value,
    )
}

#[unsafe(no_mangle)]
pub extern "C" fn purangsa_fresh_draw<'a>(
    table: &mut [u8],
    handle: u64,
    strength: u64,
    entropy: &'a [u8],
    additional: &'a [u8],
    output: &mut [u8],
    blocks: &mut u64,
    value: &mut u64,
) -> u64
    ensures { leaves result blocks.new value.new table.new output.new
        ≡ in_bytes (fresh_draws handle strength output.old entropy.now additional.now)
        table.old }
{
    tell(
        calls::fresh_draw(table, handle, strength, entropy, additional, output),
        blocks,
        value,
    )
}

#[unsafe(no_mangle)]
pub extern "C" fn purangsa_close(
    table: &mut [u8],
    handle: u64,
    blocks: &mut u64,
    value: &mut u64,
) -> u64
    ensures { leaves result blocks.new value.new table.new []
        ≡ in_bytes (closes handle)
        table.old }
{
    tell(calls::close(table, handle), blocks, value)
}

// The table is only read.
#[unsafe(no_mangle)]
pub extern "C" fn purangsa_inquire(
    table: &[u8],
    handle: u64,
    blocks: &mut u64,
    value: &mut u64,
) -> u64
    ensures { leaves result blocks.new value.new table.now []
        ≡ in_bytes (inquires handle)
        table.now }
{
    tell(calls::inquire(table, handle), blocks, value)
}

// SP 800-90A §11.3, known-answer tests: 0, or the number of the first case that differs.
#[unsafe(no_mangle)]
pub extern "C" fn purangsa_self_test() -> u64
    ensures { result ≡ first_differing }
{
    self_test::self_test()
}
