// Runs a case of a response file: whether it passes (specs/Run.antt).

#![tactic(auto)]

ghost use Rattle.std.specs.Prelude.{ℕ, ◌≤◌, ◌≡◌, List, length, drop};
ghost use Rattle.rsp_case.specs.Cases.{Field, first, case_of};
ghost use Rattle.rsp_case.specs.Store.{stored};
ghost use Rattle.rsp_run.specs.Run.{passes};
ghost use Rattle.rsp_run.specs.Walk.{OpensCase, Gives};

use reasons::Reason;
use same::same;
use slots::sizes;
use table::answers::Served;

pub mod field;
pub mod steps;

// Room for the longest string that a line returns.
const OUTPUT: usize = 2048;

// The most draws between two reseeds that an opening takes.
const INTERVAL: u64 = 1 << 48;

// What the opening was answered, and the bytes of the fields behind it, served or refused.
#[derive(Clone, Copy)]
pub struct Opened<'a> {
    pub outcome: Result<Served, Reason>,
    pub rest: &'a [u8],
}

// The first field's value, and the bytes of the fields behind it; where there is no field, no bytes.
fn value_first(fields: &[u8]) -> (&[u8], &[u8])
    ensures { (l : List Field) → fields.now ≡ stored l → (result.0.now ≡ first l) × (result.1.now ≡ stored (drop 1 l)) }
{
    match field::first_field(fields) {
        Some(f) => (f.value, f.rest),
        None => (b"", b""),
    }
}

// The first three fields are EntropyInput, Nonce and PersonalizationString. Any number may be asked for as the mechanism.
fn open_case<'a>(table: &mut [u8], mechanism: u64, fresh: bool, fields: &'a [u8]) -> Opened<'a>
    ensures { OpensCase fields.now mechanism fresh table.old result table.new }
{
    let (entropy, behind) = value_first(fields);
    let (nonce, last) = value_first(behind);
    let (personalization, rest) = value_first(last);
    let outcome = calls::open(
        table,
        mechanism,
        0,
        INTERVAL,
        fresh,
        entropy,
        nonce,
        personalization,
    );
    Opened { outcome, rest }
}

// Whether every step is served, and the last draw gives what was returned.
fn gives(table: &mut [u8], fields: &[u8], handle: u64, out: &mut [u8], returned: &[u8]) -> bool
    ensures { Gives fields.now handle table.old out.old returned.now result }
{
    let served = steps::run_steps(table, fields, handle, out);
    served.is_ok() & same(out, returned)
}

// Whether a case passes, whose fields stand in bytes, from a fresh table. Any number may be asked for as the mechanism.
pub fn passes(mechanism: u64, fresh: bool, fields: &[u8], returned: &[u8]) -> bool
    requires { length returned.now ≤ 2048 }
    ensures { (number : ℕ) (l : List Field) → fields.now ≡ stored l
        → result ≡ passes mechanism fresh (case_of number l returned.now) }
{
    let mut table = [0u8; sizes::TABLE];
    let opened = open_case(&mut table, mechanism, fresh, fields);
    let Ok(served) = opened.outcome else {
        return false;
    };
    let mut out = [0u8; OUTPUT];
    let n = returned.len();
    gives(
        &mut table,
        opened.rest,
        served.value,
        &mut out[..n],
        returned,
    )
}
