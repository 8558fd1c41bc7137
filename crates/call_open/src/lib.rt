// SP 800-90A §9.1: an opening takes the next serial and the lowest free slot.

#![tactic(auto)]

ghost use Rattle.std.specs.Prelude.{◌≡◌, []};
ghost use Rattle.table.specs.Calls.{opens};
ghost use Rattle.table.specs.OnBytes.{leaving, told_of, in_bytes};

use drbg::generator;
use reasons::Reason;
use slots::handle::handle_of;
use slots::{handle, layout, sound};
use table::answers::{Served, new_slot};

#[tactic(auto, using(table::proofs::OnBytes::at_exits))]
// Any number may be asked for as the mechanism: 3 answers those that name none.
pub fn open<'a>(
    table: &mut [u8],
    mechanism: u64,
    strength: u64,
    interval: u64,
    fresh: bool,
    entropy: &'a [u8],
    nonce: &'a [u8],
    personalization: &'a [u8],
) -> Result<Served, Reason>
    ensures { leaving (told_of result) table.new []
        ≡ in_bytes (opens mechanism strength interval fresh entropy.now nonce.now personalization.now)
        table.old }
{
    if !sound::is_sound(table) {
        return Err(Reason::UnsoundTable);
    }
    let slot = handle::lowest_free(table, 0, 16);
    let last = layout::last_serial(table);
    reasons::open_reason(
        mechanism,
        strength,
        interval,
        entropy.len(),
        nonce.len(),
        personalization.len(),
        slot,
        last,
    )?;
    let i = slot.unwrap();
    let kind = mechanism as u8;
    let serial = last + 1;
    let mut first = [0u8; 55];
    let mut second = [0u8; 55];
    let blocks = generator::opened(
        kind,
        &mut first,
        &mut second,
        entropy,
        nonce,
        personalization,
    );
    let s = new_slot(
        kind,
        reasons::rounded(strength),
        interval,
        fresh,
        serial,
        first,
        second,
    );
    layout::put_new_slot(table, i, serial, s);
    Ok(Served {
        blocks,
        value: handle_of(serial, i),
    })
}
