// SP 800-90A §9.2.

#![tactic(auto)]

ghost use Rattle.std.specs.Prelude.{◌≡◌, []};
ghost use Rattle.table.specs.Calls.{reseeds};
ghost use Rattle.table.specs.OnBytes.{leaving, told_of, in_bytes};

use drbg::generator;
use reasons::Reason;
use slots::slot::Slot;
use slots::{handle, layout, sound};
use table::answers;
use table::answers::Served;

#[tactic(auto, using(table::proofs::OnBytes::at_exits, reasons::proofs::Allowed::reseed_found))]
pub fn reseed<'a>(
    table: &mut [u8],
    handle: u64,
    entropy: &'a [u8],
    additional: &'a [u8],
) -> Result<Served, Reason>
    ensures { leaving (told_of result) table.new []
        ≡ in_bytes (reseeds handle entropy.now additional.now) table.old }
{
    if !sound::is_sound(table) {
        return Err(Reason::UnsoundTable);
    }
    let Some(i) = handle::look_up(table, handle) else {
        return Err(Reason::NoSuchGenerator);
    };
    let s = layout::slot_at(table, i);
    reasons::reseed_reason(s.strength, entropy.len(), additional.len())?;
    let Slot {
        mut first,
        mut second,
        ..
    } = s;
    let blocks = generator::reseeded(s.mechanism, &mut first, &mut second, entropy, additional);
    let next = Slot {
        counter: 1,
        first,
        second,
        ..s
    };
    Ok(answers::stepped(table, i, next, blocks))
}
