// SP 800-90A §9.3, with prediction resistance: a reseed, then a draw with no additional input. Reseed due is no reason here.

#![tactic(auto)]

ghost use Rattle.std.specs.Prelude.{◌≡◌};
ghost use Rattle.table.specs.Calls.{fresh_draws};
ghost use Rattle.table.specs.OnBytes.{leaving, told_of, in_bytes};

use drbg::generator;
use reasons::Reason;
use slots::slot::Slot;
use slots::{handle, layout, sound};
use table::answers;
use table::answers::Served;

#[tactic(auto, using(table::proofs::OnBytes::at_exits, reasons::proofs::Allowed::fresh_draw_found))]
#[inline(always)]
pub fn fresh_draw<'a>(
    table: &mut [u8],
    handle: u64,
    strength: u64,
    entropy: &'a [u8],
    additional: &'a [u8],
    out: &mut [u8],
) -> Result<Served, Reason>
    ensures { leaving (told_of result) table.new out.new
        ≡ in_bytes (fresh_draws handle strength out.old entropy.now additional.now) table.old }
{
    if !sound::is_sound(table) {
        return Err(Reason::UnsoundTable);
    }
    let Some(i) = handle::look_up(table, handle) else {
        return Err(Reason::NoSuchGenerator);
    };
    let s = layout::slot_at(table, i);
    reasons::fresh_draw_reason(
        s.strength,
        s.fresh,
        strength,
        out.len(),
        entropy.len(),
        additional.len(),
    )?;
    let Slot {
        mut first,
        mut second,
        ..
    } = s;
    let blocks = generator::fresh_drawn(
        s.mechanism,
        &mut first,
        &mut second,
        entropy,
        additional,
        out,
    );
    let next = Slot {
        counter: 2,
        first,
        second,
        ..s
    };
    Ok(answers::stepped(table, i, next, blocks))
}
