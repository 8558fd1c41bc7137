// SP 800-90A §9.3, without prediction resistance: a plain draw never reseeds.

#![tactic(auto)]

ghost use Rattle.std.specs.Prelude.{◌≡◌};
ghost use Rattle.table.specs.Calls.{draws};
ghost use Rattle.table.specs.OnBytes.{leaving, told_of, in_bytes};

use drbg::generator;
use reasons::Reason;
use slots::slot::Slot;
use slots::{handle, layout, sound};
use table::answers;
use table::answers::Served;

#[tactic(auto, using(table::proofs::OnBytes::at_exits, reasons::proofs::Allowed::draw_found))]
pub fn draw(
    table: &mut [u8],
    handle: u64,
    strength: u64,
    additional: &[u8],
    out: &mut [u8],
) -> Result<Served, Reason>
    ensures { leaving (told_of result) table.new out.new
        ≡ in_bytes (draws handle strength out.old additional.now) table.old }
{
    if !sound::is_sound(table) {
        return Err(Reason::UnsoundTable);
    }
    let Some(i) = handle::look_up(table, handle) else {
        return Err(Reason::NoSuchGenerator);
    };
    let s = layout::slot_at(table, i);
    reasons::draw_reason(
        s.strength,
        s.interval,
        s.counter,
        strength,
        out.len(),
        additional.len(),
    )?;
    let Slot {
        mut first,
        mut second,
        counter,
        ..
    } = s;
    let counted = counter + 1;
    let blocks = generator::drawn(
        s.mechanism,
        &mut first,
        &mut second,
        counter,
        additional,
        out,
    );
    let next = Slot {
        counter: counted,
        first,
        second,
        ..s
    };
    Ok(answers::stepped(table, i, next, blocks))
}
