// How many draws are left.

#![tactic(auto)]

ghost use Rattle.std.specs.Prelude.{◌≡◌, []};
ghost use Rattle.table.specs.Calls.{inquires};
ghost use Rattle.table.specs.OnBytes.{leaving, told_of, in_bytes};

use reasons::Reason;
use slots::{handle, layout, sound};
use table::answers::Served;

#[tactic(auto, using(table::proofs::OnBytes::at_exits))]
pub fn inquire(table: &[u8], handle: u64) -> Result<Served, Reason>
    ensures { leaving (told_of result) table.now []
        ≡ in_bytes (inquires handle) table.now }
{
    if !sound::is_sound(table) {
        return Err(Reason::UnsoundTable);
    }
    let Some(i) = handle::look_up(table, handle) else {
        return Err(Reason::NoSuchGenerator);
    };
    let s = layout::slot_at(table, i);
    Ok(Served {
        blocks: 0,
        value: s.interval + 1 - s.counter,
    })
}
