// SP 800-90A §9.4: every field of the slot goes to zero.

#![tactic(auto)]

ghost use Rattle.std.specs.Prelude.{◌≡◌, []};
ghost use Rattle.table.specs.Calls.{closes};
ghost use Rattle.table.specs.OnBytes.{leaving, told_of, in_bytes};

use reasons::Reason;
use slots::{handle, layout, slot, sound};
use table::answers::Served;

#[tactic(auto, using(table::proofs::OnBytes::at_exits))]
pub fn close(table: &mut [u8], handle: u64) -> Result<Served, Reason>
    ensures { leaving (told_of result) table.new []
        ≡ in_bytes (closes handle) table.old }
{
    if !sound::is_sound(table) {
        return Err(Reason::UnsoundTable);
    }
    let Some(i) = handle::look_up(table, handle) else {
        return Err(Reason::NoSuchGenerator);
    };
    layout::put_slot(table, i, slot::free_slot());
    Ok(Served {
        blocks: 0,
        value: 0,
    })
}
