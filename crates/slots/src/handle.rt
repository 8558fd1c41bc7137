// Where a handle leads, and the lowest free slot.
ghost use Rattle.slots.specs.Sizes.{table_size};
ghost use Rattle.std.specs.Prelude.{◌≡◌, ◌-◌, ◌<◌, ◌≤◌, length, IfSome, unwrap_or};
ghost use Rattle.slots.specs.Handle.{look_up, handle_of, lowest_free};
ghost use Rattle.slots.specs.Bytes.{table_of};

use crate::layout;

// The slot that a handle leads to.
#[tactic(auto, unfolding(crate::specs::Handle::look_up, crate::specs::Handle::names))]
pub fn look_up(table: &[u8], handle: u64) -> Option<usize>
    requires { length table.now ≡ table_size }
    ensures { result ≡ look_up (table_of table.now) handle }
{
    let i = (handle % 16) as usize;
    let s = layout::slot_at(table, i);
    let serial = u64::from(s.serial);
    ((s.mechanism != 0) & (serial == handle / 16)).then_some(i)
}

pub fn handle_of(serial: u32, i: usize) -> u64
    requires { i < 16 }
    ensures { result ≡ handle_of serial i }
{
    16 * u64::from(serial) + i as u64
}

// The lowest free slot of those from `from` up to below `to`.
pub fn lowest_free(table: &[u8], from: usize, to: usize) -> Option<usize>
    requires { (length table.now ≡ table_size) × (from ≤ to) × (to ≤ 16) }
    ensures lowest { unwrap_or result to ≡ lowest_free (table_of table.now) from (to - from) }
    ensures within { IfSome result (λ i. (from ≤ i) × (i < to)) }
{
    (from..to).find(|i| layout::slot_at(table, *i).mechanism == 0)
}
