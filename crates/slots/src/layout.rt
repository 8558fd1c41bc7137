// The table in its 2,148 bytes: 16 slots of 134, then the last serial. Only these functions know where each stands.
ghost use Rattle.slots.specs.Sizes.{slot_size, table_size};
ghost use Rattle.std.specs.Prelude.{◌≡◌, ◌<◌, length};
ghost use Rattle.slots.specs.Layout.{slot_at, with_slot, last_serial, with_last_serial};
ghost use Rattle.slots.specs.Slots.{slot_from};
ghost use Rattle.slots.specs.Bytes.{table_of, table_bytes};

use crate::slot::Slot;
use crate::{sizes, slot};

// The 134 bytes of slot i.
pub(crate) fn place(table: &[u8], i: usize) -> &[u8]
    requires { (length table.now ≡ table_size) × (i < 16) }
    ensures sized { length result.now ≡ slot_size }
    ensures slot { slot_from result.now ≡ slot_at (table_of table.now) i }
{
    let at = sizes::SLOT * i;
    &table[at..at + sizes::SLOT]
}

pub fn slot_at(table: &[u8], i: usize) -> Slot
    requires { (length table.now ≡ table_size) × (i < 16) }
    ensures { result ≡ slot_at (table_of table.now) i }
{
    slot::slot_from(place(table, i))
}

pub fn put_slot(table: &mut [u8], i: usize, s: Slot)
    requires { (length table.old ≡ table_size) × (i < 16) }
    ensures { table.new ≡ table_bytes (with_slot (table_of table.old) i s) }
{
    let at = sizes::SLOT * i;
    slot::put(&mut table[at..at + sizes::SLOT], s);
}

pub fn last_serial(table: &[u8]) -> u32
    requires { length table.now ≡ table_size }
    ensures { result ≡ last_serial (table_of table.now) }
{
    u32::from_le_bytes(copies::part(table, sizes::LAST))
}

pub fn put_last_serial(table: &mut [u8], last: u32)
    requires { length table.old ≡ table_size }
    ensures { table.new ≡ table_bytes (with_last_serial (table_of table.old) last) }
{
    copies::copy(table, sizes::LAST, &last.to_le_bytes());
}

// A new generator in slot i, with its serial as the last one.
pub fn put_new_slot(table: &mut [u8], i: usize, serial: u32, s: Slot)
    requires { (length table.old ≡ table_size) × (i < 16) }
    ensures { table.new ≡ table_bytes (with_last_serial (with_slot (table_of table.old) i s) serial) }
{
    put_slot(table, i, s);
    copies::copy(table, sizes::LAST, &serial.to_le_bytes());
}
