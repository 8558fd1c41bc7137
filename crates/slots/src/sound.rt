// Whether the bytes are a sound table. Bytes of any other length are none.
ghost use Rattle.slots.specs.Sizes.{slot_size, table_size, field_size};
ghost use Rattle.std.specs.Prelude.{◌≡◌, ◌+◌, ◌≤◌, length, drop};
ghost use Rattle.slots.specs.Sound.{all_zero, between, used_numbers, sound_slot, sound};
ghost use Rattle.slots.specs.Numbers.{part};
ghost use Rattle.slots.specs.Slots.{slot_from};
ghost use Rattle.slots.specs.Bytes.{table_of, sound_bytes};

use crate::slot::Slot;
use crate::{layout, sizes, slot};

const LONGEST_INTERVAL: u64 = 1 << 48;

// No early exit, so that no jump hangs on the bytes.
fn is_zero(s: &[u8]) -> bool
    ensures { result ≡ all_zero s.now }
{
    s.iter().fold(true, |all, byte| all & (*byte == 0))
}

// The 23 bytes behind K or V in the field at `at`.
// Sixteen at once, nine of them twice: by a fold a table in use takes 1.4 times as long.
fn rest_is_zero(s: &[u8], at: usize) -> bool
    requires { at + field_size ≤ length s.now }
    ensures { result ≡ all_zero (drop 32 (part at field_size s.now)) }
{
    let low = u128::from_le_bytes(copies::part(s, at + 32));
    let high = u128::from_le_bytes(copies::part(s, at + 39));
    (low == 0) & (high == 0)
}

// Any interval: interval + 1 may not fit.
fn counter_fits(counter: u64, interval: u64) -> bool
    ensures { result ≡ between 1 counter (interval + 1) }
{
    (1..=interval.saturating_add(1)).contains(&counter)
}

fn has_used_numbers(slot: &Slot, last: u32) -> bool
    ensures { result ≡ used_numbers last slot.now }
{
    ((slot.mechanism == 1) | (slot.mechanism == 2))
        & matches!(slot.strength, 112 | 128 | 192 | 256)
        & (1..=LONGEST_INTERVAL).contains(&slot.interval)
        & counter_fits(slot.counter, slot.interval)
        & (slot.fresh <= 1)
        & (1..=last).contains(&slot.serial)
}

// One slot, in its 134 bytes. Of a used slot's fields only the bytes behind K and V are looked at, so that nothing hangs on a secret;
// they are where they stand: the fields of `slot` would be copied first.
fn slot_is_sound(s: &[u8], last: u32) -> bool
    requires { length s.now ≡ slot_size }
    ensures { result ≡ sound_slot last (slot_from s.now) }
{
    let slot = slot::slot_from(s);
    if slot.mechanism == 0 {
        return is_zero(s);
    }
    has_used_numbers(&slot, last)
        & ((slot.mechanism == 2) | rest_is_zero(s, sizes::FIRST) & rest_is_zero(s, sizes::SECOND))
}

// All 16 slots. No early exits: their tests are joined.
fn all_sound(table: &[u8]) -> bool
    requires { length table.now ≡ table_size }
    ensures { result ≡ sound (table_of table.now) }
{
    let last = layout::last_serial(table);
    (0..16).fold(
        true,
        |all, i| all & slot_is_sound(layout::place(table, i), last),
    )
}

pub fn is_sound(table: &[u8]) -> bool
    ensures { result ≡ sound_bytes table.now }
{
    if table.len() != sizes::TABLE {
        return false;
    }
    all_sound(table)
}
