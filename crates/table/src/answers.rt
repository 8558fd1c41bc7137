// What a call hands back beside the bytes.
ghost use Rattle.slots.specs.Sizes.{table_size};
ghost use Rattle.std.specs.Prelude.{◌≡◌, [], ◌<◌, length};
ghost use Rattle.drbg_shared.specs.Generator.{holding, led_on};
ghost use Rattle.slots.specs.Layout.{slot_at};
ghost use Rattle.table.specs.Answers.{generator_of, with_generator, stepped, new_slot};
ghost use Rattle.slots.specs.Bytes.{table_of};
ghost use Rattle.table.specs.OnBytes.{leaving, told_of, told_served, done};

use reasons::Reason;
use slots::layout;
use slots::slot::Slot;

#[derive(Clone, Copy, Debug, PartialEq, Eq)]
pub struct Served {
    pub blocks: u64,
    pub value: u64,
}

// A call's outcome in numbers: the answer (0, or document 01's number for the reason), the blocks and the value.
pub fn told(outcome: Result<Served, Reason>) -> (u64, u64, u64)
    ensures { record { number = result.0; blocks = result.1; value = result.2 } ≡ told_of outcome }
{
    match outcome {
        Ok(served) => (0, served.blocks, served.value),
        Err(reason) => (reason.into(), 0, 0),
    }
}

// The generator in slot i has made its step: the slot with its fields and its counter, and the blocks that were consumed.
#[tactic(auto, unfolding(crate::specs::Answers::stepped))]
pub fn stepped(table: &mut [u8], i: usize, s: Slot, blocks: u64) -> Served
    requires { (length table.old ≡ table_size) × (i < 16) × (s ≡ with_generator (slot_at (table_of table.old) i) (generator_of s)) }
    ensures { leaving (told_served result.blocks result.value) table.new []
        ≡ done (record { answer = stepped (table_of table.old) i (led_on s.first s.second s.counter blocks); output = [] }) }
{
    layout::put_slot(table, i, s);
    Served { blocks, value: 0 }
}

// The mechanism's number, as it goes into the slot.
pub fn new_slot(
    mechanism: u8,
    strength: u16,
    interval: u64,
    fresh: bool,
    serial: u32,
    first: [u8; 55],
    second: [u8; 55],
) -> Slot
    ensures { result ≡ new_slot mechanism strength interval fresh serial (holding first second 1) }
{
    Slot {
        mechanism,
        strength,
        interval,
        counter: 1,
        fresh: u8::from(fresh),
        serial,
        first,
        second,
    }
}
