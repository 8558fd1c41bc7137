// The fields of the case at hand in a lent store: what a line does to it.
ghost use Rattle.std.specs.Prelude.{◌≡◌, true, ◌+◌, ◌/◌, ◌<◌, ◌≤◌, length};
ghost use Rattle.text.specs.Writing.{Appends};
ghost use Rattle.rsp_line.specs.Hex.{is_hex, bytes_of};
ghost use Rattle.rsp_line.specs.Names.{number_of};
ghost use Rattle.rsp_line.specs.Lines.{says};
ghost use Rattle.rsp_case.specs.Cases.{◌is◌};
ghost use Rattle.rsp_case.specs.Store.{field_bytes};
ghost use Rattle.rsp_case.specs.Reading.{next, field_in};
ghost use Rattle.rsp_case.specs.Values.{next_of, stop_of, Returns};
ghost use Rattle.rsp_case.specs.Kept.{Placed, Kept};

use crate::point::{Next, Point};
use rsp_line::line::Said;
use rsp_line::name::Name;
use rsp_line::{hex, line};

// Where a line led, and how many bytes of the store the fields take. What was returned stands behind them.
#[derive(Clone, Copy)]
pub struct Took {
    pub next: Next,
    pub used: usize,
}

// A field: its name, its length in two bytes, its value.
fn keep(store: &mut [u8], at: usize, name: Name, digits: &[u8]) -> usize
    requires digits_value { (is_hex digits.now ≡ true) × (length digits.now < 4096) }
    requires digits_in_bounds { at + 3 + length digits.now / 2 ≤ length store.old }
    ensures { Appends store.old at (field_bytes (number_of name is bytes_of digits.now)) result store.new }
{
    let length = ((digits.len() / 2) as u16).to_be_bytes();
    store[at] = name.number();
    store[at + 1..at + 3].copy_from_slice(&length);
    hex::decode(digits, store, at + 3)
}

// A field goes where its line leads.
fn take_field(next: Next, used: usize, name: Name, digits: &[u8], store: &mut [u8]) -> Took
    requires digits_value { (is_hex digits.now ≡ true) × (length digits.now < 4096) × (length store.old ≡ 65536) }
    requires placed { Placed (used + 3 + length digits.now / 2) (number_of name) (next_of next) }
    requires returns { Returns (length digits.now / 2) next }
    ensures same { result.next ≡ next }
    ensures kept { Kept (next_of next) (number_of name is bytes_of digits.now) store.old used
        store.new result.used (stop_of result) }
{
    match next {
        Next::Keeps(_) => Took {
            next,
            used: keep(store, used, name, digits),
        },
        Next::Whole(..) => {
            hex::decode(digits, store, used);
            Took { next, used }
        }
        _ => Took { next, used },
    }
}

// Takes a line, where the fields of the case at hand take so many bytes of the store. The two stay apart: what is promised is where
// the fields stand in the lent bytes.
pub fn take_line(p: Point, used: usize, line: &[u8], store: &mut [u8]) -> Took
    requires { (used ≤ 65536) × (length store.old ≡ 65536) }
    ensures leads { next_of result.next ≡ next p used (says line.now) }
    ensures kept { Kept (next_of result.next) (field_in (says line.now)) store.old used
        store.new result.used (stop_of result) }
{
    let Some(said) = line::read(line) else {
        return Took {
            next: Next::Unread,
            used,
        };
    };
    match said {
        Said::Nothing => Took {
            next: Next::Goes(p),
            used,
        },
        Said::Heading(heading) => Took {
            next: p.headed(p.heads.told(heading)),
            used,
        },
        Said::Count(number) => Took {
            next: p.counted(number),
            used,
        },
        Said::Field(name, digits) => {
            let next = p.given(used, u64::from(name.number()), digits.len() / 2);
            take_field(next, used, name, digits, store)
        }
    }
}
