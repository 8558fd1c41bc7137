// Line 9 of document 01's edges, and an unsound table of each kind, run on the calls themselves: what a book can't reach.
// A line holds a name, the answer's number, blocks and value, and for a draw the SHA-256 of the lent output as it then is.

#![tactic(auto)]

ghost use Rattle.std.specs.Prelude.{◌≤◌, ◌<◌};

use doors::{Answer, Held};
use sha256::running;
use slots::slot::Slot;
use slots::{layout, sizes};
use std::io;
use table::answers::told;
use test_output::{print_bytes, print_number, print_text};

fn print_answer(rt: &impl Print, name: &[u8], a: Answer) -> io::Result<()> {
    let (number, blocks, value) = told(a.outcome);
    print_text(rt, name)?;
    print_number(rt, number)?;
    print_number(rt, blocks)?;
    print_number(rt, value)
}

fn print_open(rt: &impl Print, name: &[u8], a: Answer) -> io::Result<()> {
    print_answer(rt, name, a)?;
    print_text(rt, b"\n")
}

fn print_draw(rt: &impl Print, name: &[u8], a: Answer, out: &[u8]) -> io::Result<()> {
    print_answer(rt, name, a)?;
    print_text(rt, b" ")?;
    print_bytes(rt, running::hash_of(out).bytes)?;
    print_text(rt, b"\n")
}

fn fresh_table() -> Held {
    Held {
        bytes: [0u8; sizes::TABLE],
    }
}

// A table with another slot i.
fn with_slot(mut t: Held, i: usize, s: Slot) -> Held
    requires { i < 16 }
{
    layout::put_slot(&mut t.bytes, i, s);
    t
}

fn with_last_serial(mut t: Held, last: u32) -> Held {
    layout::put_last_serial(&mut t.bytes, last);
    t
}

fn open_with(t: Held, mechanism: u64, strength: u64, entropy: usize) -> Answer
    requires { entropy ≤ 32 }
{
    doors::open(
        t,
        mechanism,
        strength,
        2,
        true,
        &[170; 32][..entropy],
        &[85; 16],
        &[],
    )
}

// Requests of 65,536 and 65,537, on each mechanism.
fn requests(rt: &impl Print, mechanism: u64) -> io::Result<()> {
    let t = open_with(fresh_table(), mechanism, 128, 16).table;
    let mut most = [7u8; 65536];
    let a = doors::draw(t, 16, 128, &[], &mut most);
    print_draw(rt, b"65536", a, &most)?;
    let mut more = [7u8; 65537];
    let b = doors::draw(t, 16, 128, &[], &mut more);
    print_draw(rt, b"65537", b, &more)
}

// A 17th opening. By number: it picks the mechanism, which the calls take as a number.
fn openings(rt: &impl Print) -> io::Result<()> {
    let mut t = fresh_table();
    for i in 0..17u64 {
        let a = open_with(t, 1 + i % 2, 0, 14);
        print_open(rt, b"opening", a)?;
        t = a.table;
    }
    Ok(())
}

// The last serial at its largest, and one below.
fn serials(rt: &impl Print, last: u32) -> io::Result<()> {
    let t = with_last_serial(fresh_table(), last);
    print_open(rt, b"serial", open_with(t, 2, 112, 14))
}

// One clause of soundness broken: of a used slot up to 11, of a free one from 12 on; past 18 none is.
// By number: each is one line of the output, in this order.
fn spoiled(k: usize, mut s: Slot) -> Slot {
    match k {
        0 => s.mechanism = 3,
        1 => s.strength = 111,
        2 => s.interval = 0,
        3 => s.interval = 281474976710657,
        4 => s.counter = 0,
        5 => s.counter = 4,
        6 => s.fresh = 2,
        7 => s.serial = 0,
        8 => s.serial = 2,
        9 => s.first[32] = 1,
        10 => s.second[54] = 1,
        11 => s.mechanism = 0,
        12 => s.strength = 112,
        13 => s.interval = 1,
        14 => s.counter = 1,
        15 => s.fresh = 1,
        16 => s.serial = 1,
        17 => s.first[0] = 1,
        18 => s.second[54] = 1,
        _ => {}
    }
    s
}

// The six calls on one table, and the lent output after both draws.
fn six_calls(rt: &impl Print, t: Held) -> io::Result<()> {
    let lent = [51u8; 16];
    let mut out = [7u8; 16];
    print_open(rt, b"open", open_with(t, 1, 128, 16))?;
    print_open(rt, b"reseed", doors::reseed(t, 16, &lent, &[]))?;
    let a = doors::draw(t, 16, 0, &[], &mut out);
    print_draw(rt, b"draw", a, &out)?;
    let b = doors::fresh_draw(t, 16, 0, &lent, &[], &mut out);
    print_draw(rt, b"fresh-draw", b, &out)?;
    print_open(rt, b"close", doors::close(t, 16))?;
    print_open(rt, b"inquire", doors::inquire(t, 16))
}

fn unsound(rt: &impl Print, k: usize) -> io::Result<()> {
    let t = open_with(fresh_table(), 1, 128, 16).table;
    let i = if k < 12 { 0 } else { 1 };
    six_calls(
        rt,
        with_slot(t, i, spoiled(k, layout::slot_at(&t.bytes, i))),
    )
}

fn main(rt: HostRuntime) -> io::Result<()> {
    requests(&rt, 1)?;
    requests(&rt, 2)?;
    print_open(&rt, b"31", open_with(fresh_table(), 1, 256, 31))?;
    print_open(&rt, b"32", open_with(fresh_table(), 1, 256, 32))?;
    openings(&rt)?;
    serials(&rt, 4294967294)?;
    serials(&rt, 4294967295)?;
    for k in 0..20 {
        unsound(&rt, k)?;
    }
    Ok(())
}
