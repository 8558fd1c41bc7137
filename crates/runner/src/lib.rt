// Runs a call book from a fresh table: a line for each record. All but the writing itself is promised by what a run prints
// (specs/Run.antt).

#![tactic(auto)]

ghost use Rattle.std.specs.Prelude.{◌≡◌, ◌++◌, ◌+◌, ◌≤◌, ◌<◌, length, replicate};
ghost use Rattle.book.specs.Records.{Fits};
ghost use Rattle.book.specs.Values.{meaning};
ghost use Rattle.slots.specs.Sizes.{table_size};
ghost use Rattle.table.specs.OnBytes.{told_of};
ghost use Rattle.text.specs.Texts.{written, cleared};
ghost use Rattle.runner.specs.Run.{line_size, text_size, request_of, Answers, Ran, left, printed_of};

use book::line;
use book::record::{Record, record_at};
use reasons::Reason;
use slots::sizes;
use std::io;
use table::answers::{Served, told};
use text::Text;

// Room for the longest request, for the longest line, and for the text: a piece ends with the line that passes ENOUGH bytes.
const OUTPUT: usize = 65536;

const LINE: usize = 84 + 2 * OUTPUT;

const ENOUGH: usize = 4096;

const TEXT: usize = ENOUGH + LINE;

fn request_of(r: Record<'_>) -> usize
    ensures { result ≡ request_of (meaning r.entry) }
{
    match r {
        Record::Draw { request, .. } | Record::FreshDraw { request, .. } => request as usize,
        _ => 0,
    }
}

// The record's call, on the table as the calls before it left it. What it draws is put at the front of the output.
fn answer(table: &mut [u8], r: Record<'_>, out: &mut [u8; OUTPUT]) -> Result<Served, Reason>
    requires { Fits (meaning r) }
    ensures { Answers table.old (meaning r.entry) (told_of result) out.new table.new }
{
    match r {
        Record::Open {
            mechanism,
            strength,
            interval,
            fresh,
            entropy,
            nonce,
            personalization,
        } => calls::open(
            table,
            mechanism,
            strength,
            interval,
            fresh,
            entropy.bytes,
            nonce.bytes,
            personalization.bytes,
        ),
        Record::Reseed {
            handle,
            entropy,
            additional,
        } => calls::reseed(table, handle, entropy.bytes, additional.bytes),
        Record::Draw {
            handle,
            strength,
            request,
            additional,
        } => calls::draw(
            table,
            handle,
            strength,
            additional.bytes,
            &mut out[..request as usize],
        ),
        Record::FreshDraw {
            handle,
            strength,
            request,
            entropy,
            additional,
        } => calls::fresh_draw(
            table,
            handle,
            strength,
            entropy.bytes,
            additional.bytes,
            &mut out[..request as usize],
        ),
        Record::Close { handle } => calls::close(table, handle),
        Record::Inquire { handle } => calls::inquire(table, handle),
    }
}

// Writes a record's line.
fn run_record(table: &mut [u8], r: Record<'_>, out: &mut [u8; OUTPUT], text: &mut Text<'_>)
    requires fits { Fits (meaning r) }
    requires room { length (written text.old).text + line_size ≤ (written text.old).size }
    ensures { Ran table.old (meaning r.entry) (written text.old) (written text.new) table.new }
{
    let (number, blocks, value) = told(answer(table, r, out));
    line::line(text, r.kind(), number, blocks, value, &out[..request_of(r)]);
}

// The lines of the records from a place on, until they have ENOUGH bytes or more; and where the next record begins in the book.
fn run_some(
    table: &mut [u8],
    book: &[u8],
    from: usize,
    out: &mut [u8; OUTPUT],
    text: &mut Text<'_>,
) -> usize
    requires { (written text.old).size ≡ text_size }
    ensures prints { left table.old book.now from ≡ (written text.new).text ++ left table.new book.now result }
    ensures within { (length (written text.new).text ≤ text_size) × ((written text.new).size ≡ text_size)
        × (from < length book.now → from < result) }
    ensures same_buffer { cleared (written text.new) ≡ cleared (written text.old) }
{
    text.clear();
    let mut at = from;
    // By place: only a record that was read says where the next one begins.
    while at < book.len() && text.len() < ENOUGH {
        let Some((r, next)) = record_at(book, at) else {
            line::bad_line(text, at as u64);
            return book.len();
        };
        run_record(table, r, out, text);
        at = next;
    }
    at
}

// The first lines of a book, from a fresh table: those of its first records, or `book 0` where it is above 65,536 bytes.
fn run_first(table: &mut [u8], book: &[u8], out: &mut [u8; OUTPUT], text: &mut Text<'_>) -> usize
    requires table_value { table.old ≡ replicate table_size 0 }
    requires room { (written text.old).size ≡ text_size }
    ensures prints { printed_of book.now ≡ (written text.new).text ++ left table.new book.now result }
    ensures within { (length (written text.new).text ≤ text_size) × ((written text.new).size ≡ text_size) }
    ensures same_buffer { cleared (written text.new) ≡ cleared (written text.old) }
{
    if 65536 < book.len() {
        text.clear();
        line::bad_line(text, 0);
        return book.len();
    }
    run_some(table, book, 0, out, text)
}

// The whole book, of any size; at a write that fails its error, and then nothing more is run. What is written here is promised by
// run_first and run_some; that it is written no contract can say.
pub fn run(rt: &impl Print, book: &[u8]) -> io::Result<()> {
    let mut table = [0u8; sizes::TABLE];
    let mut out = [0u8; OUTPUT];
    let mut buffer = [0u8; TEXT];
    let mut text = Text::over(&mut buffer);
    let mut at = run_first(&mut table, book, &mut out, &mut text);
    loop {
        rt.write_all(text.written())?;
        if book.len() <= at {
            return Ok(());
        }
        at = run_some(&mut table, book, at, &mut out, &mut text);
    }
}
