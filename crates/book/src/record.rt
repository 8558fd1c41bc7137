// Records of the call book, read at a place: the kind first, then the kind's fields in order.
ghost use Rattle.std.specs.Prelude.{◌≡◌};
ghost use Rattle.book.specs.Reading.{read_map};
ghost use Rattle.book.specs.Records.{open_at, reseed_at, draw_at, fresh_draw_at, close_at, inquire_at, fields_at, record_at};
ghost use Rattle.book.specs.Records.{meaning_of, kind_of};
ghost use Rattle.book.specs.Values.{record_read, record_to, record_of, meaning_to, says, meaning};

use crate::cursor::Cursor;
use crate::string::BookString;

#[derive(Clone, Copy)]
pub enum Record<'a> {
    Open {
        // Any number is a record: the opening answers 3 where no mechanism has it.
        mechanism: u64,
        strength: u64,
        interval: u64,
        fresh: bool,
        entropy: BookString<'a>,
        nonce: BookString<'a>,
        personalization: BookString<'a>,
    },
    Reseed {
        handle: u64,
        entropy: BookString<'a>,
        additional: BookString<'a>,
    },
    Draw {
        handle: u64,
        strength: u64,
        request: u64,
        additional: BookString<'a>,
    },
    FreshDraw {
        handle: u64,
        strength: u64,
        request: u64,
        entropy: BookString<'a>,
        additional: BookString<'a>,
    },
    Close {
        handle: u64,
    },
    Inquire {
        handle: u64,
    },
}

impl Record<'_> {
    // The number that the book and its line have for the kind.
    pub fn kind(&self) -> u64
        ensures { result ≡ kind_of (meaning self.now) }
    {
        match self {
            Record::Open { .. } => 1,
            Record::Reseed { .. } => 2,
            Record::Draw { .. } => 3,
            Record::FreshDraw { .. } => 4,
            Record::Close { .. } => 5,
            Record::Inquire { .. } => 6,
        }
    }
}

// A function for each kind, which names its own fields: one function over a table of fields would hide them.
#[tactic(auto, unfolding(crate::specs::Records::open_at))]
fn open_fields<'a>(fields: &mut Cursor<'a>) -> Option<Record<'a>>
    ensures record { record_to result fields.new.at ≡ open_at fields.old.book.now fields.old.at }
    ensures meaning { meaning_to result fields.new.at ≡ says open_at fields.old }
{
    Some(Record::Open {
        mechanism: fields.number()?,
        strength: fields.number()?,
        interval: fields.number()?,
        fresh: fields.number_up_to(1)? == 1,
        entropy: fields.string()?,
        nonce: fields.string()?,
        personalization: fields.string()?,
    })
}

#[tactic(auto, unfolding(crate::specs::Records::reseed_at))]
fn reseed_fields<'a>(fields: &mut Cursor<'a>) -> Option<Record<'a>>
    ensures record { record_to result fields.new.at ≡ reseed_at fields.old.book.now fields.old.at }
    ensures meaning { meaning_to result fields.new.at ≡ says reseed_at fields.old }
{
    Some(Record::Reseed {
        handle: fields.number()?,
        entropy: fields.string()?,
        additional: fields.string()?,
    })
}

#[tactic(auto, unfolding(crate::specs::Records::draw_at))]
fn draw_fields<'a>(fields: &mut Cursor<'a>) -> Option<Record<'a>>
    ensures record { record_to result fields.new.at ≡ draw_at fields.old.book.now fields.old.at }
    ensures meaning { meaning_to result fields.new.at ≡ says draw_at fields.old }
{
    Some(Record::Draw {
        handle: fields.number()?,
        strength: fields.number()?,
        request: fields.number_up_to(65536)?,
        additional: fields.string()?,
    })
}

#[tactic(auto, unfolding(crate::specs::Records::fresh_draw_at))]
fn fresh_draw_fields<'a>(fields: &mut Cursor<'a>) -> Option<Record<'a>>
    ensures record { record_to result fields.new.at ≡ fresh_draw_at fields.old.book.now fields.old.at }
    ensures meaning { meaning_to result fields.new.at ≡ says fresh_draw_at fields.old }
{
    Some(Record::FreshDraw {
        handle: fields.number()?,
        strength: fields.number()?,
        request: fields.number_up_to(65536)?,
        entropy: fields.string()?,
        additional: fields.string()?,
    })
}

#[tactic(auto, unfolding(crate::specs::Records::close_at))]
fn close_fields<'a>(fields: &mut Cursor<'a>) -> Option<Record<'a>>
    ensures record { record_to result fields.new.at ≡ close_at fields.old.book.now fields.old.at }
    ensures meaning { meaning_to result fields.new.at ≡ says close_at fields.old }
{
    Some(Record::Close {
        handle: fields.number()?,
    })
}

#[tactic(auto, unfolding(crate::specs::Records::inquire_at))]
fn inquire_fields<'a>(fields: &mut Cursor<'a>) -> Option<Record<'a>>
    ensures record { record_to result fields.new.at ≡ inquire_at fields.old.book.now fields.old.at }
    ensures meaning { meaning_to result fields.new.at ≡ says inquire_at fields.old }
{
    Some(Record::Inquire {
        handle: fields.number()?,
    })
}

#[tactic(auto, unfolding(crate::specs::Records::fields_at))]
fn fields_of<'a>(kind: u64, fields: &mut Cursor<'a>) -> Option<Record<'a>>
    ensures record { record_to result fields.new.at ≡ fields_at kind fields.old.book.now fields.old.at }
    ensures meaning { meaning_to result fields.new.at ≡ says (fields_at kind) fields.old }
{
    match kind {
        1 => open_fields(fields),
        2 => reseed_fields(fields),
        3 => draw_fields(fields),
        4 => fresh_draw_fields(fields),
        5 => close_fields(fields),
        6 => inquire_fields(fields),
        _ => None,
    }
}

// The record and the next place, if one can be read.
#[tactic(auto, unfolding(crate::specs::Records::record_at))]
pub fn record_at(s: &[u8], at: usize) -> Option<(Record<'_>, usize)>
    ensures record { record_read result ≡ record_at s.now at }
    ensures meaning { record_of result ≡ read_map (meaning_of s.now) (record_at s.now at) }
{
    let mut fields = Cursor { book: s, at };
    let kind = fields.number()?;
    let record = fields_of(kind, &mut fields)?;
    Some((record, fields.at))
}
