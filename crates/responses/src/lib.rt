// Reports on a response file that is read through a window: a line for each case (specs/Report.antt).

#![tactic(auto)]

ghost use Rattle.std.specs.Prelude.{◌≡◌, ◌≤◌};
ghost use Rattle.file_lines.specs.Held.{line_size};
ghost use Rattle.responses.specs.Sizes.{store_size};

use file_lines::LINE;
use rsp_case::point::{Next, Point};
use rsp_case::store;
use text::Text;

pub mod words;

// A piece of the report ends with the line that passes ENOUGH bytes of the text.
const ENOUGH: usize = 4096;

pub const TEXT: usize = ENOUGH + 40;

pub const STORE: usize = 65536;

// How far the reading of a file has come: the point in the case at hand, how many bytes of the store its fields take, how many lines
// were read, and how many characters of the next one are held.
#[derive(Clone, Copy)]
pub struct Progress {
    pub point: Point,
    pub used: usize,
    pub lines: u64,
    pub held: usize,
}

impl Progress {
    // Behind a line nothing is held of the next.
    fn behind(point: Point, used: usize, lines: u64) -> Progress
        ensures { result ≡ record { point = point; used = used; lines = lines; held = 0 } }
    {
        Progress {
            point,
            used,
            lines,
            held: 0,
        }
    }
}

// A line can't be read.
#[derive(Clone, Copy)]
pub struct Unread;

// Behind a piece of the report: what is left of the window, and whether each line could be read.
#[derive(Clone, Copy)]
pub struct Piece<'w> {
    pub rest: &'w [u8],
    pub read: Result<(), Unread>,
}

// Reads one file. The line that has begun is held in `line`, the fields of the case at hand in `store`. The mechanism may be any number:
// an opening refuses those that name none.
#[derive(Drop)]
pub struct Reader {
    pub mechanism: u64,
    pub progress: Progress,
    pub line: [u8; LINE],
    pub store: [u8; STORE],
    pub ghost inside: { (progress.used ≤ store_size) × (progress.held ≤ line_size) },
}

impl Reader {
    ghost use Rattle.std.specs.Prelude.{◌≡◌, ◌+◌, ◌^◌, ◌≤◌, ◌<◌, [], length, take};
    ghost use Rattle.text.specs.Writing.{◌then◌};
    ghost use Rattle.text.specs.Texts.{written, cleared};
    ghost use Rattle.responses.specs.Sizes.{room_size, text_size};
    ghost use Rattle.responses.specs.Pieces.{started, all_read, Tells, Reports, Ends, IsLeft};
    ghost use Rattle.responses.specs.Report.{lacking};

    // A file begins.
    pub fn new(mechanism: u64) -> Reader
        ensures mechanism { result.mechanism ≡ mechanism }
        ensures begins { result.progress ≡ started }
    {
        Reader {
            mechanism,
            progress: Progress {
                point: Point::default(),
                used: 0,
                lines: 0,
                held: 0,
            },
            line: [0; LINE],
            store: [0; STORE],
        }
    }

    // How many lines were read.
    pub fn lines(&self) -> u64
        ensures { result ≡ self.now.progress.lines }
    {
        self.progress.lines
    }

    // Takes the line of the first n characters that are held, and writes what it reports.
    fn report_line(&mut self, n: usize, text: &mut Text<'_>) -> Result<(), Unread>
        requires line { (n ≤ line_size) × (self.old.progress.lines + 1 < 2 ^ 64) }
        requires room { length (written text.old).text + room_size ≤ (written text.old).size }
        ensures same { (self.new.mechanism ≡ self.old.mechanism) × (self.new.line ≡ self.old.line) }
        ensures within { (self.new.progress.lines ≡ self.old.progress.lines + 1) × (self.new.progress.held ≡ 0) }
        ensures few { length (written text.new).text ≤ length (written text.old).text + room_size }
        ensures same_buffer { cleared (written text.new) ≡ cleared (written text.old) }
        ensures tells { Tells self.old (take n self.old.line) (written text.old) result self.new (written text.new) }
    {
        let was = self.progress;
        let took = store::take_line(was.point, was.used, &self.line[..n], &mut self.store);
        let used = took.used;
        let lines = was.lines + 1;
        match took.next {
            Next::Goes(point) | Next::Keeps(point) => {
                self.progress = Progress::behind(point, used, lines);
                Ok(())
            }
            Next::Whole(point, returned) => {
                let (fields, behind) = self.store.split_at(used);
                let good = rsp_run::passes(
                    self.mechanism,
                    point.heads.fresh,
                    fields,
                    &behind[..returned],
                );
                words::passed(text, point.number, good);
                self.progress = Progress::behind(point, 0, lines);
                Ok(())
            }
            Next::PassedOver(point) => {
                words::passed_over(text, point.number);
                self.progress = Progress::behind(point, used, lines);
                Ok(())
            }
            Next::Unread => {
                words::unread(text, lines);
                self.progress = Progress::behind(was.point, used, lines);
                Err(Unread)
            }
        }
    }

    // Holds a line's characters as far as the window goes, and takes the line where its end is seen.
    fn report_next<'w>(&mut self, window: &'w [u8], text: &mut Text<'_>) -> Piece<'w>
        requires lines { self.old.progress.lines + 1 < 2 ^ 64 }
        requires room { length (written text.old).text + room_size ≤ (written text.old).size }
        ensures same { self.new.mechanism ≡ self.old.mechanism }
        ensures lines { self.new.progress.lines ≤ self.old.progress.lines + 1 }
        ensures rest { IsLeft window.now result.rest.now }
        ensures further { 0 < length window.now → length result.rest.now < length window.now }
        ensures few { length (written text.new).text ≤ length (written text.old).text + room_size }
        ensures same_buffer { cleared (written text.new) ≡ cleared (written text.old) }
        ensures reports { Reports all_read self.old window.now (written text.old).text result self.new (written text.new).text }
    {
        let hold = file_lines::hold(window, 0, &mut self.line, self.progress.held);
        let held = hold.held;
        let rest = &window[hold.next.unwrap_or(window.len())..];
        let Some(_) = hold.next else {
            self.progress.held = held;
            return Piece { rest, read: Ok(()) };
        };
        let n = file_lines::text_end(&self.line[..held]);
        let read = self.report_line(n, text);
        Piece { rest, read }
    }

    // Reads the window, until the text has ENOUGH bytes or more, or a line can't be read.
    pub fn report_some<'w>(&mut self, window: &'w [u8], text: &mut Text<'_>) -> Piece<'w>
        requires lines { self.old.progress.lines ≤ 2 ^ 63 }
        requires window { length window.now ≤ 65536 }
        requires size { (written text.old).size ≡ text_size }
        ensures same { self.new.mechanism ≡ self.old.mechanism }
        ensures rest { IsLeft window.now result.rest.now }
        ensures further { 0 < length window.now → length result.rest.now < length window.now }
        ensures within { (length (written text.new).text ≤ text_size) × ((written text.new).size ≡ text_size) }
        ensures same_buffer { cleared (written text.new) ≡ cleared (written text.old) }
        ensures reports { Reports all_read self.old window.now [] result self.new (written text.new).text }
    {
        text.clear();
        let mut piece = Piece {
            rest: window,
            read: Ok(()),
        };
        while !piece.rest.is_empty() && piece.read.is_ok() && text.len() < ENOUGH {
            piece = self.report_next(piece.rest, text);
        }
        piece
    }

    // The file ends behind its lines: inside a case it lacks one.
    fn report_close(&self, text: &mut Text<'_>) -> Result<(), Unread>
        requires lines { self.now.progress.lines + 1 < 2 ^ 64 }
        requires room { length (written text.old).text + room_size ≤ (written text.old).size }
        ensures wrote { written text.new ≡ written text.old then lacking self.now.progress.lines self.now.progress.point }
        ensures few { length (written text.new).text ≤ length (written text.old).text + room_size }
        ensures same_buffer { cleared (written text.new) ≡ cleared (written text.old) }
    {
        // 0 between cases
        if self.progress.point.last == 0 {
            return Ok(());
        }
        words::unread(text, self.progress.lines + 1);
        Err(Unread)
    }

    // The file ends: its last line may lack its end.
    pub fn report_end(&mut self, text: &mut Text<'_>) -> Result<(), Unread>
        requires lines { self.old.progress.lines ≤ 2 ^ 63 }
        requires size { (written text.old).size ≡ text_size }
        ensures within { (length (written text.new).text ≤ text_size) × ((written text.new).size ≡ text_size) }
        ensures same_buffer { cleared (written text.new) ≡ cleared (written text.old) }
        ensures same { (self.new.mechanism ≡ self.old.mechanism) × (self.new.line ≡ self.old.line) }
        ensures lines { (self.old.progress.lines ≤ self.new.progress.lines)
            × (self.new.progress.lines ≤ self.old.progress.lines + 1) }
        ensures ends { Ends self.old (written text.new).text }
    {
        text.clear();
        let held = self.progress.held;
        if held != 0 {
            self.report_line(held, text)?;
        }
        self.report_close(text)
    }
}
