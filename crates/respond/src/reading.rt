// Reads a file through a window and writes its report piece by piece. What is written is promised by report_some and report_end; that it
// is written no contract can say.
ghost use Rattle.std.specs.Prelude.{◌≡◌, [], ◌^◌, ◌≤◌, length, IsOk, OnOk};
ghost use Rattle.text.specs.Texts.{written, cleared};
ghost use Rattle.responses.specs.Sizes.{text_size};
ghost use Rattle.responses.specs.Pieces.{all_read};
ghost use Rattle.respond.specs.Reading.{Going, GoesOn, window_size};

use crate::telling::{Fault, Stop};
use responses::{Reader, TEXT, Unread};
use std::io::{Read, Write};
use text::Text;

const WINDOW: usize = 65536;

// No file has so many lines, or takes so many reads.
const MOST: u64 = 1 << 63;

// Writes a piece of the report, behind which a line can't be read, or all were.
fn write_piece<'a>(
    rt: &HostRuntime,
    piece: &[u8],
    read: Result<(), Unread>,
    name: &'a [u8],
) -> Result<(), Stop<'a>>
    ensures { IsOk result → IsOk read }
{
    // No map_err: nothing is proved of a constructor whose type names a lifetime.
    if let Err(why) = rt.stdout().write_all(piece) {
        return Err(Stop::Unwritten(why));
    }
    read.map_err(|_| Stop::File(name, Fault::UnreadLine))
}

// Reports on what was read into the window.
fn report_window<'a>(
    rt: &HostRuntime,
    reader: &mut Reader,
    window: &[u8],
    text: &mut Text<'_>,
    name: &'a [u8],
) -> Result<(), Stop<'a>>
    requires going { Going reader.old × (length window.now ≤ window_size) }
    requires size { (written text.old).size ≡ text_size }
    ensures same_buffer { cleared (written text.new) ≡ cleared (written text.old) }
    ensures same { reader.new.mechanism ≡ reader.old.mechanism }
    ensures going { OnOk result (Going reader.new) }
    ensures on { OnOk result (GoesOn all_read reader.old window.now [] all_read reader.new) }
{
    let mut rest = window;
    while !rest.is_empty() {
        let piece = reader.report_some(rest, text);
        write_piece(rt, text.written(), piece.read, name)?;
        if MOST < reader.lines() {
            return Err(Stop::File(name, Fault::TooManyLines));
        }
        rest = piece.rest;
    }
    Ok(())
}

// Reports on a whole file. The reader and the buffers take 140 KB of the stack, whatever the file's size. A proved loop has to end, and
// nothing says that a file does: so the reads are counted.
pub fn report_file<'a, F: Read>(
    rt: &HostRuntime,
    mechanism: u64,
    file: &mut F,
    name: &'a [u8],
) -> Result<(), Stop<'a>> {
    let mut window = [0u8; WINDOW];
    let mut buffer = [0u8; TEXT];
    let mut text = Text::over(&mut buffer);
    let mut reader = Reader::new(mechanism);
    for _ in 0..MOST {
        let n = file
            .read(&mut window)
            .map_err(|why| Stop::File(name, Fault::Failed(why)))?;
        if n == 0 {
            let read = reader.report_end(&mut text);
            return write_piece(rt, text.written(), read, name);
        }
        report_window(rt, &mut reader, &window[..n], &mut text, name)?;
    }
    Err(Stop::File(name, Fault::TooLong))
}
