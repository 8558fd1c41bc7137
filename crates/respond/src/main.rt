// The program: reports on the response files that its words name, a line for each case. What can't be read or written is told in a line
// on standard error, and nothing more is run.

#![tactic(auto)]

mod reading;
mod telling;

ghost use Rattle.std.specs.Prelude.{◌≤◌, length, IfSome};

use crate::telling::{Fault, Stop};
use std::env::{Env, FillError};
use std::fs::File;
use std::str;

// More than a file's name may have.
const WORD: usize = 4096;

// What the words so far have said: the mechanism, and whether one named a file.
#[derive(Clone, Copy)]
pub struct Words {
    pub mechanism: Option<u64>,
    pub named: bool,
}

// A word, in the buffer. One that does not fit is cut to the whole buffer, which is more than a file's name may have.
fn word_at<'a>(rt: &HostRuntime, i: usize, buffer: &'a mut [u8]) -> Option<&'a [u8]>
    ensures { IfSome result (λ word. length word.now ≤ length buffer.old) }
{
    match rt.arg(i, buffer) {
        Ok(n) => Some(&buffer[..n]),
        Err(FillError::TooLong) => Some(buffer),
        Err(FillError::NotPresent) => None,
    }
}

// The mechanism that a word sets, by its number, as the opening takes it.
fn mechanism_of(word: &[u8]) -> Option<u64> {
    match word {
        b"1" => Some(1),
        b"2" => Some(2),
        _ => None,
    }
}

// Reports on the file of a name.
fn report_named<'a>(
    rt: &HostRuntime,
    mechanism: Option<u64>,
    name: &'a [u8],
) -> Result<(), Stop<'a>> {
    let mechanism = mechanism.ok_or(Stop::NoMechanismBefore(name))?;
    let path = str::from_utf8(name).map_err(|_| Stop::File(name, Fault::NotUtf8))?;
    let mut file = File::open(rt, path).map_err(|why| Stop::File(name, Fault::Failed(why)))?;
    reading::report_file(rt, mechanism, &mut file, name)
}

// Behind a word.
fn take_word<'a>(rt: &HostRuntime, word: &'a [u8], was: Words) -> Result<Words, Stop<'a>> {
    if let Some(mechanism) = mechanism_of(word) {
        return Ok(Words {
            mechanism: Some(mechanism),
            ..was
        });
    }
    report_named(rt, was.mechanism, word)?;
    Ok(Words { named: true, ..was })
}

// Behind all words: where none named a file standard input is read.
fn end_words(rt: &HostRuntime, words: Words) -> Result<(), Stop<'static>> {
    let mechanism = words.mechanism.ok_or(Stop::NoMechanism)?;
    if words.named {
        return Ok(());
    }
    reading::report_file(rt, mechanism, &mut rt.stdin(), b"standard input")
}

fn main(rt: HostRuntime) {
    let mut buffer = [0u8; WORD];
    let mut words = Words {
        mechanism: None,
        named: false,
    };
    // By index: the library's list of the words needs an allocator.
    for i in 1..usize::MAX {
        let Some(word) = word_at(&rt, i, &mut buffer) else {
            break;
        };
        match take_word(&rt, word, words) {
            Ok(now) => words = now,
            Err(stop) => return telling::tell(&rt, stop),
        }
    }
    if let Err(stop) = end_words(&rt, words) {
        telling::tell(&rt, stop);
    }
}
