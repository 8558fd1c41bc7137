// The lines of a file that is read through a window: a line is held until its end is seen.

#![tactic(auto)]

ghost use Rattle.std.specs.Prelude.{◌≡◌, ◌<◌, ◌≤◌, length, is_some};
ghost use Rattle.file_lines.specs.Lines.{text_end};
ghost use Rattle.file_lines.specs.Held.{line_size, next_of, HeldOn};

// A line of 4,096 characters with the CR of its end, and one more, by which a longer one is known.
pub const LINE: usize = 4098;

// How many characters are held, and where the window goes on behind the line's end, where that was seen.
#[derive(Clone, Copy)]
pub struct Held {
    pub held: usize,
    pub next: Option<usize>,
}

// Holds what stands up to the line's end, or the window's, in a lent line that holds so many characters of it already.
// The two stay apart: what is promised is how the lent line goes on.
pub fn hold(window: &[u8], from: usize, line: &mut [u8], held: usize) -> Held
    requires { (length line.old ≡ line_size) × (held ≤ line_size) × (from ≤ length window.now) }
    ensures within { (next_of window.now result ≤ length window.now) × (result.held ≤ line_size) }
    ensures further { from < length window.now → from < next_of window.now result }
    ensures went { HeldOn window.now from line.old held
        (next_of window.now result) (is_some result.next) line.new result.held }
{
    let rest = &window[from..];
    let end = rest.iter().position(|c| *c == b'\n');
    let piece = &rest[..end.unwrap_or(rest.len())];
    let n = piece.len().min(LINE - held);
    line[held..held + n].copy_from_slice(&piece[..n]);
    Held {
        held: held + n,
        next: end.map(|at| from + at + 1),
    }
}

// How many of a line's characters are not of its end, LF being taken off: a CR that stands last is.
#[tactic(auto, unfolding(crate::specs::Lines::text_end))]
pub fn text_end(line: &[u8]) -> usize
    ensures is { result ≡ text_end line.now }
    ensures within { result ≤ length line.now }
{
    match line {
        [text @ .., b'\r'] => text.len(),
        _ => line.len(),
    }
}
