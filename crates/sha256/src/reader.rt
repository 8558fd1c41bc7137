// The seed material, read through as one string and never gathered: entropy, then nonce, then personalization.
ghost use Rattle.std.specs.Prelude.{◌≡◌};
ghost use Rattle.sha256.specs.Fed.{Fed, Room};
ghost use Rattle.sha256.specs.Seed.{material, size, Ready, ReadOn, Advanced};

use crate::running::Running;
use crate::strings::Strings;

// A place in the one string, and the hash that has read what stands before it.
#[derive(Clone, Copy)]
pub struct Place {
    pub at: usize,
    pub hash: Running,
}

// The three strings, lent, and a place in the one string that they make: what stands before it is read.
#[derive(Clone, Copy)]
pub struct Reader<'a> {
    pub strings: Strings<'a>,
    pub place: Place,
}

// The string that a place stands in read, and the place moved to its end.
#[inline(always)]
fn read_on(strings: Strings<'_>, place: Place) -> Place
    requires { Ready (size strings) place }
    ensures { ReadOn strings.entry place result }
{
    let string = strings.rest(place.at);
    Place {
        at: place.at + string.len(),
        hash: place.hash.update(string),
    }
}

// Nothing of the one string is read yet.
pub fn new(h: Running, strings: Strings<'_>) -> Reader<'_>
    ensures { result ≡ record { strings = strings.entry; place = record { at = 0; hash = h } } }
{
    Reader {
        strings,
        place: Place { at: 0, hash: h },
    }
}

// A reader that has advanced to the end of the string that its place stands in.
#[inline(always)]
pub fn read(r: Reader<'_>) -> Reader<'_>
    requires { Ready (size r.strings) r.place }
    ensures { Advanced r.entry result }
{
    Reader {
        place: read_on(r.strings, r.place),
        ..r
    }
}

// What everyone else calls: its contract says nothing of a reader, so its callers need no walk by hand. Three strings, three readings
// (where one is empty, the reading goes to the end of the next, and the last has nothing to read).
pub fn read_through(h: Running, strings: &Strings<'_>) -> Running
    requires { Room h (size strings.now) }
    ensures { Fed h (material strings.now) result }
{
    let end = read(read(read(new(h, *strings))));
    end.place.hash
}
