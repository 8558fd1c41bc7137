// Why nothing more is run, and the line on standard error that says so. What can't be told there is told nowhere.
use std::io::Write;
use std::{fmt, io};

// What is wrong with a file.
#[derive(Clone, Copy)]
pub enum Fault {
    NotUtf8,
    Failed(io::Error),
    UnreadLine,
    TooManyLines,
    TooLong,
}

impl fmt::Display for Fault {
    fn fmt<W: fmt::Write>(&self, f: &mut fmt::Formatter<W>) -> fmt::Result {
        match self {
            Fault::NotUtf8 => write!(f, "the name is not UTF-8"),
            Fault::Failed(why) => write!(f, "{why}"),
            Fault::UnreadLine => write!(f, "this line can't be read"),
            Fault::TooManyLines => write!(f, "too many lines"),
            Fault::TooLong => write!(f, "too long"),
        }
    }
}

// A file has its name beside what is wrong with it.
#[derive(Clone, Copy)]
pub enum Stop<'a> {
    NoMechanism,
    NoMechanismBefore(&'a [u8]),
    File(&'a [u8], Fault),
    Unwritten(io::Error),
}

const MECHANISMS: &str = "1 is HMAC_DRBG, 2 is Hash_DRBG";

fn put(rt: &HostRuntime, text: &[u8]) {
    rt.stderr().write_all(text).ok();
}

fn put_why(rt: &HostRuntime, what: &[u8], why: impl fmt::Display + Drop) {
    put(rt, what);
    eprintln!(rt; ": {why}").ok();
}

pub fn tell(rt: &HostRuntime, stop: Stop) {
    put(rt, b"respond: ");
    match stop {
        Stop::NoMechanism => put_why(rt, b"no mechanism", MECHANISMS),
        Stop::NoMechanismBefore(name) => {
            put(rt, b"no mechanism before ");
            put_why(rt, name, MECHANISMS);
        }
        Stop::File(name, fault) => put_why(rt, name, fault),
        Stop::Unwritten(why) => put_why(rt, b"standard output can't be written", why),
    }
}
