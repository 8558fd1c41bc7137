// What a line says.
ghost use Rattle.std.specs.Prelude.{◌≡◌, ◌+◌, ◌<◌, ◌≤◌, length, unwrap_or, IfSome};
ghost use Rattle.rsp_line.specs.Lines.{truth_of, heading_says, name_end, heading_in, heading, field, says};
ghost use Rattle.rsp_line.specs.Values.{says_of, truth_said, heading_said, DigitsIn, Behind};

use crate::name::Name;
use crate::{decimal, hex, name};
use same::same;

// The hash, ours or another; prediction resistance; the length of a field in bits.
#[derive(Clone, Copy)]
pub enum Heading {
    Hash(bool),
    Resists(bool),
    Bits(Name, u64),
}

// A field comes with the hexadecimal digits of its value, as they stand in the line.
#[derive(Clone, Copy)]
pub enum Said<'a> {
    Nothing,
    Heading(Heading),
    Count(u64),
    Field(Name, &'a [u8]),
}

// How many characters stand before the first `=`.
fn name_end(s: &[u8]) -> Option<usize>
    ensures is { unwrap_or result (length s.now) ≡ name_end s.now }
    ensures within { IfSome result (λ n. n < length s.now) }
{
    s.iter().position(|c| *c == b'=')
}

// The value behind a name of n characters: behind `=` and a space, or none at the line's end.
fn value_behind(s: &[u8], n: usize) -> Option<&[u8]>
    requires { (n ≡ name_end s.now) × (n < length s.now) }
    ensures { Behind s.now result }
{
    match &s[n + 1..] {
        [b' ', value @ ..] => Some(value),
        [] => Some(&[]),
        _ => None,
    }
}

#[tactic(auto, unfolding(crate::specs::Lines::truth_of, text::specs::Ascii::ascii))]
fn truth_of(value: &[u8]) -> Option<bool>
    ensures { truth_said result ≡ truth_of value.now }
{
    if same(b"True", value) {
        Some(true)
    } else if same(b"False", value) {
        Some(false)
    } else {
        None
    }
}

#[tactic(auto, unfolding(crate::specs::Lines::length_says, text::specs::Ascii::ascii))]
fn heading_value(name: &[u8], value: &[u8]) -> Option<Heading>
    ensures { heading_said result ≡ heading_says name.now value.now }
{
    if same(b"PredictionResistance ", name) {
        return Some(Heading::Resists(truth_of(value)?));
    }
    Some(Heading::Bits(name::length_of(name)?, decimal::number_of(value)?))
}

// What stands between the brackets.
#[tactic(auto, unfolding(crate::specs::Lines::heading_in, text::specs::Ascii::ascii))]
fn heading_in(s: &[u8]) -> Option<Heading>
    ensures { heading_said result ≡ heading_in s.now }
{
    let Some(n) = name_end(s) else {
        return Some(Heading::Hash(same(b"SHA-256", s)));
    };
    heading_value(&s[..n], value_behind(s, n)?)
}

#[tactic(auto, unfolding(crate::specs::Lines::heading))]
fn heading_of(s: &[u8]) -> Option<Heading>
    ensures { heading_said result ≡ heading s.now }
{
    match s {
        [_, inner @ .., b']'] => heading_in(inner),
        _ => None,
    }
}

#[tactic(auto, unfolding(crate::specs::Lines::field, crate::specs::Lines::field_says))]
fn field(s: &[u8]) -> Option<Said<'_>>
    requires { length s.now ≤ 4096 }
    ensures says { says_of result ≡ field s.now }
    ensures digits { DigitsIn s.now result }
{
    let n = name_end(s)?;
    let value = value_behind(s, n)?;
    match name::name_of(&s[..n])? {
        Name::Count => Some(Said::Count(decimal::number_of(value)?)),
        name if hex::is_hex(value) => Some(Said::Field(name, value)),
        _ => None,
    }
}

// A line, without its end; none where it can't be read.
#[tactic(auto, unfolding(crate::specs::Lines::says))]
pub fn read(s: &[u8]) -> Option<Said<'_>>
    ensures says { says_of result ≡ says s.now }
    ensures digits { DigitsIn s.now result }
{
    if 4096 < s.len() {
        return None;
    }
    match s {
        [] | [b'#', ..] => Some(Said::Nothing),
        [b'[', ..] => Some(Said::Heading(heading_of(s)?)),
        _ => field(s),
    }
}
