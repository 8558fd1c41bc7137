// Bytes in hexadecimal digits, two a byte, the higher one first.
ghost use Rattle.std.specs.Prelude.{◌≡◌, true, ◌+◌, ◌*◌, ◌/◌, ◌<◌, ◌≤◌, length, ltb, unwrap_or, IfSome};
ghost use Rattle.text.specs.Writing.{Appends};
ghost use Rattle.rsp_line.specs.Hex.{digit_of, is_hex, bytes_of};

// What a character is as a digit.
#[tactic(auto, unfolding(crate::specs::Hex::digit_of))]
pub fn digit_of(c: u8) -> Option<u8>
    ensures is { unwrap_or result 16 ≡ digit_of c }
    ensures below { IfSome result (λ d. d < 16) }
{
    match c {
        b'0'..=b'9' => Some(c - b'0'),
        b'a'..=b'f' => Some(c - b'a' + 10),
        b'A'..=b'F' => Some(c - b'A' + 10),
        _ => None,
    }
}

fn is_digit(c: u8) -> bool
    ensures { result ≡ ltb (digit_of c) 16 }
{
    digit_of(c).is_some()
}

pub fn is_hex(s: &[u8]) -> bool
    ensures { result ≡ is_hex s.now }
{
    // No early exit: so the characters are tested many at a time.
    s.len() % 2 == 0 && s.iter().fold(true, |all, c| all & is_digit(*c))
}

// The byte of two digits.
fn byte_of(high: u8, low: u8) -> u8
    requires { (digit_of high < 16) × (digit_of low < 16) }
    ensures { result ≡ 16 * digit_of high + digit_of low }
{
    let high_digit = digit_of(high).unwrap();
    let low_digit = digit_of(low).unwrap();
    16 * high_digit + low_digit
}

// The bytes, written at a place: what is promised is where they stand in the lent bytes.
pub fn decode(s: &[u8], out: &mut [u8], at: usize) -> usize
    requires { (is_hex s.now ≡ true) × (at + length s.now / 2 ≤ length out.old) }
    ensures { Appends out.old at (bytes_of s.now) result out.new }
{
    let (pairs, _) = s.as_chunks::<2>();
    // By index: nothing is told of what an adapter of iter_mut writes.
    for (i, [high, low]) in pairs.iter().enumerate() {
        out[at + i] = byte_of(*high, *low);
    }
    at + pairs.len()
}
