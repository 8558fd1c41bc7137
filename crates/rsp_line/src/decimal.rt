// Numbers in decimal digits.
ghost use Rattle.std.specs.Prelude.{◌≡◌};
ghost use Rattle.rsp_line.specs.Decimal.{number_of};

// Digits alone: the library's parse takes a sign before them.
pub fn number_of(s: &[u8]) -> Option<u64>
    ensures { result ≡ number_of s.now }
{
    if s.is_empty() {
        return None;
    }
    let mut v: u64 = 0;
    for c in s {
        let digit = char::from(*c).to_digit(10)?;
        v = v.checked_mul(10)?.checked_add(u64::from(digit))?;
    }
    Some(v)
}
