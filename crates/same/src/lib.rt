// Whether two strings are equal: every byte is looked at, whatever those before it were.

#![tactic(auto)]

ghost use Rattle.std.specs.Prelude.{◌≡◌};
ghost use Rattle.same.specs.Same.{same};

pub fn same(a: &[u8], b: &[u8]) -> bool
    ensures { result ≡ same a.now b.now }
{
    if a.len() != b.len() {
        return false;
    }
    let mut equal = true;
    for (x, y) in a.iter().zip(b) {
        equal &= x == y;
    }
    equal
}
