// Three lent strings, which are read as one.
ghost use Rattle.std.specs.Prelude.{◌≡◌, ◌-◌, ◌≤◌, ◌<◌, ◌^◌, length, take, drop};

#[derive(Clone, Copy)]
pub struct Strings<'a> {
    pub first: &'a [u8],
    pub second: &'a [u8],
    pub third: &'a [u8],
}

impl<'a> Strings<'a> {
    ghost use Rattle.sha256.specs.Seed.{material, size, end_of, Short};

    // A string alone.
    pub fn one(first: &'a [u8]) -> Strings<'a>
        ensures is { material result ≡ first.now }
        ensures short { length first.now ≤ 1024 → Short result }
    {
        Strings {
            first,
            second: &[],
            third: &[],
        }
    }

    // How many bytes the three are.
    pub fn len(self) -> usize
        requires { size self < 2 ^ 64 }
        ensures { result ≡ size self.entry }
    {
        self.first.len() + self.second.len() + self.third.len()
    }

    // The string that a place stands in, from there to its end: nothing where the place is the end of all.
    pub fn rest(self, at: usize) -> &'a [u8]
        requires { at ≤ size self }
        ensures { result.now ≡ take (end_of self.entry at - at) (drop at (material self.entry)) }
    {
        if at < self.first.len() {
            return &self.first[at..];
        }
        let in_second = at - self.first.len();
        if in_second < self.second.len() {
            return &self.second[in_second..];
        }
        let in_third = in_second - self.second.len();
        &self.third[in_third..]
    }
}
