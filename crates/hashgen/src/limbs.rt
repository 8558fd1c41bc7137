// The data of a turn as limbs: V and the bit 1 that its padding begins with.
ghost use Rattle.std.specs.Prelude.{List, ℕ, ◌+◌};
ghost use Rattle.hashgen.specs.Turns.{Ready};

// The data of the turn behind it.
pub fn one_more(limbs: [u64; 7]) -> [u64; 7]
    ensures { (v : List ℕ) (n : ℕ) → Ready v n limbs → Ready v (n + 1) result }
{
    // 1, before the byte behind V
    sums::plus(limbs, [0, 0, 0, 0, 0, 0, 256])
}
