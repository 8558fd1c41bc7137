// SP 800-90A §10.1.1.4: Hashgen over SHA-256. A turn hashes V, V + 1, V + 2 and so on, each a message of one block. None waits for another,
// so they are made in groups of four as far as there is room, and one by one from there.

#![tactic(auto)]

pub mod groups;
pub mod limbs;
pub mod singles;

ghost use Rattle.std.specs.Prelude.{◌≡◌, ◌≤◌, length};
ghost use Rattle.standard.specs.Strings.{ceiling};
ghost use Rattle.standard.specs.HashDrbg.{hashgen, hashgen_turns};
ghost use Rattle.standard.specs.Sha256.{sha256};
ghost use Rattle.drbg_shared.specs.Costs.{costing};
ghost use Rattle.sums.specs.Limbs.{value_in, Marked};

// The lent output is filled in place, and the lent data moves on. The blocks are handed back.
pub fn filled(next: &mut [u64; 7], out: &mut [u8]) -> u64
    requires { (length next.old ≡ 7) × (length out.old ≤ 65536) × Marked next.old }
    ensures is { costing result out.new ≡ hashgen sha256 (length out.old) (value_in next.old) }
    ensures moved { value_in next.new
        ≡ (hashgen_turns sha256 (value_in next.old) (ceiling (length out.old) 32)).value.1 }
{
    let grouped = groups::filled(next, out);
    let turns = singles::filled(next, out, grouped);
    turns as u64
}
