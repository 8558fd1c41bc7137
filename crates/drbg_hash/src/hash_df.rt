// SP 800-90A §10.3.1: Hash_df for 55 bytes, which are two hashes.
ghost use Rattle.std.specs.Prelude.{◌≡◌, ◌∷◌, ◌++◌, ◌≤◌, length};
ghost use Rattle.standard.specs.Hash.{hash};
ghost use Rattle.standard.specs.HashDf.{hash_df};
ghost use Rattle.standard.specs.Sha256.{sha256};
ghost use Rattle.sha256.specs.Seed.{material, Short};
ghost use Rattle.sha256.specs.Values.{digest_of};
ghost use Rattle.drbg_shared.specs.Costs.{costing};

use drbg_shared::joined;
use sha256::running::Digest;
use sha256::strings::Strings;

// Step 4.1: the counter, 440 in four bytes, and the input, read through as one: a mark and V where there are, then the caller's strings.
fn counted_hash(counter: u8, mark: &[u8], v: &[u8], strings: &Strings<'_>) -> Digest
    requires mark_len_bound { (length mark.now ≤ 64) × (length v.now ≤ 64) }
    requires short { Short strings.now }
    ensures { digest_of result ≡ hash sha256 (counter ∷ 0x00 ∷ 0x00 ∷ 0x01 ∷ 0xb8 ∷
        (mark.now ++ (v.now ++ material strings.now))) }
{
    let begun = [counter, 0, 0, 1, 184];
    joined::hash_joined(&begun, mark, v, strings)
}

// The leftmost 55 bytes of two hashes, in the place of `to`; the blocks are handed back.
pub fn derive(to: &mut [u8; 55], mark: &[u8], v: &[u8], strings: &Strings<'_>) -> u64
    requires mark_len_bound { (length mark.now ≤ 64) × (length v.now ≤ 64) }
    requires short { Short strings.now }
    ensures { costing result to.new ≡ hash_df sha256 (mark.now ++ (v.now ++ material strings.now)) 55 }
{
    let one = counted_hash(1, mark, v, strings);
    copies::copy(to, 0, &one.bytes);
    let two = counted_hash(2, mark, v, strings);
    copies::copy(to, 32, &two.bytes[..23]);
    one.blocks + two.blocks
}
