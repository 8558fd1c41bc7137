// The hash of six strings read through as one, never gathered: what a mechanism puts first, then the caller's three.
ghost use Rattle.std.specs.Prelude.{◌≡◌, ◌++◌, ◌≤◌, length};
ghost use Rattle.standard.specs.Hash.{hash};
ghost use Rattle.standard.specs.Sha256.{sha256};
ghost use Rattle.sha256.specs.Seed.{material, Short};
ghost use Rattle.sha256.specs.Values.{digest_of};

use sha256::reader;
use sha256::running::{Digest, Running};
use sha256::strings::Strings;

pub fn hash_joined(first: &[u8], second: &[u8], third: &[u8], strings: &Strings<'_>) -> Digest
    requires first_len_bound { (length first.now ≤ 64) × (length second.now ≤ 64) × (length third.now ≤ 64) }
    requires short { Short strings.now }
    ensures { digest_of result ≡ hash sha256 (first.now ++ (second.now ++ (third.now ++ material strings.now))) }
{
    // One h that each reading takes the place of: chained calls would each have a frame's part of their own.
    let mut h = Running::new().update(first);
    h = h.update(second);
    h = h.update(third);
    h = reader::read_through(h, strings);
    h.finish().digest()
}
