// Bare compressions, for the bench: nothing but the blocks of a text, each absorbed into the words of the one before.

#![tactic(auto)]

ghost use Rattle.std.specs.Prelude.{◌≡◌, ◌/◌, length};
ghost use Rattle.standard.specs.Hash.{absorbed};
ghost use Rattle.standard.specs.Sha256.{sha256};

use compression::rounds;

// The first word after the text's whole blocks.
#[unsafe(no_mangle)]
pub extern "C" fn purangsa_bare(text: &[u8]) -> u32
    ensures { result ≡ (absorbed sha256 text.now (length text.now / 64) sha256.initial).value.a }
{
    let mut s = rounds::initial();
    for block in text.chunks_exact(64) {
        s = rounds::compress(s, block);
    }
    s.a
}
