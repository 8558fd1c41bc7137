// FIPS 180-4 §5.1.1: the last blocks of a message, in a scratch block.
ghost use Rattle.std.specs.Prelude.{◌≡◌, ◌∷◌, ◌++◌, ◌-◌, ◌<◌, take, replicate};
ghost use Rattle.standard.specs.Strings.{bytes_of};

// Scratch as the block in which the padding begins: a bit 1 behind the first `fill`, then zeros.
pub fn marked(old: [u8; 64], fill: usize) -> [u8; 64]
    requires { fill < 64 }
    ensures { result ≡ take fill old ++ (0x80 ∷ replicate (63 - fill) 0x00) }
{
    let mut block = old;
    block[fill] = 128;
    block[fill + 1..].fill(0);
    block
}

// The length in bits at a block's end.
pub fn with_length(old: [u8; 64], bits: u64) -> [u8; 64]
    ensures { result ≡ take 56 old ++ bytes_of 8 bits }
{
    let mut block = old;
    block[56..].copy_from_slice(&bits.to_be_bytes());
    block
}
