// FIPS 180-4 §4.1.2: the six functions on words.
// The document's forms take more operations, or more copies of a word: proofs/WordForms.antt has the laws between the two.
ghost use Rattle.std.specs.Prelude.{◌≡◌};
ghost use Rattle.standard.specs.Words.{Ch, Maj, Σ, σ};
ghost use Rattle.standard.specs.Sha256.{sha256};

pub fn ch(x: u32, y: u32, z: u32) -> u32
    ensures { result ≡ Ch 32 x y z }
{
    z ^ (x & (y ^ z))
}

// y ^ z was x ^ y a turn before: the compiler keeps it.
pub fn maj(x: u32, y: u32, z: u32) -> u32
    ensures { result ≡ Maj x y z }
{
    y ^ ((x ^ y) & (y ^ z))
}

// Of each function's rotations the first is taken outside the second: by 13 is by 11, then by 2.
// Four functions, each with the document's name: one over the amounts would only be called by these four.
pub fn upper_sigma_0(x: u32) -> u32
    ensures { result ≡ Σ 32 sha256.Σ₀ x }
{
    (x ^ x.rotate_right(11)).rotate_right(2) ^ x.rotate_right(22)
}

pub fn upper_sigma_1(x: u32) -> u32
    ensures { result ≡ Σ 32 sha256.Σ₁ x }
{
    (x ^ x.rotate_right(5)).rotate_right(6) ^ x.rotate_right(25)
}

pub fn lower_sigma_0(x: u32) -> u32
    ensures { result ≡ σ 32 sha256.σ₀ x }
{
    (x ^ x.rotate_right(11)).rotate_right(7) ^ x >> 3
}

pub fn lower_sigma_1(x: u32) -> u32
    ensures { result ≡ σ 32 sha256.σ₁ x }
{
    (x ^ x.rotate_right(2)).rotate_right(17) ^ x >> 10
}
