// FIPS 180-4 §6.2.2, 2 to 4: the compression of one block.
ghost use Rattle.std.specs.Prelude.{◌≡◌, ℕ, ◌+◌, ◌<◌, ◌≤◌, List, length};
ghost use Rattle.standard.specs.Hash.{schedule, turn, added, compressed, T₁, T₂};
ghost use Rattle.standard.specs.Ring.{Reached, Turned};
ghost use Rattle.standard.specs.Sha256.{sha256, K256, initial256};
ghost use Rattle.compression.specs.Values.{eight_of};

use crate::{schedule, words};

// The eight words of a hash value, or the eight working variables.
#[derive(Clone, Copy)]
pub struct Eight {
    pub a: u32,
    pub b: u32,
    pub c: u32,
    pub d: u32,
    pub e: u32,
    pub f: u32,
    pub g: u32,
    pub h: u32,
}

// §4.2.2
pub const K: [u32; 64] = [
    0x428a2f98, 0x71374491, 0xb5c0fbcf, 0xe9b5dba5, 0x3956c25b, 0x59f111f1, 0x923f82a4, 0xab1c5ed5,
    0xd807aa98, 0x12835b01, 0x243185be, 0x550c7dc3, 0x72be5d74, 0x80deb1fe, 0x9bdc06a7, 0xc19bf174,
    0xe49b69c1, 0xefbe4786, 0x0fc19dc6, 0x240ca1cc, 0x2de92c6f, 0x4a7484aa, 0x5cb0a9dc, 0x76f988da,
    0x983e5152, 0xa831c66d, 0xb00327c8, 0xbf597fc7, 0xc6e00bf3, 0xd5a79147, 0x06ca6351, 0x14292967,
    0x27b70a85, 0x2e1b2138, 0x4d2c6dfc, 0x53380d13, 0x650a7354, 0x766a0abb, 0x81c2c92e, 0x92722c85,
    0xa2bfe8a1, 0xa81a664b, 0xc24b8b70, 0xc76c51a3, 0xd192e819, 0xd6990624, 0xf40e3585, 0x106aa070,
    0x19a4c116, 0x1e376c08, 0x2748774c, 0x34b0bcb5, 0x391c0cb3, 0x4ed8aa4a, 0x5b9cca4f, 0x682e6ff3,
    0x748f82ee, 0x78a5636f, 0x84c87814, 0x8cc70208, 0x90befffa, 0xa4506ceb, 0xbef9a3f7, 0xc67178f2,
];

// §5.3.3
pub fn initial() -> Eight
    ensures { eight_of result ≡ initial256 }
{
    Eight {
        a: 0x6a09e667,
        b: 0xbb67ae85,
        c: 0x3c6ef372,
        d: 0xa54ff53a,
        e: 0x510e527f,
        f: 0x9b05688c,
        g: 0x1f83d9ab,
        h: 0x5be0cd19,
    }
}

// Step 3, T₁ and T₂. Sums of words are the supplied wrapping add.
fn t1(s: Eight, k: u32, w: u32) -> u32
    ensures { result ≡ T₁ sha256 (eight_of s) k w }
{
    s.h.wrapping_add(words::upper_sigma_1(s.e))
        .wrapping_add(words::ch(s.e, s.f, s.g))
        .wrapping_add(k)
        .wrapping_add(w)
}

fn t2(s: Eight) -> u32
    ensures { result ≡ T₂ sha256 (eight_of s) }
{
    words::upper_sigma_0(s.a).wrapping_add(words::maj(s.a, s.b, s.c))
}

fn turned(s: Eight, k: u32, w: u32) -> Eight
    ensures { eight_of result ≡ turn sha256 (eight_of s) k w }
{
    let t = t1(s, k, w);
    Eight {
        a: t.wrapping_add(t2(s)),
        b: s.a,
        c: s.b,
        d: s.c,
        e: s.d.wrapping_add(t),
        f: s.e,
        g: s.f,
        h: s.g,
    }
}

// Turn t, with word t from its place.
fn turned_at(s: Eight, k: [u32; 64], w: [u32; 16], t: usize) -> Eight
    requires { t < 64 }
    ensures { Turned sha256 1 t k w (eight_of s) (eight_of result) }
{
    turned(s, k[t], w[t % 16])
}

// Two turns more: the compiler still puts the body of this one in the place of each call, but not that of four.
pub fn two_turns(s: Eight, k: [u32; 64], w: [u32; 16], t: usize) -> Eight
    requires { t + 2 ≤ 64 }
    ensures { Turned sha256 2 t k w (eight_of s) (eight_of result) }
{
    let next = turned_at(s, k, w, t);
    turned_at(next, k, w, t + 1)
}

// Step 3, and the later words of step 1: two turns, then the two words that take the places of theirs, which is the quickest order. All is
// written out: then every place is known when the crate is compiled and no array is left at run time, no working variable is moved, and a
// constant is a part of its instruction.
#[inline(always)]
pub fn all_turns(from: Eight, k: [u32; 64], w16: [u32; 16]) -> Eight
    ensures { (block : List ℕ) → k ≡ K256 → w16 ≡ schedule sha256 block 16 → Reached sha256 block (eight_of from) 64 (eight_of result) }
{
    let s2 = two_turns(from, k, w16, 0);
    let w18 = schedule::with_two(w16, 16);
    let s4 = two_turns(s2, k, w18, 2);
    let w20 = schedule::with_two(w18, 18);
    let s6 = two_turns(s4, k, w20, 4);
    let w22 = schedule::with_two(w20, 20);
    let s8 = two_turns(s6, k, w22, 6);
    let w24 = schedule::with_two(w22, 22);
    let s10 = two_turns(s8, k, w24, 8);
    let w26 = schedule::with_two(w24, 24);
    let s12 = two_turns(s10, k, w26, 10);
    let w28 = schedule::with_two(w26, 26);
    let s14 = two_turns(s12, k, w28, 12);
    let w30 = schedule::with_two(w28, 28);
    let s16 = two_turns(s14, k, w30, 14);
    let w32 = schedule::with_two(w30, 30);
    let s18 = two_turns(s16, k, w32, 16);
    let w34 = schedule::with_two(w32, 32);
    let s20 = two_turns(s18, k, w34, 18);
    let w36 = schedule::with_two(w34, 34);
    let s22 = two_turns(s20, k, w36, 20);
    let w38 = schedule::with_two(w36, 36);
    let s24 = two_turns(s22, k, w38, 22);
    let w40 = schedule::with_two(w38, 38);
    let s26 = two_turns(s24, k, w40, 24);
    let w42 = schedule::with_two(w40, 40);
    let s28 = two_turns(s26, k, w42, 26);
    let w44 = schedule::with_two(w42, 42);
    let s30 = two_turns(s28, k, w44, 28);
    let w46 = schedule::with_two(w44, 44);
    let s32 = two_turns(s30, k, w46, 30);
    let w48 = schedule::with_two(w46, 46);
    let s34 = two_turns(s32, k, w48, 32);
    let w50 = schedule::with_two(w48, 48);
    let s36 = two_turns(s34, k, w50, 34);
    let w52 = schedule::with_two(w50, 50);
    let s38 = two_turns(s36, k, w52, 36);
    let w54 = schedule::with_two(w52, 52);
    let s40 = two_turns(s38, k, w54, 38);
    let w56 = schedule::with_two(w54, 54);
    let s42 = two_turns(s40, k, w56, 40);
    let w58 = schedule::with_two(w56, 56);
    let s44 = two_turns(s42, k, w58, 42);
    let w60 = schedule::with_two(w58, 58);
    let s46 = two_turns(s44, k, w60, 44);
    let w62 = schedule::with_two(w60, 60);
    let s48 = two_turns(s46, k, w62, 46);
    let w64 = schedule::with_two(w62, 62);
    let s50 = two_turns(s48, k, w64, 48);
    let s52 = two_turns(s50, k, w64, 50);
    let s54 = two_turns(s52, k, w64, 52);
    let s56 = two_turns(s54, k, w64, 54);
    let s58 = two_turns(s56, k, w64, 56);
    let s60 = two_turns(s58, k, w64, 58);
    let s62 = two_turns(s60, k, w64, 60);
    two_turns(s62, k, w64, 62)
}

// Step 4.
pub fn sums(s: Eight, v: Eight) -> Eight
    ensures { eight_of result ≡ added sha256 (eight_of s) (eight_of v) }
{
    Eight {
        a: v.a.wrapping_add(s.a),
        b: v.b.wrapping_add(s.b),
        c: v.c.wrapping_add(s.c),
        d: v.d.wrapping_add(s.d),
        e: v.e.wrapping_add(s.e),
        f: v.f.wrapping_add(s.f),
        g: v.g.wrapping_add(s.g),
        h: v.h.wrapping_add(s.h),
    }
}

// The hash value after one more block.
pub fn compress(s: Eight, block: &[u8]) -> Eight
    requires { length block.now ≡ 64 }
    ensures { eight_of result ≡ compressed sha256 (eight_of s) block.now }
{
    let w = schedule::block_words(block);
    sums(s, all_turns(s, K, w))
}
