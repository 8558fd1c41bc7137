// The lent output, filled in place one hash after the other.
ghost use Rattle.std.specs.Prelude.{◌≡◌, ◌-◌, ◌<◌, min, length};
ghost use Rattle.std.proofs.Math.Seq.{paste};

// As much of w as there is room for from `at` on.
pub fn store(out: &mut [u8], at: usize, w: [u8; 32])
    requires { at < length out.old }
    ensures { out.new ≡ paste out.old at w (min 32 (length out.old - at)) }
{
    let n = (out.len() - at).min(32);
    copies::copy(out, at, &w[..n]);
}
