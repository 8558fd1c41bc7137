// A mechanism on a generator as it stands in a slot: its two fields are lent, and led on in their places. Each function hands back the
// blocks that it has consumed.
ghost use Rattle.std.specs.Prelude.{◌≡◌, ℕ, ◌+◌, ◌≤◌, length};
ghost use Rattle.standard.specs.Functions.{Mechanism, opening, reseeding, draw};
ghost use Rattle.standard.specs.Sha256.{sha256};
ghost use Rattle.drbg_shared.specs.Generator.{Fields, state_of, served, filled, holding, led_on};

pub trait Drbg {
    // which of the standard's it is
    ghost mechanism: { Mechanism };

    // SP 800-90A §9.1, step 9.
    fn opened<'a>(
        first: &mut [u8; 55],
        second: &mut [u8; 55],
        entropy: &'a [u8],
        nonce: &'a [u8],
        personalization: &'a [u8],
    ) -> u64
        requires { (length entropy.now ≤ 1024) × (length nonce.now ≤ 64) × (length personalization.now ≤ 512) }
        ensures is { led_on first.new second.new 1 result
            ≡ served (opening sha256 mechanism entropy.now nonce.now personalization.now) }
        ensures sized { Fields first.new second.new };

    // §9.2, step 6.
    fn reseeded<'a>(
        first: &mut [u8; 55],
        second: &mut [u8; 55],
        entropy: &'a [u8],
        additional: &'a [u8],
    ) -> u64
        requires { (length entropy.now ≤ 1024) × (length additional.now ≤ 1024) }
        ensures is { (counter : ℕ) → led_on first.new second.new 1 result
            ≡ served (reseeding sha256 mechanism (state_of mechanism (holding first.old second.old counter))
            entropy.now additional.now) }
        ensures few { result ≤ 8288 }
        ensures sized { Fields first.new second.new };

    // §9.3.1, step 8.
    fn drawn(
        first: &mut [u8; 55],
        second: &mut [u8; 55],
        counter: u64,
        additional: &[u8],
        out: &mut [u8],
    ) -> u64
        requires { (length out.old ≤ 65536) × (length additional.now ≤ 1024) }
        ensures is { record { served = led_on first.new second.new (counter + 1) result; output = out.new }
            ≡ filled (draw sha256 mechanism (state_of mechanism (holding first.old second.old counter))
            (length out.old) additional.now) }
        ensures few { result ≤ 8288 }
        ensures sized { Fields first.new second.new };
}
