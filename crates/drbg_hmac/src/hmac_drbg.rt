// SP 800-90A §10.1.2: HMAC_DRBG over SHA-256. Key and V are led on in their places; each function hands back the blocks that it has
// consumed.
ghost use Rattle.std.specs.Prelude.{◌≡◌, ◌≤◌, length};
ghost use Rattle.standard.specs.Strings.{ceiling, if_null};
ghost use Rattle.standard.specs.Metered.{return};
ghost use Rattle.standard.specs.HmacDrbg.{update, output_turns};
ghost use Rattle.standard.specs.Sha256.{sha256};
ghost use Rattle.sha256.specs.Seed.{material, Short};

use crate::hmac;
use drbg_shared::output;
use sha256::strings::Strings;

// Key and V.
#[derive(Clone, Copy)]
pub struct Keyed {
    pub key: [u8; 32],
    pub v: [u8; 32],
    pub ghost sized: { (length key ≡ 32) × (length v ≡ 32) },
}

impl Keyed {
    ghost use Rattle.drbg_hmac.specs.Keys.{ready, held, half, held_for, output_for, drawn_out};

    // §10.1.2.2, steps 1 and 2 (separator 0) or 4 and 5 (separator 1).
    fn half_update(&mut self, separator: u8, provided: &Strings<'_>) -> u64
        requires { Short provided.now }
        ensures { held_for result self.new ≡ half separator (material provided.now) (held self.old) }
    {
        let mac = hmac::hmac_of_all(&self.key, &self.v, separator, provided);
        let key = mac.bytes;
        self.key = key;
        let v = hmac::hmac_of(&key, &self.v);
        self.v = v;
        mac.blocks + 4
    }

    // §10.1.2.2
    pub fn update(&mut self, provided: &Strings<'_>) -> u64
        requires { Short provided.now }
        ensures { held_for result self.new ≡ update sha256 (material provided.now) (held self.old) }
    {
        let once = self.half_update(0, provided);
        if provided.len() == 0 {
            return once;
        }
        let twice = self.half_update(1, provided);
        once + twice
    }

    // §10.1.2.5, step 2
    pub fn refresh(&mut self, additional: &[u8]) -> u64
        requires { length additional.now ≤ 1024 }
        ensures { held_for result self.new
            ≡ (let u = held self.old in
            if_null additional.now (return u) (update sha256 additional.now u)) }
    {
        if additional.is_empty() {
            return 0;
        }
        self.update(&Strings::one(additional))
    }

    // §10.1.2.5, steps 3 to 5: the lent output is filled in place.
    pub fn output(&mut self, out: &mut [u8]) -> u64
        requires { length out.old ≤ 65536 }
        ensures is { output_for result out.new self.new.v ≡ drawn_out
            (output_turns sha256 (ready self.old.key) self.old.v (ceiling (length out.old) 32))
            (length out.old) }
        ensures key_stays { self.new.key ≡ self.old.key }
    {
        // By index: after chunks_mut nothing is known of the bytes.
        let mut at = 0;
        while at < out.len() {
            let v = hmac::hmac_of(&self.key, &self.v);
            self.v = v;
            output::store(out, at, v);
            at += 32;
        }
        4 * (at / 32) as u64
    }
}
