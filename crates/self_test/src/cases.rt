// A case of each kind, run from the fresh table. A draw is one of 128 bytes, and the first generator has handle 16.
ghost use Rattle.std.specs.Prelude.{◌≡◌};
ghost use Rattle.self_test.specs.Cases as kinds;
ghost use Rattle.self_test.specs.Cases.{holds};
ghost use Rattle.self_test.specs.Strings.{reseeded_of, fresh_of};

use reasons::Reason;
use same::same;
use slots::sizes;

// The strings of one of NIST's cases, each numbered by the call that takes it: without prediction resistance (pr_false) ..
// (Two types: they have other strings, and other calls take them. A mechanism is a number here, as the calls take it.)
#[derive(Clone, Copy)]
pub struct Reseeded<'a> {
    pub entropy1: &'a [u8],
    pub nonce: &'a [u8],
    pub personalization: &'a [u8],
    pub entropy2: &'a [u8],
    pub additional2: &'a [u8],
    pub additional3: &'a [u8],
    pub additional4: &'a [u8],
    pub returned: &'a [u8],
}

// .. and with it (pr_true).
#[derive(Clone, Copy)]
pub struct Fresh<'a> {
    pub entropy1: &'a [u8],
    pub nonce: &'a [u8],
    pub personalization: &'a [u8],
    pub entropy2: &'a [u8],
    pub additional2: &'a [u8],
    pub entropy3: &'a [u8],
    pub additional3: &'a [u8],
    pub returned: &'a [u8],
}

impl Reseeded<'_> {
    // Opens, reseeds and draws twice; the last draw's bytes are compared.
    pub fn holds(&self, mechanism: u64) -> bool
        ensures { result ≡ holds (kinds.reseeded mechanism (reseeded_of self.now)) }
    {
        let mut table = [0u8; sizes::TABLE];
        let mut out = [0u8; 128];
        let _ = calls::open(
            &mut table,
            mechanism,
            256,
            2,
            false,
            self.entropy1,
            self.nonce,
            self.personalization,
        );
        let _ = calls::reseed(&mut table, 16, self.entropy2, self.additional2);
        let _ = calls::draw(&mut table, 16, 256, self.additional3, &mut out);
        let mut last = [0u8; 128];
        let drawn = calls::draw(&mut table, 16, 256, self.additional4, &mut last);
        drawn.is_ok() & same(&last, self.returned)
    }
}

impl Fresh<'_> {
    // Opens with the fresh right and draws fresh twice; the last draw's bytes are compared.
    pub fn holds(&self, mechanism: u64) -> bool
        ensures { result ≡ holds (kinds.fresh mechanism (fresh_of self.now)) }
    {
        let mut table = [0u8; sizes::TABLE];
        let mut out = [0u8; 128];
        let _ = calls::open(
            &mut table,
            mechanism,
            256,
            2,
            true,
            self.entropy1,
            self.nonce,
            self.personalization,
        );
        let _ = calls::fresh_draw(
            &mut table,
            16,
            256,
            self.entropy2,
            self.additional2,
            &mut out,
        );
        let mut last = [0u8; 128];
        let drawn = calls::fresh_draw(
            &mut table,
            16,
            256,
            self.entropy3,
            self.additional3,
            &mut last,
        );
        drawn.is_ok() & same(&last, self.returned)
    }
}

// Opens, and draws under a handle that names no generator; answer, table and output are compared.
pub fn refused<'a>(
    mechanism: u64,
    entropy: &'a [u8],
    nonce: &'a [u8],
    personalization: &'a [u8],
    additional: &'a [u8],
) -> bool
    ensures { result ≡ holds (kinds.refused mechanism
        entropy.now nonce.now personalization.now additional.now) }
{
    let mut table = [0u8; sizes::TABLE];
    let _ = calls::open(
        &mut table,
        mechanism,
        256,
        2,
        false,
        entropy,
        nonce,
        personalization,
    );
    let before = table;
    let mut out = [165u8; 128];
    let drawn = calls::draw(&mut table, 32, 256, additional, &mut out);
    (drawn == Err(Reason::NoSuchGenerator)) & same(&table, &before) & same(&out, &[165u8; 128])
}
