// Document 02, request 2.3: when a claim is late.
ghost use Rattle.std.specs.Prelude.{◌≡◌, ◌≤◌};
ghost use Rattle.lock.specs.rules.Steps.{late};

use crate::{Record, ValidSettings};

impl Record {
    // "A claim is late unless 10,001 × (clock - t1) < 9,999 × T." From T on it is late in any case; below T, which has 32 bits, both products fit 64.
    pub fn late(self, settings: ValidSettings, clock: u64) -> bool
        requires { self.t1 ≤ clock }
        ensures { result ≡ late settings.values self clock }
    {
        let elapsed = clock - self.t1;
        if settings.values.wait <= elapsed {
            return true;
        }
        9999 * settings.values.wait <= 10001 * elapsed
    }
}
