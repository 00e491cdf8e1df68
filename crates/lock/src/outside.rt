// Cause 1, "H, m or T outside its range", and P.
ghost use Rattle.std.specs.Prelude.{◌≡◌, [], ◌∷◌, IfOk};
ghost use Rattle.base.specs.rules.Refusals.{number_in};
ghost use Rattle.lock.specs.rules.Calls.{first_cause, levels_or_distance_outside, settings_outside};

use crate::{Settings, ValidSettings};
use base::Refusal;

// H and m alone, as the step count asks.
pub fn levels_or_distance_outside(h: u64, m: u64) -> bool
    ensures { result ≡ levels_or_distance_outside h m }
{
    (h < 2) | (12 < h) | (m < 1) | (4 < m)
}

impl Settings {
    pub fn outside(self) -> bool
        ensures { result ≡ settings_outside self }
    {
        levels_or_distance_outside(self.levels, self.distance)
            | (self.wait < 1)
            | (4294967295 < self.wait)
            | (self.patience < 1)
            | (4294967295 < self.patience)
    }

    // The settings as tested, or cause 1. A method, like `tree_tests` and `post_tests`, which take more than the settings and so can be no `TryFrom`.
    pub fn valid(self) -> Result<ValidSettings, Refusal>
        ensures number { number_in result ≡ first_cause ((settings_outside self, 1) ∷ []) }
        ensures same { IfOk result (λ valid. valid.values ≡ self) }
    {
        if self.outside() {
            return Err(Refusal::Settings);
        }
        Ok(ValidSettings { values: self })
    }
}
