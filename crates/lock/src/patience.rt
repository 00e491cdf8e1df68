// Document 02, request 2.2: the third noted time, and patience, which runs from it.
ghost use Rattle.std.specs.Prelude.{◌≡◌, ◌≤◌};
ghost use Rattle.lock.specs.rules.Steps.{first_noted, out_of_patience};
ghost use Rattle.lock.specs.rules.Unreadable.{taken_first};

use crate::{Record, Settings};

impl Record {
    // "a third noted time, the clock at which its first piece was taken"
    pub fn first_noted(mut self, clock: u64) -> Record
        ensures { result ≡ first_noted self clock }
    {
        if 0 < self.current {
            return self;
        }
        self.taken = clock;
        self
    }

    // "A step in phases 1 to 8 of a second piece, with clock less that time at least P"
    pub fn out_of_patience(self, settings: Settings, clock: u64) -> bool
        requires { self.taken ≤ clock }
        ensures { result ≡ out_of_patience settings self clock }
    {
        (1 <= self.phase)
            & (self.phase <= 8)
            & (0 < self.current)
            & (settings.patience <= clock - self.taken)
    }

    // "a nonzero time at a first piece, save in 9 or in 10 with outcome 1"
    pub fn taken_first(self) -> bool
        ensures { result ≡ taken_first self }
    {
        (0 < self.taken)
            & (self.current == 0)
            & !((self.phase == 9) | ((self.phase == 10) & (self.outcome == 1)))
    }
}
