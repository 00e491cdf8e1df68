// Whether a client record is unreadable: document 01's paragraph "Unreadable", as what every phase but idle asks and what a phase asks beside it (by_phase.rt). The test is made at
// every call on every record, so the clauses that another implies in a phase are left out there.
ghost use Rattle.std.specs.Prelude.{◌≡◌};
ghost use Rattle.lock.specs.rules.Unreadable.{idle_filled, unreadable};
ghost use Rattle.lock.specs.laws.OwnTests.{not_begun};

use crate::{Record, ValidSettings};

impl Record {
    // "idle with a nonzero field beside the outcome"; a derived `==` says in a proof what it compares, and `!=` does not.
    fn idle_filled(self) -> bool
        requires { self.phase ≡ 0 }
        ensures { result ≡ idle_filled self }
    {
        !(self == Record::idle_with(self.outcome))
    }

    // "a window outside the tree, pieces that aren't its cover, a current piece that doesn't exist, a ticket over 32,767", "a noted time after the last clock"; 2.2, "a
    // nonzero time at a first piece, save in 9 or in 10 with outcome 1"
    fn not_begun(self, settings: ValidSettings, last: u64) -> bool
        ensures { result ≡ not_begun settings.values self last }
    {
        cover::not_cover(
            settings.values.levels,
            self.left,
            self.right,
            self.first,
            self.second,
        ) | (self.piece_count() <= self.current)
            | (32767 < self.ticket)
            | ((last < self.t1) | (last < self.t0) | (last < self.taken))
            | self.taken_first()
    }

    pub fn unreadable(self, settings: ValidSettings, last: u64) -> bool
        ensures { result ≡ unreadable settings.values self last }
    {
        if self.phase == 0 {
            return (4 < self.outcome) | self.idle_filled();
        }
        if self.not_begun(settings, last) {
            return true;
        }
        self.own_wrong(settings)
    }
}
