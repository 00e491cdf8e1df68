// A record's pieces, their grips and notices. "A piece before the current one has grip 3 and all its notices."
ghost use Rattle.std.specs.Prelude.{◌≡◌, ◌≤◌, ◌<◌, length, eqb};
ghost use Rattle.tree.specs.rules.Tree.{Node};
ghost use Rattle.lock.specs.rules.Records.{pieces, piece_at, is_leaf, grip_of, notices_of};

use crate::{Record, Settings};

impl Record {
    // The second piece is 0 for none: a record is C's.
    pub fn piece_count(self) -> u64
        ensures { result ≡ length (pieces self) }
    {
        if self.second == 0 {
            return 1;
        }
        2
    }

    pub fn piece_at(self, i: u64) -> u64
        requires { i < length (pieces self) }
        ensures { result ≡ piece_at self i }
    {
        if i == 0 {
            return self.first;
        }
        self.second
    }

    pub fn grip_of(self, i: u64) -> u64
        ensures { result ≡ grip_of self i }
    {
        if i < self.current {
            return 3;
        }
        if i == self.current {
            return self.grip;
        }
        0
    }

    pub fn notices_of(self, settings: Settings, i: u64) -> u64
        requires { (1 ≤ settings.distance) × (settings.distance ≤ 4) × (i < length (pieces self)) × Node 12 (piece_at self i) }
        ensures { result ≡ notices_of settings self i }
    {
        if i < self.current {
            return tree::notify_count(settings.distance, self.piece_at(i));
        }
        self.notices
    }
}

impl Settings {
    pub fn is_leaf(self, n: u64) -> bool
        requires { Node 12 n }
        ensures { result ≡ is_leaf self n }
    {
        tree::level(n) == self.levels
    }
}
