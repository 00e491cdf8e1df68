// The next record of each phase, a method for each row of the phase table. Why what is known of a record stays in the clauses, lib.rt says.
ghost use Rattle.std.specs.Prelude.{◌≡◌, ◌≤◌, ◌<◌, eqb, length};
ghost use Rattle.base.specs.rules.Choice.{choose};
ghost use Rattle.tree.specs.rules.Lists.{notify_list, check_list};
ghost use Rattle.lock.specs.rules.Records.{pieces, current_piece, with_t1};
ghost use Rattle.lock.specs.rules.Steps.{start_phase, begin, taken, ticket_taken, turn_awaited, go_up, climbed, unblocked, bits_claimed, occ_claimed, all_notified, notice_given, waited, check_passed};
ghost use Rattle.tree.specs.rules.Tree.{Node};
ghost use Rattle.lock.specs.laws.Placed.{Pieced};
ghost use Rattle.lock.specs.laws.StepLaws.{Read};

use crate::{Record, Settings, ValidSettings};
use word::{Dcnt, Dmax, Occ, Tcnt, Tmax};

impl Record {
    pub fn current_piece(self) -> u64
        requires { self.current < length (pieces self) }
        ensures { result ≡ current_piece self }
    {
        self.piece_at(self.current)
    }

    // 1 ticket
    #[tactic(auto, unfolding(crate::specs::rules::Steps::ticket_taken, base::specs::rules::Choice::choose))]
    pub fn ticket_taken(mut self, found: u64) -> Record
        ensures { result ≡ ticket_taken self found }
    {
        self.ticket = word::get::<Tmax>(found);
        self.grip = 1;
        self.phase = 2;
        self.place = 0;
        self
    }

    // 2 turn
    #[tactic(auto, unfolding(crate::specs::rules::Steps::turn_awaited, base::specs::rules::Choice::choose))]
    pub fn turn_awaited(mut self, found: u64) -> Record
        requires { self.current < length (pieces self) }
        ensures { result ≡ turn_awaited self found }
    {
        let n = self.current_piece();
        if word::get::<Tcnt>(found) != self.ticket {
            return self;
        }
        self.grip = 2;
        self.place = 0;
        if n == 1 {
            self.phase = 5;
            return self;
        }
        self.phase = 3;
        self
    }

    // "go up, after the root to 5": n is the ancestor that was read.
    fn go_up(mut self, n: u64) -> Record
        requires { Read n self }
        ensures { result ≡ go_up self }
    {
        if n == 1 {
            self.phase = 5;
            self.place = 0;
            return self;
        }
        self.place = self.place + 1;
        self
    }

    // "note t1 if it is the parent"
    #[tactic(auto, unfolding(base::specs::rules::Choice::choose))]
    fn parent_noted(mut self, clock: u64) -> Record
        ensures { result ≡ choose (eqb self.place 0) (with_t1 clock self) self }
    {
        if self.place == 0 {
            self.t1 = clock;
            return self;
        }
        self
    }

    // 3 climb
    #[tactic(auto, unfolding(crate::specs::rules::Steps::climbed, base::specs::rules::Choice::choose))]
    pub fn climbed(mut self, n: u64, found: u64, clock: u64) -> Record
        requires { Read n self }
        ensures { result ≡ climbed self found clock }
    {
        if word::get::<Occ>(found) == 1 {
            self.phase = 4;
            return self;
        }
        self.parent_noted(clock).go_up(n)
    }

    // 4 blocked
    #[tactic(auto, unfolding(crate::specs::rules::Steps::unblocked, base::specs::rules::Choice::choose))]
    pub fn unblocked(mut self, found: u64) -> Record
        ensures { result ≡ unblocked self found }
    {
        if word::get::<Occ>(found) == 0 {
            self.phase = 3;
            self.place = 0;
            return self;
        }
        self
    }

    // 5 claim of a leaf
    #[tactic(auto, unfolding(crate::specs::rules::Steps::bits_claimed, base::specs::rules::Choice::choose))]
    pub fn bits_claimed(mut self, done: bool) -> Record
        ensures { result ≡ bits_claimed self done }
    {
        self.place = 0;
        if done {
            self.grip = 3;
            self.phase = 6;
            return self;
        }
        self.phase = 3;
        self
    }

    // 5 claim of an inner node
    #[tactic(auto, unfolding(crate::specs::rules::Steps::occ_claimed, base::specs::rules::Choice::choose))]
    pub fn occ_claimed(mut self, clock: u64) -> Record
        requires { self.current < length (pieces self) }
        ensures { result ≡ occ_claimed self clock }
    {
        let piece = self.current_piece();
        self.t0 = clock;
        self.grip = 3;
        self.place = 0;
        if piece == 1 {
            self.phase = 7;
            return self;
        }
        self.phase = 6;
        self
    }

    // "Beginning a piece zeroes grip, ticket, notices, t1 and t0."
    fn begin(mut self, settings: Settings, i: u64) -> Record
        requires { Pieced self × (i < length (pieces self)) }
        ensures { result ≡ begin settings self i }
    {
        let phase = settings.start_phase(self.piece_at(i));
        self.phase = phase;
        self.current = i;
        self.grip = 0;
        self.ticket = 0;
        self.place = 0;
        self.notices = 0;
        self.t1 = 0;
        self.t0 = 0;
        self
    }

    // "A taken piece starts the next the same way, or gives 9."
    fn taken(self, settings: Settings, clock: u64) -> Record
        requires { Pieced self }
        ensures { result ≡ taken settings self clock }
    {
        let mut noted = self.first_noted(clock);
        let next = self.current + 1;
        if next < self.piece_count() {
            return noted.begin(settings, next);
        }
        noted.phase = 9;
        noted.place = 0;
        noted
    }

    // 6 notify, "After the last"
    fn all_notified(mut self, settings: ValidSettings, clock: u64) -> Record
        requires { Pieced self × (self.t1 ≤ clock) }
        ensures { result ≡ all_notified settings.values self clock }
    {
        if self.late(settings, clock) {
            self.outcome = 2;
            self.phase = 10;
            self.place = 0;
            return self;
        }
        if settings.values.is_leaf(self.current_piece()) {
            return self.taken(settings.values, clock);
        }
        self.phase = 7;
        self.place = 0;
        self
    }

    // 6 notify
    pub fn notice_given(mut self, settings: ValidSettings, clock: u64) -> Record
        requires { Pieced self × (self.place < length (notify_list settings.values.distance (current_piece self))) × (self.t1 ≤ clock) }
        ensures { result ≡ notice_given settings.values self clock }
    {
        let given = self.place + 1;
        let n = self.current_piece();
        self.notices = given;
        if given < tree::notify_count(settings.values.distance, n) {
            self.place = given;
            return self;
        }
        self.all_notified(settings, clock)
    }

    // 7 wait
    pub fn waited(mut self, settings: Settings, clock: u64) -> Record
        requires { self.t0 ≤ clock }
        ensures { result ≡ waited settings self clock }
    {
        if settings.wait <= clock - self.t0 {
            self.phase = 8;
            self.place = 0;
            return self;
        }
        self
    }

    // 8 check
    pub fn check_passed(mut self, settings: ValidSettings, found: u64, clock: u64) -> Record
        requires { Pieced self × Node settings.values.levels (current_piece self) × (self.place < length (check_list settings.values.levels settings.values.distance (current_piece self))) }
        ensures { result ≡ check_passed settings.values self found clock }
    {
        if word::get::<Dcnt>(found) != word::get::<Dmax>(found) {
            return self;
        }
        let passed = self.place + 1;
        let n = self.current_piece();
        if passed < tree::check_count(settings.values.levels, settings.values.distance, n) {
            self.place = passed;
            return self;
        }
        self.taken(settings.values, clock)
    }
}

impl Settings {
    // "phase 1 for an inner first piece and 3 for a leaf"
    pub fn start_phase(self, n: u64) -> u64
        requires { Node 12 n }
        ensures { result ≡ start_phase self n }
    {
        if self.is_leaf(n) {
            return 3;
        }
        1
    }
}
