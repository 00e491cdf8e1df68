// What a phase asks of a record beside what every phase asks: one expression a phase, of the tests that the clauses of document 01's paragraph "Unreadable" leave there. That
// it is that paragraph is shown by a law a phase (proofs/laws/PhaseTests.antt). A clause more is one `|` in the expressions that it concerns, and its law. The matches are on the
// phase number, as document 01 has it. Why what is known of a record stays in the clauses, lib.rt says.
ghost use Rattle.std.specs.Prelude.{◌≡◌, ◌&&◌, ◌≤◌, ltb, length};
ghost use Rattle.base.specs.rules.Choice.{choose};
ghost use Rattle.tree.specs.rules.Lists.{notify_list};
ghost use Rattle.lock.specs.rules.Records.{current_piece, is_leaf, notices_of};
ghost use Rattle.lock.specs.rules.Unreadable.{differ};
ghost use Rattle.lock.specs.laws.ReadableLaws.{Begun};
ghost use Rattle.lock.specs.laws.OwnTests.{own_wrong};

use crate::{Record, ValidSettings};

// "in 3..5 0 for a leaf, else 2"
fn lacks_turn(grip: u64, leaf: bool) -> bool
    ensures { result ≡ choose leaf (differ grip 0) (differ grip 2) }
{
    (leaf & (grip != 0)) | (!leaf & (grip != 2))
}

// "in 10 0 or 3 for a leaf, else 0..3"
fn lacks_returning(grip: u64, leaf: bool) -> bool
    ensures { result ≡ choose leaf (differ grip 0 && differ grip 3) (ltb 3 grip) }
{
    (leaf & ((grip != 0) & (grip != 3))) | (!leaf & (3 < grip))
}

impl Record {
    // in 10, past the own word and the notices that the piece gave
    fn past_notices(self, settings: ValidSettings) -> bool
        requires { Begun settings.values self }
        ensures { result ≡ ltb (notices_of settings.values self self.giving) self.place }
    {
        if self.giving < self.current {
            return tree::notify_count(settings.values.distance, self.piece_at(self.giving))
                < self.place;
        }
        self.notices < self.place
    }

    // 10: outcome, place, notices, grip, the piece being given back. `count` is how many notices the current piece gives.
    fn returning_wrong(self, settings: ValidSettings, count: u64, leaf: bool) -> bool
        requires { Begun settings.values self × (self.phase ≡ 10) × (count ≡ length (notify_list settings.values.distance (current_piece self))) × (leaf ≡ is_leaf settings.values (current_piece self)) }
        ensures { result ≡ own_wrong settings.values self }
    {
        (4 < self.outcome)
            | self.past_notices(settings)
            | ((count < self.notices) | ((0 < self.notices) & (self.grip < 3)))
            | (self.outcome == 0)
            | lacks_returning(self.grip, leaf)
            | ((self.current < self.giving) | (self.grip_of(self.giving) == 0))
            | ((self.outcome == 4) & (self.current == 0))
    }

    // 6 to 10, where a piece that is not being returned has its bits or Occ: "3 in 6..9". Document 01 names this form, a match on the phase number.
    fn taken_wrong(self, settings: ValidSettings, node: u64, leaf: bool) -> bool
        requires { Begun settings.values self × (6 ≤ self.phase) × (node ≡ current_piece self) × (leaf ≡ is_leaf settings.values (current_piece self)) }
        ensures { result ≡ own_wrong settings.values self }
    {
        let phase = self.phase;
        let place = self.place;
        let notices = self.notices;
        let count = tree::notify_count(settings.values.distance, node);
        let strange = (0 < self.outcome) | (0 < self.giving) | (self.grip != 3);
        match phase {
            6 => strange | (count <= place) | (notices != place),
            7 => strange | (leaf | (0 < place)) | (count < notices),
            8 => {
                let checked = tree::check_count(
                    settings.values.levels,
                    settings.values.distance,
                    node,
                );
                strange | (leaf | (checked <= place)) | (count < notices)
            }
            9 => {
                let early = self.current + 1 < self.piece_count();
                strange | (0 < place) | (early | (count < notices))
            }
            10 => self.returning_wrong(settings, count, leaf),
            _ => true,
        }
    }

    // outcome and piece being given back, grip, where the phase may be and its place, notices
    pub(crate) fn own_wrong(self, settings: ValidSettings) -> bool
        requires { Begun settings.values self × (1 ≤ self.phase) }
        ensures { result ≡ own_wrong settings.values self }
    {
        let phase = self.phase;
        let place = self.place;
        let grip = self.grip;
        let node = self.piece_at(self.current);
        let level = tree::level(node);
        let leaf = level == settings.values.levels;
        let strange = (0 < self.outcome) | (0 < self.giving);
        let noticed = 0 < self.notices;
        match phase {
            1 => strange | (grip != 0) | (leaf | (0 < place)) | noticed,
            2 => strange | (grip != 1) | (leaf | (0 < place)) | noticed,
            3 => strange | lacks_turn(grip, leaf) | (level - 1 <= place) | noticed,
            4 => strange | lacks_turn(grip, leaf) | (level - 1 <= place) | noticed,
            5 => strange | lacks_turn(grip, leaf) | (0 < place) | noticed,
            _ => self.taken_wrong(settings, node, leaf),
        }
    }
}
