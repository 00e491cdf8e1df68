// Phase 10: "Returning goes piece by piece, first piece first, each with its own word at place 0 and its notices after it." Why what is known of a record stays in the clauses, lib.rt says.
ghost use Rattle.std.specs.Prelude.{◌≡◌, ◌≤◌, ◌<◌, length};
ghost use Rattle.tree.specs.rules.Tree.{level, Node};
ghost use Rattle.cover.specs.rules.Cover.{Meets};
ghost use Rattle.lock.specs.rules.Records.{pieces, given_piece, idle_with};
ghost use Rattle.lock.specs.rules.Steps.{piece_returned, word_returned, turn_returned, wanted};
ghost use Rattle.lock.specs.laws.Rows.{leaves, moved_of, return_bits, return_inner, give_back};
ghost use Rattle.lock.specs.laws.Placed.{Pieced, Placed};

use crate::moves::Moved;
use crate::{Record, ValidSettings};
use base::Refusal;
use word::{Dcnt, Tcnt};

// What a step leaves at the touched node, and the next record.
pub fn leaves(word: u64, next: Record) -> Moved
    ensures { result ≡ record { word = word; next = next } }
{
    Moved { word, next }
}

impl Record {
    // "idle: all zero but the outcome"
    pub fn idle_with(outcome: u64) -> Record
        ensures { result ≡ idle_with outcome }
    {
        Record {
            outcome,
            ..Record::default()
        }
    }

    pub fn given_piece(self) -> u64
        requires { self.giving < length (pieces self) }
        ensures { result ≡ given_piece self }
    {
        self.piece_at(self.giving)
    }

    // "a piece with grip 0 is passed over", and "The step that gives back the last word makes the record idle"
    #[tactic(auto, unfolding(crate::specs::rules::Steps::piece_returned, base::specs::rules::Choice::choose))]
    fn piece_returned(mut self) -> Record
        requires { self.giving < length (pieces self) }
        ensures { result ≡ piece_returned self }
    {
        let next = self.giving + 1;
        if self.grip_of(next) == 0 {
            return Record::idle_with(self.outcome);
        }
        self.giving = next;
        self.place = 0;
        self
    }

    #[tactic(auto, unfolding(crate::specs::rules::Steps::word_returned, base::specs::rules::Choice::choose))]
    fn word_returned(mut self, settings: ValidSettings) -> Record
        requires { Pieced self × (self.giving < length (pieces self)) }
        ensures { result ≡ word_returned settings.values self }
    {
        if self.place < self.notices_of(settings.values, self.giving) {
            self.place = self.place + 1;
            return self;
        }
        self.piece_returned()
    }

    // "TCnt equal to the ticket makes the grip 2"
    #[tactic(auto, unfolding(crate::specs::rules::Steps::turn_returned, base::specs::rules::Choice::choose))]
    fn turn_returned(mut self, found: u64) -> Record
        ensures { result ≡ turn_returned self found }
    {
        if word::get::<Tcnt>(found) == self.ticket {
            self.grip = 2;
            return self;
        }
        self
    }

    // The wanted bits of a leaf that meets the window.
    pub fn wanted(self, settings: ValidSettings, n: u64) -> u64
        requires { Meets settings.values.levels self.left self.right n × (level n ≡ settings.values.levels) }
        ensures { result ≡ wanted settings.values self n }
    {
        word::wanted_bits(
            tree::left_edge(settings.values.levels, n),
            self.left,
            self.right,
        )
    }

    // Leaf bits, from all 1 to all 0; 9, "returning leaf finds a wanted bit clear".
    #[tactic(auto, unfolding(crate::specs::laws::Rows::return_bits, base::specs::rules::Choice::choose))]
    fn return_bits(self, settings: ValidSettings, found: u64) -> Result<Moved, Refusal>
        requires { Placed settings.values self × (self.giving < length (pieces self)) × (level (given_piece self) ≡ settings.values.levels) }
        ensures { moved_of self found result ≡ return_bits settings.values self found }
    {
        let bits = self.wanted(settings, self.given_piece());
        let left = word::give_bits(found, bits).ok_or(Refusal::ClearBit)?;
        Ok(leaves(left, self.word_returned(settings)))
    }

    // Occ and the ticket.
    #[tactic(auto, unfolding(crate::specs::laws::Rows::return_inner, base::specs::rules::Choice::choose))]
    fn return_inner(self, settings: ValidSettings, found: u64) -> Moved
        requires { Pieced self × (self.giving < length (pieces self)) }
        ensures { leaves result.word result.next ≡ return_inner settings.values self found }
    {
        let grip = self.grip_of(self.giving);
        if grip == 3 {
            return leaves(word::return_occ(found), self.word_returned(settings));
        }
        if grip == 2 {
            return leaves(word::add::<Tcnt>(found, 1), self.word_returned(settings));
        }
        leaves(found, self.turn_returned(found))
    }

    #[tactic(auto, unfolding(crate::specs::laws::Rows::give_back, base::specs::rules::Choice::choose))]
    pub fn give_back(self, settings: ValidSettings, found: u64) -> Result<Moved, Refusal>
        requires { Placed settings.values self }
        ensures { moved_of self found result ≡ give_back settings.values self found }
    {
        if self.place == 0 {
            if settings.values.is_leaf(self.given_piece()) {
                return self.return_bits(settings, found);
            }
            return Ok(self.return_inner(settings, found));
        }
        Ok(leaves(word::add::<Dcnt>(found, 1), self.word_returned(settings)))
    }
}
