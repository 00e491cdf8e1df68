// The work of a step's phase: the node that it touches, and a match on the phase number that picks what it does there, as document 01 has it. Why what is known of a record stays in the clauses, lib.rt says.
ghost use Rattle.std.specs.Prelude.{◌≡◌, ◌≤◌, ◌<◌};
ghost use Rattle.lock.specs.rules.Steps.{touched_in, own_touched};
ghost use Rattle.lock.specs.laws.Rows.{leaves, moved_of, own_moved, claim_piece};
ghost use Rattle.lock.specs.rules.Records.{returning};
ghost use Rattle.lock.specs.laws.Placed.{Placed, Sound};

use crate::returning::leaves;
use crate::{Record, ValidSettings};
use base::Refusal;
use word::{Dmax, Occ, Tmax};

// What a phase's own work makes of the word found at the touched node: the word that it leaves there, and the next record.
#[derive(Clone, Copy)]
pub struct Moved {
    pub word: u64,
    pub next: Record,
}

impl Record {
    // 5 claim
    #[tactic(auto, unfolding(crate::specs::laws::Rows::claim_piece, base::specs::rules::Choice::choose))]
    fn claim_piece(self, settings: ValidSettings, found: u64, clock: u64) -> Moved
        requires { Placed settings.values self }
        ensures { leaves result.word result.next ≡ claim_piece settings.values self found clock }
    {
        let n = self.current_piece();
        if settings.values.is_leaf(n) {
            return match word::take_bits(found, self.wanted(settings, n)) {
                Some(left) => leaves(left, self.bits_claimed(true)),
                None => leaves(found, self.bits_claimed(false)),
            };
        }
        leaves(word::add::<Occ>(found, 1), self.occ_claimed(clock))
    }

    // 10 returning: the own word, or the next notice.
    fn touched_returning(self, settings: ValidSettings) -> u64
        requires { Placed settings.values self × (self.phase ≡ 10) }
        ensures { result ≡ touched_in settings.values self returning }
    {
        let n = self.given_piece();
        if self.place == 0 {
            return n;
        }
        tree::notify_node(settings.values.distance, n, self.place - 1)
    }

    // The node that the phase touches, 0 for none as in the rules and in the operations that C has. Document 01 names this form, a match on the phase number 0..10, so the phase is a number here and no enum.
    #[tactic(auto, unfolding(crate::specs::rules::Steps::touched_in, crate::specs::rules::Records::phase_of, base::specs::rules::Choice::choose), using(crate::proofs::laws::MoveLaws::touched_none))]
    pub fn own_touched(self, settings: ValidSettings) -> u64
        requires { Sound settings.values self }
        ensures { result ≡ own_touched settings.values self }
    {
        let phase = self.phase;
        let place = self.place;
        match phase {
            1 => self.current_piece(),
            2 => self.current_piece(),
            3 => tree::ancestor_at(self.current_piece(), place),
            4 => tree::ancestor_at(self.current_piece(), place),
            5 => self.current_piece(),
            6 => tree::notify_node(settings.values.distance, self.current_piece(), place),
            8 => tree::check_node(
                settings.values.levels,
                settings.values.distance,
                self.current_piece(),
                place,
            ),
            10 => self.touched_returning(settings),
            _ => 0,
        }
    }

    // What the phase leaves at that node n, where it found a word, and the next record.
    #[tactic(auto, unfolding(crate::specs::laws::Rows::moved_in, crate::specs::rules::Records::phase_of, base::specs::rules::Choice::choose), using(crate::proofs::laws::MoveLaws::moved_none))]
    pub fn own_moved(
        self,
        settings: ValidSettings,
        n: u64,
        found: u64,
        clock: u64,
    ) -> Result<Moved, Refusal>
        requires { Sound settings.values self × (self.t1 ≤ clock) × (self.t0 ≤ clock) × (n ≡ own_touched settings.values self) }
        ensures { moved_of self found result ≡ own_moved settings.values self found clock }
    {
        let phase = self.phase;
        Ok(match phase {
            1 => leaves(word::add::<Tmax>(found, 1), self.ticket_taken(found)),
            2 => leaves(found, self.turn_awaited(found)),
            3 => leaves(found, self.climbed(n, found, clock)),
            4 => leaves(found, self.unblocked(found)),
            5 => self.claim_piece(settings, found, clock),
            6 => leaves(
                word::add::<Dmax>(found, 1),
                self.notice_given(settings, clock),
            ),
            7 => leaves(found, self.waited(settings.values, clock)),
            8 => leaves(found, self.check_passed(settings, found, clock)),
            10 => self.give_back(settings, found)?,
            _ => leaves(found, self),
        })
    }
}
