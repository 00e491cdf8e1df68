// The operation of a step: the node, and what is done to the word there. A run on another machine posts it; the words are not here. Why what is known of a record stays in the clauses, lib.rt says.
ghost use Rattle.std.specs.Prelude.{◌≡◌, ◌≤◌};
ghost use Rattle.lock.specs.rules.Records.{phase_of};
ghost use Rattle.lock.specs.rules.Steps.{swap, applied, claim_access, own_word_access, return_access, access_in, own_touched, touched, access};
ghost use Rattle.lock.specs.rules.Operations.{operation_at, refused_operation, access_of};
ghost use Rattle.lock.specs.laws.Rows.{access_made};
ghost use Rattle.lock.specs.laws.Placed.{Placed, Sound};

use crate::{Operation, Record, ValidSettings};
use word::{Dcnt, Dmax, InnerField, OCC_RETURNED, Occ, Tcnt, Tmax};

// A 1 in each field that a row adds to. Tried: one constant that the trait provides; the check does not support it in a constant's value yet.
const DMAX_ONE: u64 = 1 << Dmax::SHIFT;

const DCNT_ONE: u64 = 1 << Dcnt::SHIFT;

const TMAX_ONE: u64 = 1 << Tmax::SHIFT;

const TCNT_ONE: u64 = 1 << Tcnt::SHIFT;

const OCC_ONE: u64 = 1 << Occ::SHIFT;

// What is done to one word: none, where no word is touched; a read; a masked add of the deltas of the six fields; a masked compare-and-swap.
#[derive(Clone, Copy)]
pub enum Access {
    None,
    Read,
    Add(u64),
    Swap {
        compared: u64,
        expected: u64,
        swapped: u64,
        value: u64,
    },
}

impl Access {
    // Swaps the bits from one state to the other.
    fn of_bits(bits: u64, from: u64, to: u64) -> Access
        ensures { access_made result ≡ swap bits from bits to }
    {
        Access::Swap {
            compared: bits,
            expected: from,
            swapped: bits,
            value: to,
        }
    }

    // What it leaves of the word found.
    #[tactic(auto, unfolding(crate::specs::rules::Steps::applied))]
    fn applied(self, found: u64) -> u64
        ensures { result ≡ applied (access_made self) found }
    {
        match self {
            Access::None => found,
            Access::Read => found,
            Access::Add(deltas) => word::add_fields(found, deltas),
            Access::Swap {
                compared,
                expected,
                swapped,
                value,
            } => word::masked_swap(found, compared, expected, swapped, value).unwrap_or(found),
        }
    }
}

impl Operation {
    // The access at a node, as C is handed it: its kind by a number, and 0 for what a kind does not have.
    #[tactic(auto, unfolding(crate::specs::rules::Operations::operation_at))]
    fn at(node: u64, access: Access) -> Operation
        ensures { result ≡ operation_at node (access_made access) }
    {
        let none = Operation {
            node,
            ..Operation::default()
        };
        match access {
            Access::None => none,
            Access::Read => Operation { kind: 1, ..none },
            Access::Add(deltas) => Operation {
                kind: 2,
                value: deltas,
                ..none
            },
            Access::Swap {
                compared,
                expected,
                swapped,
                value,
            } => Operation {
                kind: 3,
                compared,
                expected,
                swapped,
                value,
                ..none
            },
        }
    }

    // The access that C hands back, by its kind; another number than 1, 2 and 3 is none.
    #[tactic(auto, unfolding(crate::specs::rules::Operations::access_of, base::specs::rules::Choice::choose))]
    fn access(self) -> Access
        ensures { access_made result ≡ access_of self }
    {
        let kind = self.kind;
        match kind {
            1 => Access::Read,
            2 => Access::Add(self.value),
            3 => Access::Swap {
                compared: self.compared,
                expected: self.expected,
                swapped: self.swapped,
                value: self.value,
            },
            _ => Access::None,
        }
    }

    // As C is told of a refusal, whose number may be any.
    pub fn refused(number: u64) -> Operation
        ensures { result ≡ refused_operation number }
    {
        Operation {
            number,
            ..Operation::default()
        }
    }

    // The word that the operation leaves.
    pub fn applied(self, found: u64) -> u64
        ensures { result ≡ applied (access_of self) found }
    {
        self.access().applied(found)
    }
}

impl Record {
    // 5 claim
    #[tactic(auto, unfolding(crate::specs::rules::Steps::claim_access, base::specs::rules::Choice::choose))]
    fn claim_access(self, settings: ValidSettings) -> Access
        requires { Placed settings.values self }
        ensures { access_made result ≡ claim_access settings.values self }
    {
        let n = self.current_piece();
        if settings.values.is_leaf(n) {
            let bits = self.wanted(settings, n);
            return Access::of_bits(bits, 0, bits);
        }
        Access::Add(OCC_ONE)
    }

    // 10 returning, at the own word of the piece that is given back
    #[tactic(auto, unfolding(crate::specs::rules::Steps::own_word_access, base::specs::rules::Choice::choose))]
    fn own_word_access(self, settings: ValidSettings) -> Access
        requires { Placed settings.values self }
        ensures { access_made result ≡ own_word_access settings.values self }
    {
        let n = self.given_piece();
        if settings.values.is_leaf(n) {
            let bits = self.wanted(settings, n);
            return Access::of_bits(bits, bits, 0);
        }
        let grip = self.grip_of(self.giving);
        if grip == 3 {
            return Access::Add(OCC_RETURNED);
        }
        if grip == 2 {
            return Access::Add(TCNT_ONE);
        }
        Access::Read
    }

    // 10 returning: the own word, or a notice
    #[tactic(auto, unfolding(crate::specs::rules::Steps::return_access, base::specs::rules::Choice::choose))]
    fn return_access(self, settings: ValidSettings) -> Access
        requires { Placed settings.values self }
        ensures { access_made result ≡ return_access settings.values self }
    {
        if self.place == 0 {
            return self.own_word_access(settings);
        }
        Access::Add(DCNT_ONE)
    }

    // The access of the record's phase. Document 01 names this form, a match on the phase number 0..10 that picks the one operation.
    #[tactic(auto, unfolding(crate::specs::rules::Steps::access_in, crate::specs::rules::Records::phase_of, base::specs::rules::Choice::choose), using(crate::proofs::laws::OperationLaws::access_none))]
    fn own_access(self, settings: ValidSettings) -> Access
        requires { Sound settings.values self }
        ensures { access_made result ≡ access_in settings.values self (phase_of self.phase) }
    {
        let phase = self.phase;
        match phase {
            1 => Access::Add(TMAX_ONE),
            2 => Access::Read,
            3 => Access::Read,
            4 => Access::Read,
            5 => self.claim_access(settings),
            6 => Access::Add(DMAX_ONE),
            8 => Access::Read,
            10 => self.return_access(settings),
            _ => Access::None,
        }
    }

    // The operation of the record's phase.
    pub fn own_operation(self, settings: ValidSettings) -> Operation
        requires { Sound settings.values self }
        ensures { result ≡ operation_at (own_touched settings.values self) (access_in settings.values self (phase_of self.phase)) }
    {
        Operation::at(self.own_touched(settings), self.own_access(settings))
    }

    // None where patience has run out.
    pub fn operation(self, settings: ValidSettings, clock: u64) -> Operation
        requires { Sound settings.values self × (self.taken ≤ clock) }
        ensures { result ≡ operation_at (touched settings.values self clock) (access settings.values self clock) }
    {
        if self.out_of_patience(settings.values, clock) {
            return Operation::at(0, Access::None);
        }
        self.own_operation(settings)
    }
}
