// The lock: what each call does to one client's record and to the lent tree.
#![tactic(auto)]

ghost use Rattle.std.specs.Prelude.{◌≡◌, ℕ};
ghost use Rattle.lock.specs.rules.ByValue.{call_of, call_by};
ghost use Rattle.lock.specs.laws.Active.{Settled};

// "H, m and wait T .. travel beside it", and the patience P: the settings of a tree.
#[repr(C)]
#[derive(Clone, Copy)]
pub struct Settings {
    pub levels: u64,
    pub distance: u64,
    pub wait: u64,
    pub patience: u64,
}

// Settings within their ranges: what a function behind the test of cause 1 is given where it rests on that.
#[derive(Clone, Copy)]
pub struct ValidSettings {
    pub values: Settings,
    ghost settled: { Settled values },
}

// A client record, its fields in document 01's order: phase, outcome, the window's edges, the numbers of its two pieces (0 for none), the current
// piece (0 or 1, the last begun), the piece being given back, the current piece's grip, ticket, place in the list it walks, notices that the
// current piece gave, and the noted times; the last of them is the clock at which the first piece was taken. Phase, outcome and grip are numbers: C lends the record, and may lend any numbers, and document 01 has a
// match on the phase number 0..10.
#[repr(C)]
#[derive(Clone, Copy, Default, PartialEq, Eq)]
pub struct Record {
    pub phase: u64,
    pub outcome: u64,
    pub left: u64,
    pub right: u64,
    pub first: u64,
    pub second: u64,
    pub current: u64,
    pub giving: u64,
    pub grip: u64,
    pub ticket: u64,
    pub place: u64,
    pub notices: u64,
    pub t1: u64,
    pub t0: u64,
    pub taken: u64,
}

// A client, as the client table has it: its last clock, "kept beside the record", and its record.
#[repr(C)]
#[derive(Clone, Copy, Default)]
pub struct Client {
    pub clock: u64,
    pub record: Record,
}

// A call as a schedule has it: the kind (0 request, 1 step, 2 release, 3 cancel), the client, the edges a and b of a request or the clock a of a step. The C interface has the kind as a number.
#[repr(C)]
#[derive(Clone, Copy)]
pub struct Call {
    pub kind: u64,
    pub client: u64,
    pub a: u64,
    pub b: u64,
}

// What a call asks for.
#[derive(Clone, Copy, Debug, PartialEq, Eq)]
pub enum Kind {
    Request,
    Step,
    Release,
    Cancel,
}

// "u8 kind (0 request, 1 step, 2 release, 3 cancel)"; any other number is a cancel too.
impl From<u64> for Kind {
    ghost from_gives = { λ number kind. (client a b : ℕ) → call_by kind client a b ≡ call_of number client a b };

    fn from(number: u64) -> Kind {
        match number {
            0 => Kind::Request,
            1 => Kind::Step,
            2 => Kind::Release,
            _ => Kind::Cancel,
        }
    }
}

// What a call answers to C: its number (0 accepted), and the client after it. In Rattle it is a Result.
#[repr(C)]
#[derive(Clone, Copy)]
pub struct Stepped {
    pub number: u64,
    pub next: Client,
}

// What a run posts: number 0, the kind (0 none, 1 read, 2 masked add, 3 masked compare-and-swap) and the node (0 for none); of a swap the mask and the bits that are compared, and the mask and the
// bits that are set; of an add in `value` the deltas of the six fields, each where its field is. Refused: the cause, and 0. The C interface has it so; in Rattle what is done to a word is an `Access`.
#[repr(C)]
#[derive(Clone, Copy, Default, PartialEq, Eq)]
pub struct Operation {
    pub number: u64,
    pub kind: u64,
    pub node: u64,
    pub compared: u64,
    pub expected: u64,
    pub swapped: u64,
    pub value: u64,
}

// How many steps a window needs, as C is told: number 0 and the steps; else the cause of a refusal, and 0.
#[repr(C)]
#[derive(Clone, Copy)]
pub struct StepCount {
    pub number: u64,
    pub steps: u64,
}

// What is known of a record and its settings together (`Sound`, `Placed`, `Pieced`, `Begun`, and that no noted time is past the clock) stays in the clauses of their methods, and settings, word and clock stay
// arguments. A type with these facts would be no plainer: document 01 has a record go into a step by value and the next one come back, so each method would take it apart, change some of its fifteen fields, and hand back a record of which nothing is shown yet.
mod by_phase;
mod by_value;
mod calls;
mod counting;
mod late;
mod moves;
mod operations;
mod outside;
mod patience;
mod pieces;
mod readable;
mod returning;
mod steps;

pub use counting::{pieces_steps, step_count};
pub use moves::Moved;
