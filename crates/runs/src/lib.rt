// Runs on other machines, whose words are on a memory server: the calls that such a run makes, by value, one operation at a time or several together. C links them
// from the crate `runs_c`: they are compiled apart from the calls over the table, which are fast because the call by value has one caller there.
#![tactic(auto)]

ghost use Rattle.std.specs.Prelude.{◌≡◌};
ghost use Rattle.runs.specs.laws.AnswerLaws.{ahead_by};
ghost use Rattle.runs.specs.laws.AlongLaws.{completed_by};

use base::Refusal;
use lock::Client;

mod by_value;
mod counted;
mod counts;
mod posted;
mod together;

pub use by_value::{
    nolthewyr_applied, nolthewyr_completed, nolthewyr_operation, nolthewyr_own_cancel,
    nolthewyr_own_release, nolthewyr_own_request,
};
pub use together::{nolthewyr_completed_all, nolthewyr_operations_ahead};

// The C interface has the number of a refusal beside the answer; in the crate it is a Result.

// How many operations a run posts together: number 0 and the count of those that were put into the lent list; else the cause of a refusal, and 0.
#[repr(C)]
#[derive(Clone, Copy)]
pub struct Ahead {
    pub number: u64,
    pub count: u64,
}

impl From<Result<u64, Refusal>> for Ahead {
    ghost from_gives = { λ answer ahead. ahead ≡ ahead_by answer };

    fn from(answer: Result<u64, Refusal>) -> Ahead {
        match answer {
            Ok(count) => Ahead { number: 0, count },
            Err(refusal) => Ahead {
                number: refusal.number(),
                count: 0,
            },
        }
    }
}

// What becomes of a client whose operations were posted together: its number (0 accepted), how many of them counted, and the client after those.
#[repr(C)]
#[derive(Clone, Copy)]
pub struct CompletedAll {
    pub number: u64,
    pub counted: u64,
    pub next: Client,
}

impl CompletedAll {
    // How many counted and the client after those; a refused call leaves the client as it was.
    fn of(client: Client, answer: Result<(u64, Client), Refusal>) -> CompletedAll
        ensures { result ≡ completed_by client answer }
    {
        match answer {
            Ok((counted, next)) => CompletedAll {
                number: 0,
                counted,
                next,
            },
            Err(refusal) => CompletedAll {
                number: refusal.number(),
                counted: 0,
                next: client,
            },
        }
    }
}
