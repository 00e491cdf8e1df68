// The calls of a run that posts operations together: which they are, and what becomes of its client when the words found have come back.
// Client, settings and clock travel as in the calls of C, which hands them one by one; so do they in counted.rt.
ghost use Rattle.std.specs.Prelude.{◌≡◌, length};
ghost use Rattle.runs.specs.rules.Ahead.{laid, ahead_of, ahead_answer, completed_all_answer};
ghost use Rattle.runs.specs.laws.AlongLaws.{completed_by};

use crate::counted::counted_along;
use crate::counts::answer_ahead;
use crate::posted::operation_ahead;
use crate::{Ahead, CompletedAll};
use base::Refusal;
use lock::{Client, Operation, Settings, ValidSettings};

fn completed_all(
    client: Client,
    settings: Settings,
    clock: u64,
    found: &[u64],
) -> Result<(u64, Client), Refusal>
    ensures { completed_by client result ≡ completed_all_answer settings client clock found.now }
{
    let count = answer_ahead(client, settings, clock, found.len() as u64)?;
    if count == 0 {
        return Ok((0, client));
    }
    counted_along(client, settings, clock, count as usize, found)
}

// What becomes of the client, and how many of its operations counted. Tests 1, 5, 6, and 9 where the first of them is refused by it.
pub fn nolthewyr_completed_all(
    client: Client,
    settings: Settings,
    clock: u64,
    found: &[u64],
) -> CompletedAll
    ensures { result ≡ completed_all_answer settings client clock found.now }
{
    CompletedAll::of(client, completed_all(client, settings, clock, found))
}

// Which operations the run posts together: they are put into the lent list, as many as it has room for. Tests 1, 5, 6.
pub fn nolthewyr_operations_ahead(
    client: Client,
    settings: Settings,
    clock: u64,
    operations: &mut [Operation],
) -> Ahead
    ensures { (result ≡ ahead_answer settings client clock (length operations.old)) × (operations.new ≡ laid (ahead_of settings client clock) operations.old) }
{
    let answer = answer_ahead(client, settings, clock, operations.len() as u64);
    let own = client.record;
    for i in 0..answer.unwrap_or(0) {
        let valid = ValidSettings { values: settings };
        operations[i as usize] = operation_ahead(own, valid, i);
    }
    answer.into()
}
