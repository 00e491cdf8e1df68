// How many of the operations that were posted together count, when the words found have come back.
ghost use Rattle.std.specs.Prelude.{◌≡◌, ◌<◌, min, length};
ghost use Rattle.runs.specs.rules.Ahead.{ahead_of, completed_all_answer};
ghost use Rattle.runs.specs.laws.AlongLaws.{one_counted, counted_by, completed_by};

use crate::posted::operation_ahead;
use base::Refusal;
use lock::{Client, Operation, Settings, ValidSettings};

// The client after an operation that was posted and counts: it is the client's next step and is accepted. The completion tests the client, so that its operation needs no test of its own.
fn one_counted(
    client: Client,
    settings: Settings,
    clock: u64,
    posted: Operation,
    found: u64,
) -> Option<Client>
    ensures { counted_by client result ≡ one_counted settings clock client posted found }
{
    let next = client.completed(settings, clock, found).ok()?;
    let own = client.record;
    let valid = ValidSettings { values: settings };
    if own.operation(valid, clock) == posted {
        return Some(next);
    }
    None
}

// One operation after another, up to the first that does not count. There is one at least, and `count` stands beside `found` because it says how many of the words found are those of posted operations: they may be fewer than the words lent, and the rule speaks of all of these. `i` is the place of an operation and of its word. The first is the client's next step in any case, and may be refused by 9.
pub fn counted_along(
    client: Client,
    settings: Settings,
    clock: u64,
    count: usize,
    found: &[u64],
) -> Result<(u64, Client), Refusal>
    requires { (0 < count) × (count ≡ min (length found.now) (length (ahead_of settings client clock))) }
    ensures { completed_by client result ≡ completed_all_answer settings client clock found.now }
{
    let own = client.record;
    let valid = ValidSettings { values: settings };
    let mut after = client.completed(settings, clock, found[0])?;
    for i in 1..count {
        let posted = operation_ahead(own, valid, i as u64);
        match one_counted(after, settings, clock, posted, found[i]) {
            Some(next) => after = next,
            None => return Ok((i as u64, after)),
        }
    }
    Ok((count as u64, after))
}
