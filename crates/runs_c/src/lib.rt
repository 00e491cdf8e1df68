// The calls of a run whose words are in another machine's memory, as C links them: an archive of their own, apart from the calls over the table. Each makes the call of the crate `runs` that has its name, and states the
// clauses of that call again, word for word.
// (All of one shape: C links each by a name of its own, and has no generic functions.)
#![tactic(auto)]

ghost use Rattle.std.specs.Prelude.{◌≡◌, length};
ghost use Rattle.lock.specs.rules.Steps.{applied};
ghost use Rattle.lock.specs.rules.Operations.{access_of, operation_answer, completed_answer, own_request_answer, own_release_answer, own_cancel_answer};
ghost use Rattle.runs.specs.rules.Ahead.{laid, ahead_of, ahead_answer, completed_all_answer};

use lock::{Client, Operation, Settings, Stepped};
use runs::{Ahead, CompletedAll};

// Which operation the run posts now. Tests 1, 5, 6.
#[unsafe(no_mangle)]
pub extern "C" fn nolthewyr_operation(client: Client, settings: Settings, clock: u64) -> Operation
    ensures { result ≡ operation_answer settings client clock }
{
    runs::nolthewyr_operation(client, settings, clock)
}

// The word that an operation leaves where it found one: what a loop of plain compare-and-swaps puts there in place of a masked operation.
#[unsafe(no_mangle)]
pub extern "C" fn nolthewyr_applied(operation: Operation, found: u64) -> u64
    ensures { result ≡ applied (access_of operation) found }
{
    runs::nolthewyr_applied(operation, found)
}

// What becomes of the client when the word found comes back. Tests 1, 5, 6, 9.
#[unsafe(no_mangle)]
pub extern "C" fn nolthewyr_completed(
    client: Client,
    settings: Settings,
    clock: u64,
    found: u64,
) -> Stepped
    ensures { result ≡ completed_answer settings client clock found }
{
    runs::nolthewyr_completed(client, settings, clock, found)
}

// Tests 1, 6, 7, 8.
#[unsafe(no_mangle)]
pub extern "C" fn nolthewyr_own_request(
    client: Client,
    settings: Settings,
    left: u64,
    right: u64,
) -> Stepped
    ensures { result ≡ own_request_answer settings client left right }
{
    runs::nolthewyr_own_request(client, settings, left, right)
}

// Tests 1, 6, 8.
#[unsafe(no_mangle)]
pub extern "C" fn nolthewyr_own_release(client: Client, settings: Settings) -> Stepped
    ensures { result ≡ own_release_answer settings client }
{
    runs::nolthewyr_own_release(client, settings)
}

// Tests 1, 6, 8.
#[unsafe(no_mangle)]
pub extern "C" fn nolthewyr_own_cancel(client: Client, settings: Settings) -> Stepped
    ensures { result ≡ own_cancel_answer settings client }
{
    runs::nolthewyr_own_cancel(client, settings)
}

// What becomes of the client, and how many of its operations counted. Tests 1, 5, 6, and 9 where the first of them is refused by it.
#[unsafe(no_mangle)]
pub extern "C" fn nolthewyr_completed_all(
    client: Client,
    settings: Settings,
    clock: u64,
    found: &[u64],
) -> CompletedAll
    ensures { result ≡ completed_all_answer settings client clock found.now }
{
    runs::nolthewyr_completed_all(client, settings, clock, found)
}

// Which operations the run posts together: they are put into the lent list, as many as it has room for. Tests 1, 5, 6.
#[unsafe(no_mangle)]
pub extern "C" fn nolthewyr_operations_ahead(
    client: Client,
    settings: Settings,
    clock: u64,
    operations: &mut [Operation],
) -> Ahead
    ensures { (result ≡ ahead_answer settings client clock (length operations.old)) × (operations.new ≡ laid (ahead_of settings client clock) operations.old) }
{
    runs::nolthewyr_operations_ahead(client, settings, clock, operations)
}
