// The calls of a run whose words are in another machine's memory: its client goes in and comes back by value, and nothing is lent. They are of one shape, since C links each by a name of its own; and C hands client, settings and clock one by one.
ghost use Rattle.std.specs.Prelude.{◌≡◌};
ghost use Rattle.lock.specs.rules.Steps.{applied};
ghost use Rattle.lock.specs.rules.Operations.{access_of, operation_answer, completed_answer, own_request_answer, own_release_answer, own_cancel_answer};

use lock::{Client, Operation, Settings, Stepped};

// Which operation the run posts now. Tests 1, 5, 6.
pub fn nolthewyr_operation(client: Client, settings: Settings, clock: u64) -> Operation
    ensures { result ≡ operation_answer settings client clock }
{
    client.operation(settings, clock).into()
}

// The word that an operation leaves where it found one: what a loop of plain compare-and-swaps puts there in place of a masked operation.
pub fn nolthewyr_applied(operation: Operation, found: u64) -> u64
    ensures { result ≡ applied (access_of operation) found }
{
    operation.applied(found)
}

// What becomes of the client when the word found comes back. Tests 1, 5, 6, 9.
pub fn nolthewyr_completed(client: Client, settings: Settings, clock: u64, found: u64) -> Stepped
    ensures { result ≡ completed_answer settings client clock found }
{
    client.stepped(client.completed(settings, clock, found))
}

// Tests 1, 6, 7, 8.
pub fn nolthewyr_own_request(client: Client, settings: Settings, left: u64, right: u64) -> Stepped
    ensures { result ≡ own_request_answer settings client left right }
{
    client.stepped(client.own_request(settings, left, right))
}

// Tests 1, 6, 8.
pub fn nolthewyr_own_release(client: Client, settings: Settings) -> Stepped
    ensures { result ≡ own_release_answer settings client }
{
    client.stepped(client.own_release(settings))
}

// Tests 1, 6, 8.
pub fn nolthewyr_own_cancel(client: Client, settings: Settings) -> Stepped
    ensures { result ≡ own_cancel_answer settings client }
{
    client.stepped(client.own_cancel(settings))
}
