// What is asked of all clients of the table: whether a record is unreadable, and how many are in phase 9.
ghost use Rattle.std.specs.Prelude.{◌≡◌};
ghost use Rattle.pages.specs.rules.Pages.{any_unreadable, in_phase9, held_count};

use lock::{Client, Record, ValidSettings};

// 1 for a client in phase 9, by its phase number alone. It is public and named, so that its result may not change; and the counts of the pages sum what it answers.
pub fn in_phase_9(one: Record) -> u64
    ensures { result ≡ in_phase9 one.phase }
{
    if one.phase == 9 {
        return 1;
    }
    0
}

pub fn any_unreadable(clients: &[Client], settings: ValidSettings) -> bool
    ensures { result ≡ any_unreadable settings.values clients.now }
{
    clients
        .iter()
        .any(|client| client.record.unreadable(settings, client.clock))
}

pub fn held_count(clients: &[Client]) -> u64
    ensures { result ≡ held_count clients.now }
{
    clients.iter().map(|client| in_phase_9(client.record)).sum()
}
