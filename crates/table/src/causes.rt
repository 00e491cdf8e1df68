// The tests that stand before a client's own: causes 1 to 4.
ghost use Rattle.std.specs.Prelude.{◌≡◌, ◌<◌, [], ◌∷◌, OnOk};
ghost use Rattle.base.specs.rules.Refusals.{number_in};
ghost use Rattle.lock.specs.rules.Calls.{first_cause, clients_outside, client_tests};
ghost use Rattle.lock.specs.rules.Table.{opening_number};
ghost use Rattle.table.specs.laws.Causes.{table_cause};

use base::Refusal;
use lock::Settings;

// Cause 3: "no clients, or over 32,767".
pub fn clients_outside(clients: usize) -> bool
    ensures { result ≡ clients_outside clients }
{
    (clients == 0) | (32767 < clients)
}

pub fn clients_cause(clients: usize) -> Result<(), Refusal>
    ensures { number_in result ≡ first_cause ((clients_outside clients, 3) ∷ []) }
{
    if clients_outside(clients) {
        return Err(Refusal::Clients);
    }
    Ok(())
}

// Causes 3 and 4: after these "client not below the table's count".
pub fn client_cause(clients: usize, client: u64) -> Result<(), Refusal>
    ensures number { number_in result ≡ first_cause (client_tests clients client) }
    ensures below { OnOk result (client < clients) }
{
    clients_cause(clients)?;
    if clients as u64 <= client {
        return Err(Refusal::Client);
    }
    Ok(())
}

// Causes 1 to 3: settings outside their ranges, a word count that is not the tree's, and the clients.
pub fn opening_cause(settings: Settings, words: usize, clients: usize) -> Result<(), Refusal>
    ensures { number_in result ≡ opening_number settings words clients }
{
    settings.tree_tests(words as u64)?;
    clients_cause(clients)
}

// Causes 1 to 4.
pub fn table_cause(
    settings: Settings,
    words: usize,
    clients: usize,
    client: u64,
) -> Result<(), Refusal>
    ensures number { number_in result ≡ table_cause settings words clients client }
    ensures below { OnOk result (client < clients) }
{
    settings.tree_tests(words as u64)?;
    client_cause(clients, client)
}
