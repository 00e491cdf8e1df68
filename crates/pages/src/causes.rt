// The tests of a page that ask for counts alone.
ghost use Rattle.std.specs.Prelude.{◌≡◌, ◌<◌, IfOk, OnOk};
ghost use Rattle.base.specs.rules.Refusals.{number_in};
ghost use Rattle.pages.specs.laws.Causes.{planners_cause, run_cause};

use base::Refusal;
use lock::{Settings, ValidSettings};
use table::{client_cause, clients_cause};

// Causes 1, 2, "other than one row a client", and 3.
pub fn planners_cause(
    settings: Settings,
    rows: usize,
    clients: usize,
) -> Result<ValidSettings, Refusal>
    ensures number { number_in result ≡ planners_cause settings rows clients }
    ensures same { IfOk result (λ valid. valid.values ≡ settings) }
{
    let valid = settings.valid()?;
    if rows != clients {
        return Err(Refusal::WordCount);
    }
    clients_cause(clients)?;
    Ok(valid)
}

// Causes 1, 3 and 4.
pub fn run_cause(settings: Settings, clients: usize, client: u64) -> Result<ValidSettings, Refusal>
    ensures number { number_in result ≡ run_cause settings clients client }
    ensures same { IfOk result (λ valid. valid.values ≡ settings) }
    ensures below { OnOk result (client < clients) }
{
    let valid = settings.valid()?;
    client_cause(clients, client)?;
    Ok(valid)
}
