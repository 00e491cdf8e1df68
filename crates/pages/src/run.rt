// A forecast run's page.
ghost use Rattle.std.specs.Prelude.{◌≡◌};
ghost use Rattle.pages.specs.rules.Pages.{run_page};
ghost use Rattle.pages.specs.laws.RunLaws.{page_by};

use crate::RunPage;
use crate::causes::run_cause;
use crate::counts::held_count;
use base::Refusal;
use lock::{Client, Record, Settings};

// The C interface has a refused page: the number, and zeros.
impl From<Result<(Record, u64), Refusal>> for RunPage {
    ghost from_gives = { λ seen page. page ≡ page_by seen };

    fn from(seen: Result<(Record, u64), Refusal>) -> RunPage {
        match seen {
            Ok((own, held)) => RunPage {
                number: 0,
                own,
                held,
            },
            Err(refusal) => RunPage {
                number: refusal.number(),
                own: Record::idle_with(0),
                held: 0,
            },
        }
    }
}

// What the run sees. 6 is for its own record alone.
fn run_page(clients: &[Client], settings: Settings, client: u64) -> Result<(Record, u64), Refusal>
    ensures { page_by result ≡ run_page settings clients.now client }
{
    let valid = run_cause(settings, clients.len(), client)?;
    let held = held_count(clients);
    let own = clients[client as usize];
    let one = own.record;
    if one.unreadable(valid, own.clock) {
        return Err(Refusal::Unreadable);
    }
    Ok((one, held))
}

// The run's own record and how many clients are in phase 9, and no more. Tests 1, 3, 4, 6.
pub fn nolthewyr_run_page(clients: &[Client], settings: Settings, client: u64) -> RunPage
    ensures { result ≡ run_page settings clients.now client }
{
    run_page(clients, settings, client).into()
}
