// The pages, as C links them. Each makes the call of the crate `pages` that has its name, and states the clauses of that call again, word for word.
// (All of one shape: C links each by a name of its own, and has no generic functions.)
#![tactic(auto)]

ghost use Rattle.std.specs.Prelude.{◌≡◌};
ghost use Rattle.pages.specs.rules.Pages.{page, planners_page, run_page};

use lock::{Client, Settings};
use pages::{Row, RunPage};

// A row for each client. Tests 1, 2 (other than one row a client), 3, 6 (any record); a refused page leaves every row as it was.
#[unsafe(no_mangle)]
pub extern "C" fn nolthewyr_planners_page(
    clients: &[Client],
    rows: &mut [Row],
    settings: Settings,
) -> u64
    ensures { page result rows.new ≡ planners_page settings clients.now rows.old }
{
    pages::nolthewyr_planners_page(clients, rows, settings)
}

// The run's own record and how many clients are in phase 9, and no more. Tests 1, 3, 4, 6.
#[unsafe(no_mangle)]
pub extern "C" fn nolthewyr_run_page(clients: &[Client], settings: Settings, client: u64) -> RunPage
    ensures { result ≡ run_page settings clients.now client }
{
    pages::nolthewyr_run_page(clients, settings, client)
}
