// The planners' page.
ghost use Rattle.std.specs.Prelude.{◌≡◌};
ghost use Rattle.base.specs.rules.Refusals.{number_in};
ghost use Rattle.pages.specs.rules.Pages.{page, planners_page};

use crate::Row;
use crate::causes::planners_cause;
use crate::counts::any_unreadable;
use crate::rows::fill_rows;
use base::Refusal;
use lock::{Client, Settings};

fn planners_page(clients: &[Client], rows: &mut [Row], settings: Settings) -> Result<(), Refusal>
    ensures { page (number_in result) rows.new ≡ planners_page settings clients.now rows.old }
{
    let valid = planners_cause(settings, rows.len(), clients.len())?;
    if any_unreadable(clients, valid) {
        return Err(Refusal::Unreadable);
    }
    fill_rows(clients, rows, valid);
    Ok(())
}

// A row for each client. Tests 1, 2 (other than one row a client), 3, 6 (any record); a refused page leaves every row as it was. It answers a number, which may not change: docs/LINKING.md names it, and `pages_c` exports it with its clause word for word.
pub fn nolthewyr_planners_page(clients: &[Client], rows: &mut [Row], settings: Settings) -> u64
    ensures { page result rows.new ≡ planners_page settings clients.now rows.old }
{
    base::number_in(planners_page(clients, rows, settings))
}
