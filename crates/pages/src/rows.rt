// The rows of the planners' page.
ghost use Rattle.std.specs.Prelude.{◌≡◌, false, length};
ghost use Rattle.lock.specs.rules.Unreadable.{unreadable};
ghost use Rattle.lock.specs.laws.Active.{Settled};
ghost use Rattle.pages.specs.rules.Pages.{row_of, rows_of, any_unreadable};

use crate::Row;
use lock::{Client, Record, Settings, ValidSettings};

// The row of a readable record. The documents name it with these conditions, so its settings are not asked for as a type. Its pieces are its window's cover, so their over-cover is the cover's. (Only the contract speaks of the client's clock.)
pub fn row_of(one: Record, settings: Settings, last: u64) -> Row
    requires { Settled settings × (unreadable settings one last ≡ false) }
    ensures { result ≡ row_of settings one }
{
    if one.phase == 0 {
        return Row::default();
    }
    let pieces = cover::window_pieces(settings.levels, one.left, one.right);
    Row {
        phase: one.phase,
        left: one.left,
        right: one.right,
        first: one.first,
        second: one.second,
        over: pieces.over,
        steps: lock::pieces_steps(
            settings.levels,
            settings.distance,
            pieces.first,
            pieces.second,
        ),
    }
}

// A row for each client, in their order. The rows are written by their place: a `zip` of the clients with the rows' `iter_mut` says nothing of what was written, and `iter_mut` alone would look the clients up by their place.
pub fn fill_rows(clients: &[Client], rows: &mut [Row], settings: ValidSettings)
    requires { (length rows.old ≡ length clients.now) × (any_unreadable settings.values clients.now ≡ false) }
    ensures { rows.new ≡ rows_of settings.values clients.now }
{
    for (at, client) in clients.iter().enumerate() {
        rows[at] = row_of(client.record, settings.values, client.clock);
    }
}
