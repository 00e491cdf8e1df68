// The lines of both pages.
ghost use Rattle.std.specs.Prelude.{◌≡◌, ◌+◌, ◌*◌, ◌≤◌, ◌++◌, length};
ghost use Rattle.schedule.specs.laws.Numbers.{spaced_before};
ghost use Rattle.schedule.specs.rules.Text.{text, decimal};
ghost use Rattle.rangepages.specs.rules.Printed.{row_text, record_line};

use lock::Record;
use pages::Row;
use schedule::Line;

// A client's number, and the numbers behind it. A number has at most 20 digits, and one byte stands before or behind it: eight numbers are 168 bytes, seventeen are
// 357.
fn numbered(client: u64, numbers: &[u64]) -> Line
    requires { length numbers.now ≤ 16 }
    ensures line { result ≡ decimal client ++ spaced_before numbers.now (text "\n") }
    ensures short { length result ≤ 21 + 21 * length numbers.now }
{
    let mut line = Line::new();
    line.decimal(client);
    line.numbers(numbers);
    line.text(b"\n");
    line
}

// A client's row on the planners' page.
pub fn row(client: u64, row: Row) -> Line
    ensures line { result ≡ row_text client row }
    ensures short { length result ≤ 168 }
{
    numbered(
        client,
        &[
            row.phase, row.left, row.right, row.first, row.second, row.over, row.steps,
        ],
    )
}

// A run's page: its record, and how many clients are in phase 9.
pub fn record(client: u64, own: Record, held: u64) -> Line
    ensures line { result ≡ record_line held client own }
    ensures short { length result ≤ 357 }
{
    numbered(
        client,
        &[
            own.phase,
            own.outcome,
            own.left,
            own.right,
            own.first,
            own.second,
            own.current,
            own.giving,
            own.grip,
            own.ticket,
            own.place,
            own.notices,
            own.t1,
            own.t0,
            own.taken,
            held,
        ],
    )
}
