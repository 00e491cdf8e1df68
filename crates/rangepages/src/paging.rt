// Both pages of a schedule: its calls are made, then a line is written for each client's row, and one for each client's record.
ghost use Rattle.std.specs.Prelude.{◌≡◌, ◌+◌, ◌*◌, ◌≤◌, length, map, take};
ghost use Rattle.io.specs.Counts.{IsPrefixLen};
ghost use Rattle.lock.specs.rules.History.{AllReadable, run};
ghost use Rattle.schedule.specs.laws.Appended.{Appended};
ghost use Rattle.schedule.specs.laws.FormatLaws.{call_of_bytes};
ghost use Rattle.schedule.specs.laws.RunLaws.{fresh};
ghost use Rattle.rangepages.specs.rules.Printed.{row_line, record_line, line_each, room, pages_text, Paged};

use crate::lines;
use schedule::{Schedule, Table};

// Room for both pages: a row of at most 168 bytes and a record of at most 357 for each of 64 clients.
pub const ROOM: usize = 34_000;

// "a line for each client, number and row"
fn put_rows(out: &mut [u8], schedule: &Schedule, table: &Table) -> usize
    requires readable { AllReadable schedule.now.settings table.now }
    requires room { room ≤ length out.old }
    ensures piece { Appended out.old 0 out.new result (line_each (row_line schedule.now.settings) 0 table.now.clients) }
    ensures short { result ≤ 168 * 64 }
{
    let clients = table.clients();
    let mut end = 0;
    for (client, own) in clients.iter().enumerate() {
        let row = pages::row_of(own.record, schedule.settings, own.clock);
        end = lines::row(client as u64, row).put(out, end);
    }
    end
}

// "then one for each, number, record and count"
fn put_records(out: &mut [u8], at: usize, table: &Table, held: u64) -> usize
    requires { at + 357 * 64 ≤ length out.old }
    ensures { Appended out.old at out.new result (line_each (record_line held) 0 table.now.clients) }
{
    let clients = table.clients();
    let mut end = at;
    for (client, own) in clients.iter().enumerate() {
        end = lines::record(client as u64, own.record, held).put(out, end);
    }
    end
}

// Makes the calls and writes both pages, where the lent bytes have been seen to have room.
fn put_both(schedule: &Schedule, out: &mut [u8]) -> usize
    requires { room ≤ length out.old }
    ensures pages { take result out.new ≡ pages_text schedule.now.settings (run schedule.now.settings (fresh schedule.now.settings schedule.now.clients) (map call_of_bytes schedule.now.calls.now)).clients }
    ensures inside { result ≤ length out.new }
{
    let table = schedule.run();
    let held = pages::held_count(table.clients());
    let end = put_rows(out, schedule, &table);
    put_records(out, end, &table, held)
}

// The whole file is examined first, as for the log: one function for both would say in its own contract what the writer that it takes promises, which is no
// shorter. The pages are in the first bytes of `out`; the answer is how many they are.
pub fn put_pages(bytes: &[u8], out: &mut [u8]) -> usize
    ensures pages { Paged bytes.now out.old out.new result }
    ensures inside { IsPrefixLen result out.new }
{
    if out.len() < ROOM {
        return 0;
    }
    match Schedule::read(bytes) {
        Ok(schedule) => put_both(&schedule, out),
        Err(refusal) => schedule::refused(refusal.number()).put(out, 0),
    }
}
