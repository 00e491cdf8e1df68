// The log of a schedule: the file is examined, its opening too, and each call is made and its line written.
ghost use Rattle.std.specs.Prelude.{◌≡◌, ℕ, ◌++◌, ◌≤◌, length, map, take};
ghost use Rattle.io.specs.Counts.{IsPrefixLen};
ghost use Rattle.lock.specs.rules.ByValue.{call_of, call_by};
ghost use Rattle.schedule.specs.rules.Log.{room, kind_text, header_line, line, lines, Logged};
ghost use Rattle.schedule.specs.rules.Refusal.{refused_line};
ghost use Rattle.schedule.specs.laws.FormatLaws.{call_of_bytes};
ghost use Rattle.schedule.specs.laws.RunLaws.{fresh};

use crate::{Line, Schedule, format};
use lock::{Call, Kind, Record, Settings};

// Room for every log: a line of at most 112 bytes, and one of at most 144 for each of 2729 calls.
pub const ROOM: usize = 400_000;

// The name of a kind.
#[tactic(auto, unfolding(crate::specs::rules::Log::kind_text))]
fn kind_name(kind: Kind) -> &'static [u8]
    ensures name { (client a b : ℕ) → result.now ≡ kind_text (call_by kind client a b) }
    ensures short { length result.now ≤ 7 }
{
    match kind {
        Kind::Request => b"request",
        Kind::Step => b"step",
        Kind::Release => b"release",
        Kind::Cancel => b"cancel",
    }
}

// The line that names the settings and how many clients there are.
fn header(settings: Settings, clients: u64) -> Line
    ensures line { result ≡ header_line settings clients }
    ensures short { length result ≤ 112 }
{
    let mut line = Line::new();
    line.named(b"tree", settings.levels);
    line.named(b" m", settings.distance);
    line.named(b" wait", settings.wait);
    line.named(b" clients", clients);
    line.text(b"\n");
    line
}

// The line of call number `k`: the call, its number, and its client's phase and edges after it.
fn made(k: u64, call: Call, number: u64, after: Record) -> Line
    ensures line { result ≡ line k (call_of call.kind call.client call.a call.b) number after }
    ensures short { length result ≤ 144 }
{
    let mut line = Line::new();
    line.decimal(k);
    line.text(b" ");
    line.text(kind_name(Kind::from(call.kind)));
    line.numbers(&[call.client, number, after.phase, after.left, after.right]);
    line.text(b"\n");
    line
}

// The line of a refused file or opening: the number of what refuses it.
pub fn refused(number: u64) -> Line
    ensures line { result ≡ refused_line number }
    ensures short { length result ≤ 29 }
{
    let mut line = Line::new();
    line.named(b"refused", number);
    line.text(b"\n");
    line
}

// Makes the calls and writes their lines, where the lent bytes have been seen to have room (`Schedule::run` has the same loop without lines; here one comes between two calls): the header line, and "After it each call has a line".
fn put_log(schedule: &Schedule, out: &mut [u8]) -> usize
    requires { room ≤ length out.old }
    ensures log { take result out.new ≡ header_line schedule.now.settings schedule.now.clients ++ lines schedule.now.settings (fresh schedule.now.settings schedule.now.clients) 0 (map call_of_bytes schedule.now.calls.now) }
    ensures inside { result ≤ length out.new }
{
    let mut table = schedule.table();
    let mut end = header(schedule.settings, schedule.clients as u64).put(out, 0);
    for (k, bytes) in schedule.calls.iter().enumerate() {
        let call = format::call_in(bytes);
        let number = table.make(schedule.settings, call);
        let after = table.client(call.client);
        end = made(k as u64, call, number, after.record).put(out, end);
    }
    end
}

// The whole file is examined first. The log is in the first bytes of `out`; the answer is how many they are.
pub fn log(bytes: &[u8], out: &mut [u8]) -> usize
    ensures log { Logged bytes.now out.old out.new result }
    ensures inside { IsPrefixLen result out.new }
{
    if out.len() < ROOM {
        return 0;
    }
    match Schedule::read(bytes) {
        Ok(schedule) => put_log(&schedule, out),
        Err(refusal) => refused(refusal.number()).put(out, 0),
    }
}
