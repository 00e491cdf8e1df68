// A schedule that was examined whole, its opening too, before anything is run.
ghost use Rattle.std.specs.Prelude.{◌≡◌, ◌≤◌, length, IfOk};
ghost use Rattle.base.specs.rules.Refusals.{number_in};
ghost use Rattle.tree.specs.rules.Tree.{word_count};
ghost use Rattle.lock.specs.rules.Table.{opening, opening_number};
ghost use Rattle.schedule.specs.rules.Format.{settings_in, clients_in, lent_for, file_cause};
ghost use Rattle.schedule.specs.rules.Refusal.{refusal};
ghost use Rattle.schedule.specs.laws.FormatLaws.{header_in, chunks_in};

use crate::format::{self, Header};
use base::Refusal;
use lock::Settings;
use table::opening_cause;

// A schedule that nothing refuses: its settings, how many clients it has, and the 24 bytes of each of its calls.
#[derive(Clone, Copy)]
pub struct Schedule<'a> {
    pub settings: Settings,
    pub clients: usize,
    pub calls: &'a [[u8; 24]],
    ghost few_calls: { length calls.now ≤ 2729 },
    ghost few_levels: { settings.levels ≤ 6 },
    ghost few_clients: { clients ≤ 64 },
    ghost opened: { (opening settings (lent_for settings clients)).number ≡ 0 },
}

// As many words as the tree has; a tree of fewer than 2 levels is refused by the opening.
pub fn word_count(levels: u64) -> usize
    requires { levels ≤ 6 }
    ensures { (result ≡ word_count levels) × (result ≤ 1365) }
{
    if levels == 0 {
        return 0;
    }
    tree::last_node(levels) as usize
}

// "A file too long or short, an offset below 16, an offset plus 24 × calls over the file's length, an unknown kind or a filled zero field:
// `refused 10`. H over 6 or clients over 64: `refused 11`, tested after 10."; 2.2, "its least offset is 20".
fn parts(bytes: &[u8]) -> Result<(Header, &[[u8; 24]]), Refusal>
    ensures cause { number_in result ≡ file_cause bytes.now }
    ensures parts { IfOk result (λ parts. (parts.0 ≡ header_in bytes.now) × (parts.1.now ≡ chunks_in bytes.now)) }
{
    if 65536 < bytes.len() {
        return Err(Refusal::File);
    }
    let header = Header::read(bytes).ok_or(Refusal::File)?;
    if header.offset < 20 {
        return Err(Refusal::File);
    }
    let calls = header.calls(bytes).ok_or(Refusal::File)?;
    if format::any_wrong(calls) {
        return Err(Refusal::File);
    }
    if 6 < header.settings.levels || 64 < header.clients {
        return Err(Refusal::TooLarge);
    }
    Ok((header, calls))
}

impl<'a> Schedule<'a> {
    // The schedule that a file has, or why it is refused. The whole file is examined before its opening.
    pub fn read(bytes: &'a [u8]) -> Result<Schedule<'a>, Refusal>
        ensures number { number_in result ≡ refusal bytes.now }
        ensures schedule { IfOk result (λ schedule. (schedule.settings ≡ settings_in bytes.now) × (schedule.clients ≡ clients_in bytes.now) × (schedule.calls.now ≡ chunks_in bytes.now)) }
    {
        let (header, calls) = parts(bytes)?;
        let words = word_count(header.settings.levels);
        opening_cause(header.settings, words, header.clients)?;
        Ok(Schedule {
            settings: header.settings,
            clients: header.clients,
            calls,
        })
    }
}
