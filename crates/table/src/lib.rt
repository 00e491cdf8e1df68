// The calls over a lent client table. Each tests the settings, the word count, the table's count and the client, and makes the call by value on that
// client. Its promise is one equation, of one definition, the crate lock's `Table.call`, for every table, word list, client and number. C links the calls from the crate
// `table_c`.
#![tactic(auto)]

ghost use Rattle.std.specs.Prelude.{◌≡◌};
ghost use Rattle.base.specs.rules.Refusals.{number_in};
ghost use Rattle.lock.specs.rules.Table as Table;
ghost use Rattle.lock.specs.rules.ByValue.{call_of, call_by};
ghost use Rattle.table.specs.rules.Lent.{lent, left_with};

use base::Refusal;
use lock::{Call, Client, Kind, Settings};

mod by_levels;
mod causes;

pub use by_levels::{nolthewyr_cover, nolthewyr_step_count, nolthewyr_word_count};
pub use causes::{client_cause, clients_cause, clients_outside, opening_cause};

// The call of a kind. All calls over the table are this one function, so that the call by value has one caller and is built into it once; the others only pass
// their arguments on. The four calls below and `nolthewyr_open` answer a number: they are what may not change, since docs/LINKING.md names them, and `table_c` exports them with their clauses word for word.
// `call.kind` is not read here: C's four calls ignore it, and `kind` is the call's name. C lends the clients and the words, and hands the settings and the call, one by one.
fn acted(
    clients: &mut [Client],
    words: &mut [u64],
    settings: Settings,
    call: Call,
    kind: Kind,
) -> Result<(), Refusal>
    ensures { left_with (number_in result) clients.new words.new ≡ Table.call settings (lent clients.old words.old) (call_by kind call.client call.a call.b) }
{
    causes::table_cause(settings, words.len(), clients.len(), call.client)?;
    let at = call.client as usize;
    clients[at] = clients[at].act_as(words, settings, call, kind)?;
    Ok(())
}

// The call that its kind names: 0 request, 1 step, 2 release, any other number cancel. It is public and takes every number, and `Kind::from` gives each its kind.
pub fn table_act(
    clients: &mut [Client],
    words: &mut [u64],
    settings: Settings,
    call: Call,
    kind: u64,
) -> u64
    ensures { left_with result clients.new words.new ≡ Table.call settings (lent clients.old words.old) (call_of kind call.client call.a call.b) }
{
    base::number_in(acted(clients, words, settings, call, Kind::from(kind)))
}

// Tests 1, 2, 3, 4, 6, 7, 8.
pub fn nolthewyr_request(
    clients: &mut [Client],
    words: &mut [u64],
    settings: Settings,
    call: Call,
) -> u64
    ensures { left_with result clients.new words.new ≡ Table.call settings (lent clients.old words.old) (Table.request call.client call.a call.b) }
{
    base::number_in(acted(clients, words, settings, call, Kind::Request))
}

// Tests 1, 2, 3, 4, 5, 6, 9.
pub fn nolthewyr_step(
    clients: &mut [Client],
    words: &mut [u64],
    settings: Settings,
    call: Call,
) -> u64
    ensures { left_with result clients.new words.new ≡ Table.call settings (lent clients.old words.old) (Table.step call.client call.a) }
{
    base::number_in(acted(clients, words, settings, call, Kind::Step))
}

// Tests 1, 2, 3, 4, 6, 8.
pub fn nolthewyr_release(
    clients: &mut [Client],
    words: &mut [u64],
    settings: Settings,
    call: Call,
) -> u64
    ensures { left_with result clients.new words.new ≡ Table.call settings (lent clients.old words.old) (Table.release call.client) }
{
    base::number_in(acted(clients, words, settings, call, Kind::Release))
}

// Tests 1, 2, 3, 4, 6, 8.
pub fn nolthewyr_cancel(
    clients: &mut [Client],
    words: &mut [u64],
    settings: Settings,
    call: Call,
) -> u64
    ensures { left_with result clients.new words.new ≡ Table.call settings (lent clients.old words.old) (Table.cancel call.client) }
{
    base::number_in(acted(clients, words, settings, call, Kind::Cancel))
}

fn opened(clients: &mut [Client], words: &mut [u64], settings: Settings) -> Result<(), Refusal>
    ensures { left_with (number_in result) clients.new words.new ≡ Table.opening settings (lent clients.old words.old) }
{
    opening_cause(settings, words.len(), clients.len())?;
    words.fill(0);
    clients.fill(Client::idle());
    Ok(())
}

// "Opening tests 1 to 3, then zeroes words, records and clock", every client's. Its number is what may not change, as that of the calls above.
pub fn nolthewyr_open(clients: &mut [Client], words: &mut [u64], settings: Settings) -> u64
    ensures { left_with result clients.new words.new ≡ Table.opening settings (lent clients.old words.old) }
{
    base::number_in(opened(clients, words, settings))
}
