// The calls over a lent client table, and what can be asked of a tree by its levels and distance alone, as C links them. Each makes the call of the crate `table` that has its name, and states the clauses of that call
// again, word for word.
// (All of one shape: C links each by a name of its own, and has no generic functions.)
#![tactic(auto)]

ghost use Rattle.std.specs.Prelude.{◌≡◌};
ghost use Rattle.cover.specs.rules.Answer.{answer};
ghost use Rattle.lock.specs.rules.StepCount.{step_count_answer};
ghost use Rattle.lock.specs.rules.Table as Table;
ghost use Rattle.table.specs.rules.Lent.{lent, left_with};
ghost use Rattle.table.specs.rules.Wanted.{words_wanted};

use lock::{Call, Client, Settings};

// Tests 1, 2, 3, 4, 6, 7, 8.
#[unsafe(no_mangle)]
pub extern "C" fn nolthewyr_request(
    clients: &mut [Client],
    words: &mut [u64],
    settings: Settings,
    call: Call,
) -> u64
    ensures { left_with result clients.new words.new ≡ Table.call settings (lent clients.old words.old) (Table.request call.client call.a call.b) }
{
    table::nolthewyr_request(clients, words, settings, call)
}

// Tests 1, 2, 3, 4, 5, 6, 9.
#[unsafe(no_mangle)]
pub extern "C" fn nolthewyr_step(
    clients: &mut [Client],
    words: &mut [u64],
    settings: Settings,
    call: Call,
) -> u64
    ensures { left_with result clients.new words.new ≡ Table.call settings (lent clients.old words.old) (Table.step call.client call.a) }
{
    table::nolthewyr_step(clients, words, settings, call)
}

// Tests 1, 2, 3, 4, 6, 8.
#[unsafe(no_mangle)]
pub extern "C" fn nolthewyr_release(
    clients: &mut [Client],
    words: &mut [u64],
    settings: Settings,
    call: Call,
) -> u64
    ensures { left_with result clients.new words.new ≡ Table.call settings (lent clients.old words.old) (Table.release call.client) }
{
    table::nolthewyr_release(clients, words, settings, call)
}

// Tests 1, 2, 3, 4, 6, 8.
#[unsafe(no_mangle)]
pub extern "C" fn nolthewyr_cancel(
    clients: &mut [Client],
    words: &mut [u64],
    settings: Settings,
    call: Call,
) -> u64
    ensures { left_with result clients.new words.new ≡ Table.call settings (lent clients.old words.old) (Table.cancel call.client) }
{
    table::nolthewyr_cancel(clients, words, settings, call)
}

// "Opening tests 1 to 3, then zeroes words, records and clock", every client's.
#[unsafe(no_mangle)]
pub extern "C" fn nolthewyr_open(
    clients: &mut [Client],
    words: &mut [u64],
    settings: Settings,
) -> u64
    ensures { left_with result clients.new words.new ≡ Table.opening settings (lent clients.old words.old) }
{
    table::nolthewyr_open(clients, words, settings)
}

// The pieces of [left, right) and their total over-cover. Tests 1 for the levels, then 7.
#[unsafe(no_mangle)]
pub extern "C" fn nolthewyr_cover(levels: u64, left: u64, right: u64) -> cover::Answer
    ensures { result ≡ answer levels left right }
{
    table::nolthewyr_cover(levels, left, right)
}

// How many steps [left, right) needs on an otherwise idle tree. Tests 1 for the levels and the distance, then 7.
#[unsafe(no_mangle)]
pub extern "C" fn nolthewyr_step_count(
    levels: u64,
    distance: u64,
    left: u64,
    right: u64,
) -> lock::StepCount
    ensures { result ≡ step_count_answer levels distance left right }
{
    table::nolthewyr_step_count(levels, distance, left, right)
}

// How many words are to be lent; 0 for a number of levels that no tree has.
#[unsafe(no_mangle)]
pub extern "C" fn nolthewyr_word_count(levels: u64) -> u64
    ensures { result ≡ words_wanted levels }
{
    table::nolthewyr_word_count(levels)
}
