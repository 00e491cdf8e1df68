// The client table of a schedule and the words of its tree, on which the calls are made. Nothing is written here.
ghost use Rattle.std.specs.Prelude.{◌≡◌, ◌≤◌, get_or, length, map, replicate, take};
ghost use Rattle.table.specs.rules.Lent.{lent, left_with};
ghost use Rattle.lock.specs.rules.ByValue.{call_of};
ghost use Rattle.lock.specs.rules.Records.{idle_client};
ghost use Rattle.lock.specs.rules.History as History;
ghost use Rattle.lock.specs.rules.Table as Calls;
ghost use Rattle.schedule.specs.rules.Format.{lent_for};
ghost use Rattle.schedule.specs.laws.FormatLaws.{call_of_bytes};
ghost use Rattle.schedule.specs.laws.RunLaws.{fresh};

use crate::examined::word_count;
use crate::{Schedule, format};
use lock::{Call, Client, Settings};
use std::marker::Model;
use table::table_act;

// A client table and the words of its tree, in memory for 64 clients and a tree of 6 levels: the first `count` clients and the first `last` words are the
// schedule's. The arrays stand with their counts behind a model, which is the form for a buffer with a private length here; as `ArrayVec`s they would be filled by a
// loop each before the first call.
#[derive(Clone, Drop)]
pub struct Table {
    clients: [Client; 64],
    count: usize,
    words: [u64; 1365],
    last: usize,
}

impl Model for Table {
    ghost use Rattle.std.specs.Prelude.{◌≤◌, take};
    ghost use Rattle.lock.specs.rules.Table.{State};
    ghost use Rattle.table.specs.rules.Lent.{lent};

    ghost Value = { State };

    ghost view = { λ t. lent (take t.count t.clients) (take t.last t.words) };

    ghost invariant = { λ t. (t.count ≤ 64) × (t.last ≤ 1365) };
}

// An array that holds one value everywhere.
fn filled<T: Copy, const N: usize>(value: T) -> [T; N]
    ensures { result ≡ replicate N value }
{
    [value; N]
}

// A call on the first clients and the first words. The fields of a table are lent to it one by one: two slices of what lies behind one reference cannot be lent at
// once.
fn act_front(
    clients: &mut [Client; 64],
    count: usize,
    words: &mut [u64; 1365],
    last: usize,
    settings: Settings,
    call: Call,
) -> u64
    requires { (count ≤ 64) × (last ≤ 1365) }
    ensures { left_with result (take count clients.new) (take last words.new) ≡ Calls.call settings (lent (take count clients.old) (take last words.old)) (call_of call.kind call.client call.a call.b) }
{
    let clients = &mut clients[..count];
    let words = &mut words[..last];
    table_act(clients, words, settings, call, call.kind)
}

// A client among these; past them an idle one.
pub fn client_of(clients: &[Client], client: u64) -> Client
    ensures { result ≡ get_or clients.now client idle_client }
{
    let own = clients.get(client as usize);
    own.copied().unwrap_or(Client::idle())
}

impl Table {
    // Words of 0 and idle clients, as the opening leaves them.
    fn new(settings: Settings, clients: usize) -> Table
        requires { (settings.levels ≤ 6) × (clients ≤ 64) }
        ensures { result ≡ lent_for settings clients }
    {
        Table {
            clients: filled(Client::idle()),
            count: clients,
            words: filled(0),
            last: word_count(settings.levels),
        }
    }

    // The clients, as many as the schedule has.
    pub fn clients(&self) -> &[Client]
        ensures clients { result.now ≡ self.now.clients }
        ensures few { length result.now ≤ 64 }
    {
        &self.clients[..self.count]
    }

    // A client after a call; past the table an idle one.
    pub fn client(&self, client: u64) -> Client
        ensures { result ≡ Calls.client_at self.now client }
    {
        client_of(self.clients(), client)
    }

    // Makes a call, and answers its number.
    pub fn make(&mut self, settings: Settings, call: Call) -> u64
        ensures { Calls.call settings self.old (call_of call.kind call.client call.a call.b) ≡ record { number = result; state = self.new } }
    {
        let Table {
            clients,
            count,
            words,
            last,
        } = self;
        act_front(clients, *count, words, *last, settings, call)
    }
}

impl Schedule<'_> {
    // The table before the first call.
    pub fn table(&self) -> Table
        ensures { result ≡ fresh self.now.settings self.now.clients }
    {
        Table::new(self.settings, self.clients)
    }

    // The table after the last call.
    pub fn run(&self) -> Table
        ensures table { result ≡ History.run self.now.settings (fresh self.now.settings self.now.clients) (map call_of_bytes self.now.calls.now) }
        ensures clients { length result.clients ≡ self.now.clients }
    {
        let mut table = self.table();
        for call in self.calls {
            table.make(self.settings, format::call_in(call));
        }
        table
    }
}
