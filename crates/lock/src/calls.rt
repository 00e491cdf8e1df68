// The calls by value: from the client, the lent tree, the settings and the call to the client after it, or to the cause of its refusal.
ghost use Rattle.std.specs.Prelude.{◌≡◌, false, ◌||◌, [], ◌∷◌, ◌≤◌, eqb, length, get_or, IfOk};
ghost use Rattle.base.specs.rules.Refusals.{number_in};
ghost use Rattle.tree.specs.rules.Tree.{word_count};
ghost use Rattle.cover.specs.rules.Answer.{window_outside};
ghost use Rattle.cover.specs.laws.Lowest.{Window};
ghost use Rattle.lock.specs.rules.Records.{cover_of, word_at, written, sent_back, client_with, idle_client};
ghost use Rattle.lock.specs.rules.Steps.{touched, moved};
ghost use Rattle.lock.specs.rules.Unreadable.{differ, unreadable};
ghost use Rattle.lock.specs.rules.Calls.{first_cause, tree_tests, requested, released, cancelled, stepped_by};
ghost use Rattle.lock.specs.rules.ByValue.{call_of, call_by, answer_to, words_after};
ghost use Rattle.lock.specs.laws.ByKind.{clear_bit, left_by};

use crate::{Call, Client, Kind, Record, Settings, ValidSettings};
use base::Refusal;

// "Node n is word n - 1 of the lent 64-bit words"; 0 stands for no node, in the rules (`touched`) and in the operations that C is handed, so that an Option would be made and taken apart again.
fn word_at(words: &[u64], n: u64) -> u64
    requires { n ≤ length words.now }
    ensures { result ≡ word_at words.now n }
{
    if n == 0 {
        return 0;
    }
    words[(n - 1) as usize]
}

fn put_word(words: &mut [u64], n: u64, word: u64)
    requires { n ≤ length words.old }
    ensures { words.new ≡ written words.old n word }
{
    if n == 0 {
        return;
    }
    words[(n - 1) as usize] = word;
}

impl Settings {
    // Causes 1 and 2: settings outside their ranges, or a word count that is not the tree's.
    pub fn tree_tests(self, count: u64) -> Result<ValidSettings, Refusal>
        ensures number { number_in result ≡ first_cause (tree_tests self count) }
        ensures same { IfOk result (λ valid. valid.values ≡ self) }
    {
        let valid = self.valid()?;
        if count != tree::last_node(self.levels) {
            return Err(Refusal::WordCount);
        }
        Ok(valid)
    }
}

impl Record {
    // "A request sets window and pieces, zeroes the rest".
    fn requested(settings: ValidSettings, a: u64, b: u64, first: u64, second: u64) -> Record
        requires { Window settings.values.levels a b × (first ≡ get_or (cover_of settings.values a b) 0 0) × (second ≡ get_or (cover_of settings.values a b) 1 0) }
        ensures { result ≡ requested settings.values a b }
    {
        let phase = settings.values.start_phase(first);
        Record {
            phase,
            left: a,
            right: b,
            first,
            second,
            ..Record::default()
        }
    }

    // "set outcome 1 or 3 and phase 10"; 2.2, "sets outcome 4 and goes to returning"
    pub fn sent_back(mut self, outcome: u64) -> Record
        ensures { result ≡ sent_back outcome self }
    {
        self.phase = 10;
        self.outcome = outcome;
        self.place = 0;
        self
    }

    // "cancel (from 1..8)", or idle where there is nothing to give back.
    fn cancelled(self) -> Record
        ensures { result ≡ cancelled self }
    {
        if self.grip_of(0) == 0 {
            return Record::idle_with(3);
        }
        self.sent_back(3)
    }

    // What is left of a step after 1, 2, 5 and 6: patience, else 9 and the work on the one word.
    fn step(
        self,
        words: &mut [u64],
        settings: ValidSettings,
        last: u64,
        clock: u64,
    ) -> Result<Record, Refusal>
        requires { (length words.old ≡ word_count settings.values.levels) × (unreadable settings.values self last ≡ false) × (last ≤ clock) }
        ensures number { number_in result ≡ clear_bit settings.values self words.old clock }
        ensures next { IfOk result (λ next. next ≡ (moved settings.values self (word_at words.old (touched settings.values self clock)) clock).next) }
        ensures words { words.new ≡ left_by settings.values self words.old clock }
    {
        if self.out_of_patience(settings.values, clock) {
            return Ok(self.sent_back(4));
        }
        let n = self.own_touched(settings);
        let moved = self.own_moved(settings, n, word_at(words, n), clock)?;
        put_word(words, n, moved.word);
        Ok(moved.next)
    }

    // What is left of a release after 1, 2 and 6: 8, "release when not held".
    pub fn release(self) -> Result<Record, Refusal>
        ensures number { number_in result ≡ first_cause ((differ self.phase 9, 8) ∷ []) }
        ensures next { IfOk result (λ next. next ≡ released self) }
    {
        if self.phase != 9 {
            return Err(Refusal::Phase);
        }
        Ok(self.sent_back(1))
    }

    // What is left of a cancel after 1, 2 and 6: 8, "cancel in 0, 9 or 10".
    pub fn cancel(self) -> Result<Record, Refusal>
        ensures number { number_in result ≡ first_cause ((eqb self.phase 0 || eqb self.phase 9 || eqb self.phase 10, 8) ∷ []) }
        ensures next { IfOk result (λ next. next ≡ cancelled self) }
    {
        if (self.phase == 0) | (self.phase == 9) | (self.phase == 10) {
            return Err(Refusal::Phase);
        }
        Ok(self.cancelled())
    }

    // What is left of a request after 1, 2 and 6: 7, "request with l ≥ r or r > N", and 8.
    pub fn request(self, settings: ValidSettings, a: u64, b: u64) -> Result<Record, Refusal>
        ensures number { number_in result ≡ first_cause ((window_outside settings.values.levels a b, 7) ∷ (differ self.phase 0, 8) ∷ []) }
        ensures next { IfOk result (λ next. next ≡ requested settings.values a b) }
    {
        if cover::outside(settings.values.levels, a, b) {
            return Err(Refusal::Window);
        }
        if self.phase != 0 {
            return Err(Refusal::Phase);
        }
        let pieces = cover::piece_numbers(settings.values.levels, a, b);
        Ok(Record::requested(settings, a, b, pieces.first, pieces.second))
    }
}

impl Client {
    // As an opening leaves it.
    pub fn idle() -> Client
        ensures { result ≡ idle_client }
    {
        Client::default()
    }

    // With another record, by the same clock.
    pub fn with(self, next: Record) -> Client
        ensures { result ≡ client_with self.clock next }
    {
        Client {
            clock: self.clock,
            record: next,
        }
    }

    // The call of a kind. All begin with 1, 2, 5 (only a step) and 6, tested here for all; what comes after is the kind's own. "An accepted step sets the last clock."
    pub fn act_as(
        self,
        words: &mut [u64],
        settings: Settings,
        call: Call,
        kind: Kind,
    ) -> Result<Client, Refusal>
        ensures answer { stepped_by self result ≡ answer_to settings self words.old (call_by kind call.client call.a call.b) }
        ensures words { words.new ≡ words_after settings self words.old (call_by kind call.client call.a call.b) }
    {
        let valid = settings.tree_tests(words.len() as u64)?;
        if (kind == Kind::Step) & (call.a < self.clock) {
            return Err(Refusal::Clock);
        }
        if self.record.unreadable(valid, self.clock) {
            return Err(Refusal::Unreadable);
        }
        match kind {
            Kind::Request => Ok(self.with(self.record.request(valid, call.a, call.b)?)),
            Kind::Step => Ok(Client {
                clock: call.a,
                record: self.record.step(words, valid, self.clock, call.a)?,
            }),
            Kind::Release => Ok(self.with(self.record.release()?)),
            Kind::Cancel => Ok(self.with(self.record.cancel()?)),
        }
    }

    // The call that a number names: 0 request, 1 step, 2 release, any other number cancel.
    pub fn act(
        self,
        words: &mut [u64],
        settings: Settings,
        call: Call,
        kind: u64,
    ) -> Result<Client, Refusal>
        ensures answer { stepped_by self result ≡ answer_to settings self words.old (call_of kind call.client call.a call.b) }
        ensures words { words.new ≡ words_after settings self words.old (call_of kind call.client call.a call.b) }
    {
        self.act_as(words, settings, call, Kind::from(kind))
    }
}
