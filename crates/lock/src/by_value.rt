// The calls of a run whose words are in another machine's memory: on its client, by value. They touch no word.
ghost use Rattle.std.specs.Prelude.{◌≡◌, ◌≤◌, IfOk};
ghost use Rattle.lock.specs.rules.Steps.{moved};
ghost use Rattle.base.specs.rules.Refusals.{number_in};
ghost use Rattle.lock.specs.rules.Calls.{first_cause, stepped_by};
ghost use Rattle.lock.specs.rules.Operations.{operation_by, post_tests, operation_answer, completed_answer, own_request_answer, own_release_answer, own_cancel_answer};
ghost use Rattle.lock.specs.laws.Placed.{Sound};
ghost use Rattle.lock.specs.laws.Rows.{moved_of};

use crate::moves::Moved;
use crate::returning::leaves;
use crate::{Client, Operation, Record, Settings, Stepped, ValidSettings};
use base::Refusal;

impl Record {
    // The completion of the step by this clock that found this word.
    fn completed(self, settings: ValidSettings, clock: u64, found: u64) -> Result<Moved, Refusal>
        requires { Sound settings.values self × (self.t1 ≤ clock) × (self.t0 ≤ clock) × (self.taken ≤ clock) }
        ensures { moved_of self found result ≡ moved settings.values self found clock }
    {
        if self.out_of_patience(settings.values, clock) {
            return Ok(leaves(found, self.sent_back(4)));
        }
        let n = self.own_touched(settings);
        self.own_moved(settings, n, found, clock)
    }
}

impl Client {
    // Causes 1, 5 and 6; 5 never by the client's own last clock.
    pub fn post_tests(self, settings: Settings, clock: u64) -> Result<ValidSettings, Refusal>
        ensures number { number_in result ≡ first_cause (post_tests settings self clock) }
        ensures same { IfOk result (λ valid. valid.values ≡ settings) }
    {
        let valid = settings.valid()?;
        if clock < self.clock {
            return Err(Refusal::Clock);
        }
        if self.record.unreadable(valid, self.clock) {
            return Err(Refusal::Unreadable);
        }
        Ok(valid)
    }

    // Which operation is posted now.
    pub fn operation(self, settings: Settings, clock: u64) -> Result<Operation, Refusal>
        ensures number { number_in result ≡ first_cause (post_tests settings self clock) }
        ensures operation { operation_by result ≡ operation_answer settings self clock }
    {
        let tested = self.post_tests(settings, clock)?;
        Ok(self.record.operation(tested, clock))
    }

    // What becomes of the client when the word found comes back.
    pub fn completed(self, settings: Settings, clock: u64, found: u64) -> Result<Client, Refusal>
        ensures { stepped_by self result ≡ completed_answer settings self clock found }
    {
        let valid = self.post_tests(settings, clock)?;
        let moved = self.record.completed(valid, clock, found)?;
        Ok(Client {
            clock,
            record: moved.next,
        })
    }

    // The three calls that touch no word, alike but for the record's own call: one function that takes it as a closure would be longer than the two lines of each.
    pub fn own_request(self, settings: Settings, a: u64, b: u64) -> Result<Client, Refusal>
        ensures { stepped_by self result ≡ own_request_answer settings self a b }
    {
        let valid = self.post_tests(settings, self.clock)?;
        Ok(self.with(self.record.request(valid, a, b)?))
    }

    pub fn own_release(self, settings: Settings) -> Result<Client, Refusal>
        ensures { stepped_by self result ≡ own_release_answer settings self }
    {
        self.post_tests(settings, self.clock)?;
        Ok(self.with(self.record.release()?))
    }

    pub fn own_cancel(self, settings: Settings) -> Result<Client, Refusal>
        ensures { stepped_by self result ≡ own_cancel_answer settings self }
    {
        self.post_tests(settings, self.clock)?;
        Ok(self.with(self.record.cancel()?))
    }

    // "As it was": a refused call gives its number only. The C interface has number and client beside each other.
    pub fn stepped(self, answer: Result<Client, Refusal>) -> Stepped
        ensures { result ≡ stepped_by self answer }
    {
        match answer {
            Ok(next) => Stepped { number: 0, next },
            Err(refusal) => Stepped {
                number: refusal.number(),
                next: self,
            },
        }
    }
}

// The C interface has a refused operation: its number, and 0.
impl From<Result<Operation, Refusal>> for Operation {
    ghost from_gives = { λ answer operation. operation ≡ operation_by answer };

    fn from(answer: Result<Operation, Refusal>) -> Operation {
        match answer {
            Ok(operation) => operation,
            Err(refusal) => Operation::refused(refusal.number()),
        }
    }
}
