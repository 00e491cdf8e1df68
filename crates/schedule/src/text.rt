// What is written: numbers and words, of which every program's lines are made.
ghost use Rattle.std.specs.Prelude.{◌≡◌, ◌+◌, ◌*◌, ◌≤◌, [], ◌++◌, length};
ghost use Rattle.schedule.specs.laws.Appended.{Appended};
ghost use Rattle.schedule.specs.laws.Numbers.{all_spaced};
ghost use Rattle.schedule.specs.rules.Text.{decimal, spaced};

use std::marker::Model;

// A line that is being written, seen as the bytes that it has so far. A number has at most 20 digits and one byte before or behind it, and no line has more
// than seventeen numbers: 357 bytes. The buffer is private and stands with its length behind a model, which is the form for such a buffer here. It is not written by
// `write!`, which promises the text only where it answers Ok: no clause of the library says that it does where there is room, and a log may not be given up.
#[derive(Drop)]
pub struct Line {
    bytes: [u8; 360],
    end: usize,
}

impl Model for Line {
    ghost use Rattle.std.specs.Prelude.{List, ℕ, ◌≤◌, take};

    ghost Value = { List ℕ };

    ghost view = { λ line. take line.end line.bytes };

    ghost invariant = { λ line. line.end ≤ 360 };
}

// Copies a text of any length to lent bytes, behind what they have before `at`, and answers where it ends.
pub fn put_bytes(out: &mut [u8], at: usize, text: &[u8]) -> usize
    requires { at + length text.now ≤ length out.old }
    ensures { Appended out.old at out.new result text.now }
{
    let end = at + text.len();
    out[at..end].copy_from_slice(text);
    end
}

impl Line {
    pub fn new() -> Line
        ensures { result ≡ [] }
    {
        Line {
            bytes: [0; 360],
            end: 0,
        }
    }

    // The bytes of `text`.
    pub fn text(&mut self, text: &[u8])
        requires { length self.old + length text.now ≤ 360 }
        ensures { self.new ≡ self.old ++ text.now }
    {
        let end = self.end + text.len();
        self.bytes[self.end..end].copy_from_slice(text);
        self.end = end;
    }

    // A number in decimal.
    pub fn decimal(&mut self, n: u64)
        requires { length self.old + 20 ≤ 360 }
        ensures piece { self.new ≡ self.old ++ decimal n }
        ensures short { length self.new ≤ length self.old + 20 }
    {
        let mut digits = [0u8; 20];
        let count = io::decimal(n, &mut digits);
        self.text(&digits[..count]);
    }

    // A space and a number.
    pub fn spaced(&mut self, n: u64)
        requires { length self.old + 21 ≤ 360 }
        ensures piece { self.new ≡ self.old ++ spaced n }
        ensures short { length self.new ≤ length self.old + 21 }
    {
        self.text(b" ");
        self.decimal(n);
    }

    // A space and a number for each.
    pub fn numbers(&mut self, numbers: &[u64])
        requires { length self.old + 21 * length numbers.now ≤ 360 }
        ensures pieces { self.new ≡ self.old ++ all_spaced numbers.now }
        ensures short { length self.new ≤ length self.old + 21 * length numbers.now }
    {
        for n in numbers {
            self.spaced(*n);
        }
    }

    // A name, a space and a number.
    pub fn named(&mut self, name: &[u8], n: u64)
        requires { length self.old + length name.now + 21 ≤ 360 }
        ensures piece { self.new ≡ self.old ++ (name.now ++ spaced n) }
        ensures short { length self.new ≤ length self.old + length name.now + 21 }
    {
        self.text(name);
        self.spaced(n);
    }

    // Copies the line to lent bytes, behind what they have before `at`, and answers where it ends: the log and the pages go into the bytes that their callers lend.
    pub fn put(&self, out: &mut [u8], at: usize) -> usize
        requires { at + length self.now ≤ length out.old }
        ensures { Appended out.old at out.new result self.now }
    {
        put_bytes(out, at, &self.bytes[..self.end])
    }
}
