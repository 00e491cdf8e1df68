// Whether a quarter of a window is closed, found day by day. A window's first day is looked at from its first quarter on, its last day up to its last quarter, and the days between are whole: of these
// only the first seven are looked at, since then the same days of the week come again. So nine pairs of hours are looked at, at most, however long the window.
ghost use Rattle.std.specs.Prelude.{◌≡◌, ◌+◌, ◌-◌, ◌*◌, ◌≤◌, ◌<◌, min, length};
ghost use Rattle.calendar.specs.rules.Windows.{some_closed};
ghost use Rattle.calendar.specs.laws.Closed.{closed_in_day, closed_in_days};

use crate::window::Window;

// The hours of one ward, among the lent ones. The C interface needs them one after another, opening and closing in turn.
#[derive(Clone, Copy)]
struct WardHours<'a> {
    hours: &'a [u64],
    ward: u64,
    ghost there: { 14 * ward + 14 ≤ length hours.now },
}

impl WardHours<'_> {
    // Whether a quarter of the day, from `from` to `to`, is closed.
    fn closed_in_day(self, day: u64, from: u64, to: u64) -> bool
        requires { day < 7 }
        ensures { result ≡ closed_in_day self.entry.hours.now self.entry.ward day from to }
    {
        let pair = (7 * self.ward + day) as usize;
        let opening = self.hours[2 * pair];
        let closing = self.hours[2 * pair + 1];
        (from < opening) | (closing <= to)
    }

    // Whether one of so many days after `day` has a closed quarter.
    fn closed_in_days(self, day: u64, days: u64) -> bool
        requires { (day < 7) × (days ≤ 7) }
        ensures { result ≡ closed_in_days self.entry.hours.now self.entry.ward day days }
    {
        (0..days).any(|after| self.closed_in_day((day + 1 + after) % 7, 0, 95))
    }
}

// How many whole days lie between a first day and the one that comes `days` days after it; seven at most.
fn whole_days(days: u64) -> u64
    requires { 0 < days }
    ensures { result ≡ min 7 (days - 1) }
{
    (days - 1).min(7)
}

impl Window<'_> {
    // Whether some quarter of the window is closed.
    pub fn some_closed(self) -> bool
        ensures { result ≡ some_closed self.entry.figures.calendar.weeks self.entry.hours.now self.entry.first self.entry.last }
    {
        let first = self.first;
        let last = self.last;
        let ward = WardHours {
            hours: self.hours,
            ward: first.ward,
        };
        let days = 7 * last.week + last.day - (7 * first.week + first.day);
        if days == 0 {
            return ward.closed_in_day(first.day, first.quarter, last.quarter);
        }
        ward.closed_in_day(first.day, first.quarter, 95)
            | ward.closed_in_day(last.day, 0, last.quarter)
            | ward.closed_in_days(first.day, whole_days(days))
    }
}
