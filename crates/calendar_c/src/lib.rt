// The two calls of ward hours, as C links them. Each makes the call of the crate `calendar` that has its name, and states the clauses of that call again, word for word.
// (All of one shape: C links each by a name of its own, and has no generic functions.)
#![tactic(auto)]

ghost use Rattle.std.specs.Prelude.{◌≡◌};
ghost use Rattle.calendar.specs.rules.Back.{quarter_answer};
ghost use Rattle.calendar.specs.rules.Windows.{window_answer};

use calendar::{Calendar, Quarter, QuarterAnswer, WindowAnswer};

// There: the edges of the window from `first` to `last`. The hours are pairs of opening and closing, those of ward 0's days 0 to 6 first. Tests 1 for the levels, then 12, 13 and 14.
#[unsafe(no_mangle)]
pub extern "C" fn nolthewyr_calendar_window(
    hours: &[u64],
    calendar: Calendar,
    first: Quarter,
    last: Quarter,
) -> WindowAnswer
    ensures { result ≡ window_answer calendar hours.now first last }
{
    calendar::nolthewyr_calendar_window(hours, calendar, first, last)
}

// Back: the quarter that a unit is. Tests 1 for the levels, then 12, and takes no hours.
#[unsafe(no_mangle)]
pub extern "C" fn nolthewyr_calendar_quarter(calendar: Calendar, unit: u64) -> QuarterAnswer
    ensures { result ≡ quarter_answer calendar unit }
{
    calendar::nolthewyr_calendar_quarter(calendar, unit)
}
