// The two calls.
ghost use Rattle.std.specs.Prelude.{◌≡◌};
ghost use Rattle.calendar.specs.rules.Back.{quarter_answer};
ghost use Rattle.calendar.specs.rules.Windows.{window_answer};
ghost use Rattle.calendar.specs.laws.Told.{window_told, quarter_told};

use crate::figures::Figures;
use crate::window::Window;
use crate::{Calendar, Quarter, QuarterAnswer, WindowAnswer};
use base::Refusal;

// The edges of the window from `first` to `last`, which C hands one by one, as it does hours and calendar.
fn edges(
    hours: &[u64],
    calendar: Calendar,
    first: Quarter,
    last: Quarter,
) -> Result<(u64, u64), Refusal>
    ensures { window_told result ≡ window_answer calendar hours.now first last }
{
    let figures = Figures::try_from(calendar)?;
    let window = Window::new(figures, hours, first, last)?;
    if window.some_closed() {
        return Err(Refusal::Closed);
    }
    Ok(window.edges())
}

// There: the edges of the window from `first` to `last`. The hours are pairs of opening and closing, those of ward 0's days 0 to 6 first. Tests 1 for the levels, then 12, 13 and 14.
pub fn nolthewyr_calendar_window(
    hours: &[u64],
    calendar: Calendar,
    first: Quarter,
    last: Quarter,
) -> WindowAnswer
    ensures { result ≡ window_answer calendar hours.now first last }
{
    edges(hours, calendar, first, last).into()
}

// The quarter that a unit of the calendar is.
fn quarter(calendar: Calendar, unit: u64) -> Result<Quarter, Refusal>
    ensures { quarter_told result ≡ quarter_answer calendar unit }
{
    let figures = Figures::try_from(calendar)?;
    if figures.unit_count() <= unit {
        return Err(Refusal::Calendar);
    }
    Ok(figures.quarter_of(unit))
}

// Back: the quarter that a unit is. Tests 1 for the levels, then 12, and takes no hours.
pub fn nolthewyr_calendar_quarter(calendar: Calendar, unit: u64) -> QuarterAnswer
    ensures { result ≡ quarter_answer calendar unit }
{
    quarter(calendar, unit).into()
}
