// Cause 1, and cause 12 as far as it needs no hours: the calendar's figures, and a quarter that it does not have.
ghost use Rattle.std.specs.Prelude.{◌≡◌, ◌≤◌};
ghost use Rattle.tree.specs.rules.Tree.{units};
ghost use Rattle.calendar.specs.rules.Calendar.{unit_count, unknown, Fits};
ghost use Rattle.calendar.specs.laws.Figures.{Few};

use crate::{Calendar, Quarter};
use base::Refusal;

// A calendar whose levels and figures are right.
#[derive(Clone, Copy)]
pub struct Figures {
    pub calendar: Calendar,
    ghost fits: { Fits calendar },
}

impl TryFrom<Calendar> for Figures {
    type Error = Refusal;

    ghost use Rattle.std.specs.Prelude.{◌≡◌, IfOk};
    ghost use Rattle.base.specs.rules.Refusals.{number_in};
    ghost use Rattle.calendar.specs.laws.Told.{figures_cause};

    ghost try_from_gives = { λ calendar result. (number_in result ≡ figures_cause calendar) × IfOk result (λ f. f.calendar ≡ calendar) };

    // Tests 1 for the levels, then 12 for the other figures. The range of the levels is stated where it is tested.
    fn try_from(calendar: Calendar) -> Result<Figures, Refusal> {
        if (calendar.levels < 2) | (12 < calendar.levels) {
            return Err(Refusal::Settings);
        }
        if (calendar.wards < 1)
            | (64 < calendar.wards)
            | (calendar.weeks < 1)
            | (60 < calendar.weeks)
        {
            return Err(Refusal::Calendar);
        }
        if tree_units(calendar.levels) < unit_count(calendar) {
            return Err(Refusal::Calendar);
        }
        Ok(Figures { calendar })
    }
}

impl Figures {
    // How many units the calendar has.
    pub fn unit_count(self) -> u64
        ensures { result ≡ unit_count self.calendar }
    {
        unit_count(self.calendar)
    }

    pub fn unknown(self, at: Quarter) -> bool
        ensures { result ≡ unknown self.calendar at }
    {
        let calendar = self.calendar;
        (calendar.wards <= at.ward) | (calendar.weeks <= at.week) | (6 < at.day) | (95 < at.quarter)
    }
}

// N, how many units the tree has.
fn tree_units(levels: u64) -> u64
    requires { (2 ≤ levels) × (levels ≤ 12) }
    ensures { result ≡ units levels }
{
    64u64 << (2 * (levels - 1))
}

fn unit_count(calendar: Calendar) -> u64
    requires { Few calendar }
    ensures { result ≡ unit_count calendar }
{
    calendar.wards * calendar.weeks * 672
}
