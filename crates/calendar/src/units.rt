// The unit of a quarter, and the quarter of a unit.
ghost use Rattle.std.specs.Prelude.{◌≡◌};
ghost use Rattle.calendar.specs.rules.Calendar.{unit_of, quarter_of, Known};

use crate::Quarter;
use crate::figures::Figures;

impl Figures {
    // A type for a quarter that the calendar has would be no plainer: only windows ask for units, and a window knows its two ends.
    pub fn unit_of(self, at: Quarter) -> u64
        requires { Known self.calendar at }
        ensures { result ≡ unit_of self.calendar.weeks at }
    {
        (at.ward * self.calendar.weeks + at.week) * 672 + at.day * 96 + at.quarter
    }

    pub fn quarter_of(self, unit: u64) -> Quarter
        ensures { result ≡ quarter_of self.calendar.weeks unit }
    {
        let week = unit / 672;
        Quarter {
            ward: week / self.calendar.weeks,
            week: week % self.calendar.weeks,
            day: unit / 96 % 7,
            quarter: unit % 96,
        }
    }
}
