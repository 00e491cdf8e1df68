// A window that a right calendar has, from its first quarter to its last: causes 12 and 13.
ghost use Rattle.std.specs.Prelude.{◌≡◌, false, IfOk};
ghost use Rattle.base.specs.rules.Refusals.{number_in};
ghost use Rattle.calendar.specs.rules.Windows.{calendar_wrong, out_of_order, left_edge, right_edge};
ghost use Rattle.calendar.specs.laws.Told.{order_cause};

use crate::Quarter;
use crate::figures::Figures;
use base::Refusal;

// "A window lies in one ward from a first to a last quarter."
#[derive(Clone, Copy)]
pub struct Window<'a> {
    pub figures: Figures,
    pub hours: &'a [u64],
    pub first: Quarter,
    pub last: Quarter,
    ghost right: { calendar_wrong figures.calendar hours.now first last ≡ false },
    ghost order: { out_of_order figures.calendar.weeks first last ≡ false },
}

impl<'a> Window<'a> {
    // Tests 12 for the hours and for both ends, then 13.
    pub fn new(
        figures: Figures,
        hours: &'a [u64],
        first: Quarter,
        last: Quarter,
    ) -> Result<Window<'a>, Refusal>
        ensures number { number_in result ≡ order_cause figures.calendar hours.now first last }
        ensures same { IfOk result (λ w. (w.figures.calendar ≡ figures.calendar) × (w.hours.now ≡ hours.now) × (w.first ≡ first) × (w.last ≡ last)) }
    {
        if figures.hours_wrong(hours) | figures.unknown(first) | figures.unknown(last) {
            return Err(Refusal::Calendar);
        }
        if (last.ward != first.ward) | (figures.unit_of(last) < figures.unit_of(first)) {
            return Err(Refusal::Order);
        }
        Ok(Window {
            figures,
            hours,
            first,
            last,
        })
    }

    // "A window .. locks from the first's unit up to the last's plus 1."
    pub fn edges(self) -> (u64, u64)
        ensures left { result.0 ≡ left_edge self.entry.figures.calendar.weeks self.entry.first }
        ensures right { result.1 ≡ right_edge self.entry.figures.calendar.weeks self.entry.last }
    {
        (
            self.figures.unit_of(self.first),
            self.figures.unit_of(self.last) + 1,
        )
    }
}
