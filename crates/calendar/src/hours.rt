// The lent hours: whether they are one pair for each ward and day, and each pair right.
ghost use Rattle.std.specs.Prelude.{◌≡◌, ◌/◌, length};
ghost use Rattle.calendar.specs.rules.Hours.{pair_wrong, hours_wrong};
ghost use Rattle.calendar.specs.laws.HoursLaws.{some_pair_wrong};

use crate::figures::Figures;

// An opening over 96 is over its closing, or that is over 96 too.
fn pair_wrong(opening: u64, closing: u64) -> bool
    ensures { result ≡ pair_wrong opening closing }
{
    (96 < closing) | (closing < opening)
}

// Whether one of the pairs is wrong. It stops at the first that is.
fn some_pair_wrong(hours: &[u64]) -> bool
    ensures { result ≡ some_pair_wrong hours.now (length hours.now / 2) }
{
    let (pairs, _) = hours.as_chunks::<2>();
    pairs
        .iter()
        .any(|[opening, closing]| pair_wrong(*opening, *closing))
}

impl Figures {
    pub fn hours_wrong(self, hours: &[u64]) -> bool
        ensures { result ≡ hours_wrong self.calendar.wards hours.now }
    {
        hours.len() as u64 != 14 * self.calendar.wards || some_pair_wrong(hours)
    }
}
