// A moment of UTC before any table: what the fields of CDS, CCS and ASCII name.
#![tactic(auto)]

ghost use Rattle.std.specs.Prelude.{◌≡◌, ◌/◌, ◌^◌};
ghost use Rattle.scale.specs.Time.{per_second};
ghost use Rattle.moment.specs.Moment.{is_moment};

use base::Refusal;
use scale::Record;

// A day counted from 1958-01-01, a second of it (86,400 is 23:59:60), and ticks of that second.
#[derive(Clone, Copy, Debug, PartialEq, Eq)]
pub struct Moment {
    pub day: i64,
    pub second: u64,
    pub ticks: u64,
}

impl Moment {
    // Whether some day can have such a second, and a second such ticks.
    #[tactic(auto, unfolding(crate::specs::Moment::is_moment))]
    pub fn valid(self) -> bool
        ensures { result ≡ is_moment self }
    {
        self.second <= 86400 && self.ticks < Record::TICKS
    }
}

// The ticks that the last of d digits of a fraction counts, and 0 where that is less than one.
pub fn decimal_unit(d: usize) -> u64
    ensures { result ≡ per_second / 10 ^ d }
{
    if d < 20 {
        Record::TICKS / octets::power10(d)
    } else {
        0
    }
}
