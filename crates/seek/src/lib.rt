// Listing the moments of UTC that have wanted fields, by a labelled search through days and fields. A day is its
// index, and a TAI second is raised as leap raises it.
#![tactic(auto)]

ghost use Rattle.std.specs.Prelude.{◌≡◌, true, ◌&&◌, ℕ, ◌+◌, ◌≤◌, ◌<◌};
ghost use Rattle.calendar.specs.Gregorian.{ordinal_on, date_in};
ghost use Rattle.leap.specs.Table.{start};
ghost use Rattle.leap.specs.Builtin.{builtin, last_index, first_raised, past_raised};
ghost use Rattle.window.specs.Window.{named_in, first_of, Lists};
ghost use Rattle.seek.specs.Naming.{may, day_fits, names, list_of};
ghost use Rattle.seek.specs.Inner.{Ahead, Skips, left};

use base::Refusal;
use window::{Listed, Source};

// What is wanted of a field: one value, or any.
pub type Want = Option<u64>;

// The fields of a date: month and day, or the day of the year.
#[derive(Clone, Copy)]
pub struct Calendar {
    pub year: Want,
    pub month: Want,
    pub day: Want,
    pub ordinal: Want,
}

#[derive(Clone, Copy)]
pub struct Clock {
    pub hour: Want,
    pub minute: Want,
    pub second: Want,
}

// The fields that moments are wanted with, and their tick count.
#[derive(Clone, Copy)]
pub struct Wants {
    pub calendar: Calendar,
    pub clock: Clock,
    pub ticks: u64,
}

// The moments that have the wanted fields, from `at` on and before `to`. The window's last second is on the day `last`.
#[derive(Drop)]
struct Moments {
    wants: Wants,
    at: u64,
    to: u64,
    last: u64,
    ghost covered: { (first_raised ≤ at) × (to ≤ past_raised) },
    ghost ends: { (start builtin last ≤ to) × (to ≤ start builtin (last + 1)) × (last ≤ last_index) },
}

// Lists the moments that have the wanted fields, from `from` on and before `to`.
pub fn list(wants: Wants, from: u64, to: u64, out: &mut [i64]) -> Result<Listed, Refusal>
    ensures { Lists (list_of builtin wants from to) out.old out.new result }
{
    if from < leap::FIRST_RAISED || leap::PAST_RAISED < to {
        return Err(Refusal::Uncovered);
    }
    if to <= from {
        return Ok(Listed {
            ticks: wants.ticks,
            count: 0,
            more: false,
        });
    }
    let last = leap::reading_at(to - 1).unwrap();
    let moments = Moments {
        wants,
        at: from,
        to,
        last: last.day,
    };
    Ok(window::fill(moments, wants.ticks, out))
}

impl Source for Moments {
    ghost left = { λ s. left s.wants s.at s.to };

    fn next(&mut self) -> Option<i64> {
        let found = self.first()?;
        self.at = found + 1;
        Some(base::lowered(found + leap::SECOND_BIAS))
    }
}

impl Moments {
    // The first of them. A day's begin and length are asked only of a day that fits, and its seconds are looked at up to
    // its end or the window's.
    fn first(&self) -> Option<u64>
        ensures { result ≡ first_of (named_in (names builtin self.now.wants) self.now.at self.now.to) }
    {
        if self.to <= self.at {
            return None;
        }
        let first = leap::reading_at(self.at).unwrap();
        let mut day = first.day;
        let mut s = first.second;
        // the labelled search that docs/FORMS.md names
        let found = 'days: loop {
            if self.last < day {
                break 'days None;
            }
            if self.wants.calendar.fits(day) {
                let span = leap::day_at(day).unwrap();
                let end = span.length.min(self.to - span.start);
                'fields: while s < end {
                    let t = self.wants.clock.skip(s);
                    if t == s {
                        break 'days Some(span.start + s);
                    }
                    s = t;
                }
            }
            day += 1;
            s = 0;
        };
        found
    }
}

// The bound on a day stays a `requires` of these three: a type with it would be the calendar's private one over again.
impl Calendar {
    // Whether a day has the wanted fields. The calendar is asked only where something is wanted of it.
    fn fits(self, day: u64) -> bool
        requires { day ≤ 3652058 }
        ensures { result ≡ day_fits self day }
    {
        self.fits_ordinal(day) && self.fits_date(day)
    }

    fn fits_ordinal(self, day: u64) -> bool
        requires { day ≤ 3652058 }
        ensures { result ≡ (may self.year (ordinal_on day).year && may self.ordinal (ordinal_on day).day) }
    {
        if self.year.is_none() && self.ordinal.is_none() {
            return true;
        }
        let shown = calendar::ordinal_at(day).unwrap();
        fits(self.year, shown.year) && fits(self.ordinal, shown.day)
    }

    fn fits_date(self, day: u64) -> bool
        requires { day ≤ 3652058 }
        ensures { result ≡ (may self.month (date_in (ordinal_on day)).month && may self.day (date_in (ordinal_on day)).day) }
    {
        if self.month.is_none() && self.day.is_none() {
            return true;
        }
        let shown = calendar::date_at(day).unwrap();
        fits(self.month, shown.month) && fits(self.day, shown.day)
    }
}

impl Clock {
    // The second of a day to look at next: `s` itself where it fits, or else a later one such that none between them fits.
    // A second and no Option: the labelled search that docs/FORMS.md names goes on with it.
    fn skip(self, s: u64) -> u64
        requires { s ≤ 86400 }
        ensures { Skips self s result }
    {
        if s == 86400 {
            return if self.fits(23, 59, 60) { 86400 } else { 86401 };
        }
        // no second below sixty is wanted
        if self.second.is_some_and(|v| 60 <= v) {
            return 86400;
        }
        let h = ahead(self.hour, s / 3600);
        if s / 3600 < h {
            return (h * 3600).min(86400);
        }
        let m = ahead(self.minute, s / 60);
        if s / 60 < m {
            return m * 60;
        }
        ahead(self.second, s)
    }

    fn fits(self, hour: u64, minute: u64, second: u64) -> bool
        ensures { result ≡ (may self.hour hour && may self.minute minute && may self.second second) }
    {
        fits(self.hour, hour) && fits(self.minute, minute) && fits(self.second, second)
    }
}

// The next number from n on whose place in its sixty is wanted, or else the next sixty's first.
fn ahead(want: Want, n: u64) -> u64
    requires { n < 86400 }
    ensures { Ahead want n result }
{
    let Some(v) = want else {
        return n;
    };
    let place = n % 60;
    if v < place {
        return n - place + 60;
    }
    n - place + v.min(60)
}

fn fits(want: Want, is: u64) -> bool
    ensures { result ≡ may want is }
{
    want.is_none_or(|v| v == is)
}
