// CCS, the calendar segmented time code: its T-field, read to a moment of UTC and written from one. Crates above read the
// P octet and apply the table of leap seconds.
#![tactic(auto)]

ghost use Rattle.std.specs.Prelude.{◌≡◌, ◌++◌, ◌+◌, ◌*◌, ◌/◌, ◌^◌, ◌≤◌, length};
ghost use Rattle.base.specs.Outcome.{and_then, given};
ghost use Rattle.scale.specs.Time.{per_second};
ghost use Rattle.octets.specs.Places.{bcd};
ghost use Rattle.octets.specs.Writes.{roomed, Wrote};
ghost use Rattle.ccs.specs.Ccs.{is_layout, width, day_at, clock_at, field, date_text, clock_text, bytes_of};
ghost use Rattle.base.specs.Said.{said};

use base::Refusal;
use moment::Moment;

// How a T-field is laid out: by the day of the year or by month and day, a flag as bit 4 of the P octet is one, and its extra
// segments, 0 to 6.
#[derive(Clone, Copy, Debug, PartialEq, Eq)]
pub struct Layout {
    pub ordinal: bool,
    pub segments: usize,
}

impl Layout {
    // Whether there is such a layout.
    fn valid(self) -> bool
        ensures { result ≡ is_layout self }
    {
        self.segments <= 6
    }

    // The ticks that the last digit of its fraction counts.
    fn unit(self) -> u64
        requires { self.segments ≤ 6 }
        ensures { result ≡ per_second / 10 ^ (self.segments * 2) }
    {
        moment::decimal_unit(self.segments * 2)
    }
}

// How many octets a T-field has; 0 for a layout that there is not (and no Option: a public function that can not fail may
// not begin to).
#[tactic(auto, unfolding(crate::specs::Ccs::width))]
pub fn size(l: Layout) -> usize
    ensures { result ≡ width l }
{
    if l.valid() { 7 + l.segments } else { 0 }
}

// Reads the T-field that starts at `at`.
#[tactic(auto, using(crate::proofs::Rungs::width_is, crate::proofs::Parts::ticks_below), unfolding(crate::specs::Ccs::field))]
pub fn read(s: &[u8], at: usize, l: Layout) -> Result<Moment, Refusal>
    ensures { said result ≡ field s.now at l }
{
    if !l.valid() {
        return Err(Refusal::Unsupported);
    }
    if !octets::fits(s.len(), at, size(l)) {
        return Err(Refusal::Short);
    }
    let day = day_at(s, at, l.ordinal)?;
    let second = clock_at(s, at + 4)?;
    let part = octets::bcd(s, at + 7, l.segments)?;
    Ok(Moment {
        day,
        second,
        ticks: part * l.unit(),
    })
}

// The day that the four octets at `at` name.
#[tactic(auto, using(crate::proofs::Wholes::day_whole))]
fn day_at(s: &[u8], at: usize, ordinal: bool) -> Result<i64, Refusal>
    requires { at + 4 ≤ length s.now }
    ensures { said result ≡ day_at ordinal s.now at }
{
    let n = octets::bcd(s, at, 4)?;
    let year = n / 10000;
    if ordinal {
        calendar::day_of_ordinal(year, n % 10000)
    } else {
        calendar::day_of_date(year, n / 100 % 100, n % 100)
    }
}

// The second of the day that the three octets at `at` name.
#[tactic(auto, using(crate::proofs::Wholes::clock_whole))]
fn clock_at(s: &[u8], at: usize) -> Result<u64, Refusal>
    requires { at + 3 ≤ length s.now }
    ensures { said result ≡ clock_at s.now at }
{
    let n = octets::bcd(s, at, 3)?;
    clock::second_of_day(n / 10000, n / 100 % 100, n % 100)
}

// Writes a moment as a T-field from `at` on, or a refusal leaves all.
#[tactic(auto, using(crate::proofs::Parts::some_ticks, moment::proofs::Laws::moment_parts), unfolding(crate::specs::Ccs::bytes_of))]
pub fn write(m: Moment, l: Layout, out: &mut [u8], at: usize) -> Result<usize, Refusal>
    ensures { Wrote (and_then (bytes_of l m) (roomed out.old at)) at out.old out.new result }
{
    if !l.valid() {
        return Err(Refusal::Unsupported);
    }
    if !m.valid() {
        return Err(Refusal::Range);
    }
    let date = date_digits(l.ordinal, m.day)?;
    store(out, at, l, date, clock_digits(m.second), m.ticks / l.unit())
}

// Stores a T-field's digits where there is room. The fraction's division begins in the caller, before the other digits
// are stored, which is faster.
fn store(
    out: &mut [u8],
    at: usize,
    l: Layout,
    date: u64,
    clock: u64,
    part: u64,
) -> Result<usize, Refusal>
    requires { l.segments ≤ 6 }
    ensures { Wrote (roomed out.old at (bcd 4 date ++ (bcd 3 clock ++ bcd l.segments part))) at out.old out.new result }
{
    if !octets::fits(out.len(), at, size(l)) {
        return Err(Refusal::Room);
    }
    octets::put_bcd(out, at, 4, date);
    octets::put_bcd(out, at + 4, 3, clock);
    octets::put_bcd(out, at + 7, l.segments, part);
    Ok(at + size(l))
}

// The eight digits of a day's year and date.
#[tactic(auto, using(crate::proofs::Turns::fields), unfolding(crate::specs::Ccs::date_text))]
fn date_digits(ordinal: bool, day: i64) -> Result<u64, Refusal>
    ensures { given (bcd 4) (said result) ≡ date_text ordinal day }
{
    if ordinal {
        let o = calendar::ordinal_of_day(day)?;
        Ok(o.year * 10000 + o.day)
    } else {
        let t = calendar::date_of_day(day)?;
        Ok(t.year * 10000 + t.month * 100 + t.day)
    }
}

// The six digits of a second of a day.
#[tactic(auto, using(crate::proofs::Wholes::clock_text_lem))]
fn clock_digits(second: u64) -> u64
    requires { second ≤ 86400 }
    ensures { bcd 3 result ≡ clock_text second }
{
    let minute = clock::minute_of(second);
    minute / 60 * 10000 + minute % 60 * 100 + (second - minute * 60)
}
