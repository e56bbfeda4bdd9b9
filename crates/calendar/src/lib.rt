// The Gregorian calendar, years 1 to 9999: dates, days of the year and day numbers.
// A day is counted by its index, from 0001-01-01 on, or by its day number, from 1958-01-01 on.
#![tactic(auto)]

ghost use Rattle.std.specs.Prelude.{◌≡◌, true, ◌≤◌, ◌<◌, get_or};
ghost use Rattle.base.specs.Outcome.{done};
ghost use Rattle.calendar.specs.Gregorian.{
  is_leap,
  kind,
  year_length,
  year_start,
  years_to,
  row,
  up_to,
  month_length,
  is_year,
  is_date,
  is_ordinal,
  day_index,
  ordinal_on,
  date_in,
  index_of_date,
  index_of_ordinal,
  ordinal_at,
  date_at,
  from_epoch,
  index_of_day,
  day_of_date,
  day_of_ordinal,
  date_of_day,
  ordinal_of_day,
};
ghost use Rattle.base.specs.Said.{said, says};

use base::Refusal;

// A day by year, month (1 to 12) and day of the month.
#[derive(Clone, Copy, Debug, PartialEq, Eq)]
pub struct Date {
    pub year: u64,
    pub month: u64,
    pub day: u64,
}

// A day by year and day of the year (1 for 1 January).
#[derive(Clone, Copy, Debug, PartialEq, Eq)]
pub struct Ordinal {
    pub year: u64,
    pub day: u64,
}

// A day that the calendar has, by its index.
#[derive(Clone, Copy)]
struct DayIndex {
    index: u64,
    ghost in_calendar: { index ≤ 3652058 },
}

// What `lowered` takes off too much of an index: 2^63 less the 714,779 days before 1958-01-01.
pub const DAY_BIAS: u64 = 9223372036854061029;

const FIRST_DAY: i64 = -714779;

const LAST_DAY: i64 = 2937279;

const LAST_INDEX: u64 = 3652058;

const LAST_YEAR: u64 = 9999;

// The month lengths of ordinary years, and of leap years.
const MONTHS: [[u8; 12]; 2] = [
    [31, 28, 31, 30, 31, 30, 31, 31, 30, 31, 30, 31],
    [31, 29, 31, 30, 31, 30, 31, 31, 30, 31, 30, 31],
];

// The day number of a date.
pub fn day_of_date(year: u64, month: u64, day: u64) -> Result<i64, Refusal>
    ensures { said result ≡ day_of_date year month day }
{
    Ok(DayIndex::of_date(Date { year, month, day })?.number())
}

// The day number of a day of a year.
pub fn day_of_ordinal(year: u64, day: u64) -> Result<i64, Refusal>
    ensures { said result ≡ day_of_ordinal year day }
{
    Ok(DayIndex::of_ordinal(Ordinal { year, day })?.number())
}

// The date with a day number.
pub fn date_of_day(number: i64) -> Result<Date, Refusal>
    ensures { said result ≡ date_of_day number }
{
    date_at(index_of_day(number)?)
}

// The year and day of the year with a day number.
pub fn ordinal_of_day(number: i64) -> Result<Ordinal, Refusal>
    ensures { said result ≡ ordinal_of_day number }
{
    ordinal_at(index_of_day(number)?)
}

// The index of a date.
pub fn index_of_date(year: u64, month: u64, day: u64) -> Result<u64, Refusal>
    ensures { said result ≡ index_of_date year month day }
{
    Ok(DayIndex::of_date(Date { year, month, day })?.index)
}

// The index of a day of a year.
pub fn index_of_ordinal(year: u64, day: u64) -> Result<u64, Refusal>
    ensures { said result ≡ index_of_ordinal year day }
{
    Ok(DayIndex::of_ordinal(Ordinal { year, day })?.index)
}

// The index with a day number.
#[tactic(auto, using(base::proofs::Signed::back, crate::proofs::Numbers::seat_said))]
pub fn index_of_day(number: i64) -> Result<u64, Refusal>
    ensures { said result ≡ index_of_day number }
{
    base::seated(FIRST_DAY, LAST_DAY, number).ok_or(Refusal::Range)
}

// The date with an index.
#[tactic(auto, using(crate::proofs::Promises::good_at))]
pub fn date_at(index: u64) -> Result<Date, Refusal>
    ensures { said result ≡ date_at index }
{
    Ok(date_in(ordinal_at(index)?))
}

// The year and day of the year with an index.
#[tactic(auto, unfolding(crate::specs::Gregorian::ordinal_at))]
pub fn ordinal_at(index: u64) -> Result<Ordinal, Refusal>
    ensures { said result ≡ ordinal_at index }
{
    if index <= LAST_INDEX {
        Ok(DayIndex { index }.ordinal())
    } else {
        Err(Refusal::Range)
    }
}

// Whether the calendar has a date.
#[tactic(auto, unfolding(crate::specs::Gregorian::is_date))]
pub fn is_date(year: u64, month: u64, day: u64) -> bool
    ensures { result ≡ is_date year month day }
{
    is_year(year) && (1..=month_length(year, month)).contains(&day)
}

// Whether the calendar has a day of a year.
#[tactic(auto, unfolding(crate::specs::Gregorian::is_ordinal))]
pub fn is_ordinal(year: u64, day: u64) -> bool
    ensures { result ≡ is_ordinal year day }
{
    is_year(year) && (1..=year_length(year)).contains(&day)
}

fn is_year(year: u64) -> bool
    ensures { result ≡ is_year year }
{
    (1..=LAST_YEAR).contains(&year)
}

// `&` and `|`, not `&&` and `||`: a branch on the year is often mispredicted.
fn is_leap(year: u64) -> bool
    ensures { result ≡ is_leap year }
{
    (year % 4 == 0) & ((year % 100 != 0) | (year % 400 == 0))
}

#[tactic(auto, using(crate::proofs::Years::kind_byte))]
fn year_length(year: u64) -> u64
    ensures { result ≡ year_length year }
{
    365 + is_leap(year) as u64
}

// The days of the first n years.
#[tactic(auto, unfolding(crate::specs::Gregorian::year_start))]
fn year_start(n: u64) -> u64
    requires { n ≤ 10000 }
    ensures { result ≡ year_start n }
{
    365 * n + n / 4 + n / 400 - n / 100
}

// The lengths of a year's months.
#[tactic(auto, using(crate::proofs::Years::kind_byte), unfolding(crate::specs::Gregorian::row))]
fn months_of(year: u64) -> [u8; 12]
    ensures { result ≡ row (kind year) }
{
    MONTHS[is_leap(year) as usize]
}

// The length of the month with i months before it, read in the table: a row by value is laid out anew at each use.
#[tactic(auto, using(crate::proofs::Years::kind_byte), unfolding(crate::specs::Gregorian::row))]
fn length_at(year: u64, i: usize) -> u64
    requires { i < 12 }
    ensures { result ≡ get_or (row (kind year)) i 0 }
{
    MONTHS[is_leap(year) as usize][i] as u64
}

// The length of a month, or 0 for no month, of which no day is: 1 to 0 is no range, so that no Option is asked.
#[tactic(auto, unfolding(crate::specs::Gregorian::month_length))]
fn month_length(year: u64, month: u64) -> u64
    ensures { result ≡ month_length year month }
{
    if (1..=12).contains(&month) {
        length_at(year, (month - 1) as usize)
    } else {
        0
    }
}

// The days of the first n months. All twelve are gone through, as the end of a loop up to n is mispredicted.
#[tactic(auto, using(crate::proofs::Rows::turn, crate::proofs::Rows::up_to_all))]
fn days_before(months: [u8; 12], n: usize) -> u64
    ensures { result ≡ up_to months n }
{
    let mut days = 0;
    for (i, &length) in months.iter().enumerate() {
        days += length as u64 * (i < n) as u64;
    }
    days
}

// The date of a day of a year: the month with (day - 1) / 32 months before it holds the day, or the next one does.
#[tactic(auto, using(crate::proofs::Dates::good_ordinal, crate::proofs::Dates::begun, crate::proofs::Dates::dated))]
fn date_in(o: Ordinal) -> Date
    requires { is_ordinal o.year o.day ≡ true }
    ensures { result ≡ date_in o }
{
    let m = ((o.day - 1) / 32) as usize;
    let left = o.day - days_before(months_of(o.year), m);
    let length = length_at(o.year, m);
    let past = (length < left) as u64;
    Date {
        year: o.year,
        month: m as u64 + 1 + past,
        day: left - length * past,
    }
}

impl DayIndex {
    #[tactic(auto, using(crate::proofs::Dates::good_date, crate::proofs::Dates::date_passed, crate::proofs::Dates::passed_fits, crate::proofs::Promises::index_of_good), unfolding(crate::specs::Gregorian::index_of_date))]
    fn of_date(date: Date) -> Result<Self, Refusal>
        ensures { says (λ d. d.index) result ≡ index_of_date date.year date.month date.day }
    {
        let Date { year, month, day } = date;
        if !is_date(year, month, day) {
            return Err(Refusal::Field);
        }
        let passed = days_before(months_of(year), (month - 1) as usize);
        Ok(Self::in_year(Ordinal {
            year,
            day: passed + day,
        }))
    }

    #[tactic(auto, unfolding(crate::specs::Gregorian::index_of_ordinal))]
    fn of_ordinal(o: Ordinal) -> Result<Self, Refusal>
        ensures { says (λ d. d.index) result ≡ index_of_ordinal o.year o.day }
    {
        if is_ordinal(o.year, o.day) {
            Ok(Self::in_year(o))
        } else {
            Err(Refusal::Field)
        }
    }

    // A day of a year that has it.
    #[tactic(auto, using(crate::proofs::Dates::good_ordinal, crate::proofs::Dates::index_le), unfolding(crate::specs::Gregorian::day_index))]
    fn in_year(o: Ordinal) -> Self
        requires { is_ordinal o.year o.day ≡ true }
        ensures { result.index ≡ day_index o.year o.day }
    {
        Self {
            index: year_start(o.year - 1) + (o.day - 1),
        }
    }

    // The whole years before the day: an estimate by the mean length of a year is right or one too low.
    #[tactic(auto, unfolding(crate::specs::Gregorian::years_to))]
    fn years_to(self) -> u64
        ensures { result ≡ years_to self.index }
    {
        let y = self.index * 400 / 146097;
        if year_start(y + 1) <= self.index {
            y + 1
        } else {
            y
        }
    }

    #[tactic(auto, using(crate::proofs::Years::years_hold, crate::proofs::Dates::years_lt), unfolding(crate::specs::Gregorian::ordinal_on))]
    fn ordinal(self) -> Ordinal
        ensures { result ≡ ordinal_on self.index }
    {
        let y = self.years_to();
        Ordinal {
            year: y + 1,
            day: self.index - year_start(y) + 1,
        }
    }

    // The day number.
    fn number(self) -> i64
        ensures { result ≡ from_epoch self.index }
    {
        base::lowered(self.index + DAY_BIAS)
    }
}
