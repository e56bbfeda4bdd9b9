// Dates, days of the year and day numbers.
ghost use Rattle.std.specs.Prelude.{◌≡◌};
ghost use Rattle.base.specs.Outcome.{status, cell};
ghost use Rattle.calendar.specs.Gregorian.{day_of_date, day_of_ordinal, date_of_day, ordinal_of_day};
ghost use Rattle.honigzange.specs.Cells.{itself, year_of, month_of, day_of, ordinal_year, ordinal_day};

use crate::value_of;

// The day number of a date.
#[unsafe(no_mangle)]
pub extern "C" fn hz_day_of_date(year: u64, month: u64, day: u64, number: &mut i64) -> u8
    ensures answer { result ≡ status (day_of_date year month day) }
    ensures day { number.new ≡ cell itself (day_of_date year month day) number.old }
{
    *number = value_of!(calendar::day_of_date(year, month, day));
    0
}

// The date of a day number.
#[unsafe(no_mangle)]
pub extern "C" fn hz_date_of_day(number: i64, year: &mut u64, month: &mut u64, day: &mut u64) -> u8
    ensures answer { result ≡ status (date_of_day number) }
    ensures years { year.new ≡ cell year_of (date_of_day number) year.old }
    ensures months { month.new ≡ cell month_of (date_of_day number) month.old }
    ensures days { day.new ≡ cell day_of (date_of_day number) day.old }
{
    let date = value_of!(calendar::date_of_day(number));
    *year = date.year;
    *month = date.month;
    *day = date.day;
    0
}

// The day number of a day of a year.
#[unsafe(no_mangle)]
pub extern "C" fn hz_day_of_ordinal(year: u64, day: u64, number: &mut i64) -> u8
    ensures answer { result ≡ status (day_of_ordinal year day) }
    ensures day { number.new ≡ cell itself (day_of_ordinal year day) number.old }
{
    *number = value_of!(calendar::day_of_ordinal(year, day));
    0
}

// The year and the day of the year of a day number.
#[unsafe(no_mangle)]
pub extern "C" fn hz_ordinal_of_day(number: i64, year: &mut u64, day: &mut u64) -> u8
    ensures answer { result ≡ status (ordinal_of_day number) }
    ensures years { year.new ≡ cell ordinal_year (ordinal_of_day number) year.old }
    ensures days { day.new ≡ cell ordinal_day (ordinal_of_day number) day.old }
{
    let ordinal = value_of!(calendar::ordinal_of_day(number));
    *year = ordinal.year;
    *day = ordinal.day;
    0
}
