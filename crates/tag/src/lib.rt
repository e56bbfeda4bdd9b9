// Shortened ASCII tags, read to the fields that they want; in the module fields, where a bad one begins.
#![tactic(auto)]

pub mod fields;

ghost use Rattle.std.specs.Prelude.{◌≡◌, true, ◌++◌, ◌≤◌, length};
ghost use Rattle.shape.specs.Shapes.{kind_of, fits};
ghost use Rattle.tag.specs.Forms.{at, days, months, hours, minutes, find};
ghost use Rattle.tag.specs.Tags.{want_at, calendar_as, clock_as, until, fraction_as, unzoned, time_in, alone, joined, formed, good_day, good_clock, want_of};
ghost use Rattle.tag.specs.Inner.{place_as, form_as, forms_as, found, are_times, Digits, HasCalendar, HasClock, says_time};
ghost use Rattle.base.specs.Said.{said};

use base::Refusal;
use seek::{Calendar, Clock, Want, Wants};

// Where a field is: it was dropped on the left or on the right, or its digits begin at a place of the text.
#[derive(Clone, Copy)]
enum Place {
    Free,
    Lowest,
    At(u8),
}

use Place::{At, Free, Lowest};

// A shape, where 0 stands for any digit, and its fields: year, month, day and day of the year, or hour, minute and
// second.
#[derive(Clone, Copy)]
struct Form(&'static [u8], Place, Place, Place, Place);

// The permitted calendars: first those that reach their day, and then the others.
static CALENDARS: [Form; 8] = [
    Form(b"0000-00-00", At(0), At(5), At(8), Free),
    Form(b"-00-00", Free, At(1), At(4), Free),
    Form(b"--00", Free, Free, At(2), Free),
    Form(b"0000-000", At(0), Free, Free, At(5)),
    Form(b"-000", Free, Free, Free, At(1)),
    Form(b"0000-00", At(0), At(5), Lowest, Free),
    Form(b"-00", Free, At(1), Lowest, Free),
    Form(b"0000", At(0), Lowest, Lowest, Free),
];

// The permitted times without fraction and Z: first those from the hour on, and then those from later on.
static TIMES: [Form; 7] = [
    Form(b"00", At(0), Lowest, Lowest, Free),
    Form(b"00:00", At(0), At(3), Lowest, Free),
    Form(b"00:00:00", At(0), At(3), At(6), Free),
    Form(b":00", Free, At(1), Lowest, Free),
    Form(b":00:00", Free, At(1), At(4), Free),
    Form(b"::00", Free, Free, At(2), Free),
    Form(b"::", Free, Free, Free, Free),
];

fn all_calendars() -> &'static [Form]
    ensures { forms_as result.now ≡ days ++ months }
{
    &CALENDARS
}

// The calendars that reach their day.
fn days() -> &'static [Form]
    ensures { forms_as result.now ≡ days }
{
    &CALENDARS[..5]
}

fn all_times() -> &'static [Form]
    ensures { forms_as result.now ≡ hours ++ minutes }
{
    &TIMES
}

// The times from the hour on.
fn hours() -> &'static [Form]
    ensures { forms_as result.now ≡ hours }
{
    &TIMES[..3]
}

// Reads a tag, which is the whole slice.
#[tactic(auto, using(crate::proofs::Ladder::tag_empty, crate::proofs::Ladder::tag_unformed, crate::proofs::Ladder::tag_no_day, crate::proofs::Ladder::tag_no_clock, crate::proofs::Ladder::tag_done))]
pub fn read(s: &[u8]) -> Result<Wants, Refusal>
    ensures { said result ≡ want_of s.now }
{
    if s.is_empty() {
        return Err(Refusal::Short);
    }
    let wants = formed(s)?;
    if good_day(wants.calendar) && good_clock(wants.clock) {
        return Ok(wants);
    }
    Err(Refusal::Field)
}

// The fields of a text of permitted form: a calendar and a time where T stands, and else one of the two.
#[tactic(auto, using(crate::proofs::Ladder::formed_parts, crate::proofs::Ladder::formed_alone))]
fn formed(s: &[u8]) -> Result<Wants, Refusal>
    ensures { said result ≡ formed s.now }
{
    let t = until(s, b'T');
    if t < s.len() {
        return joined(&s[..t], &s[t + 1..]);
    }
    alone(s)
}

// A calendar that reaches its day, and a time from the hour on.
#[tactic(auto, using(crate::proofs::Ladder::joined_none, crate::proofs::Ladder::joined_bad, crate::proofs::Ladder::joined_done, crate::proofs::Rows::has_day, crate::proofs::Rows::hours_stand))]
fn joined(c: &[u8], k: &[u8]) -> Result<Wants, Refusal>
    ensures { said result ≡ joined c.now k.now }
{
    let form = form_of(days(), c).ok_or(Refusal::Field)?;
    let Time { clock, ticks } = time_in(k, hours())?;
    Ok(Wants {
        calendar: form.calendar(c),
        clock,
        ticks,
    })
}

// A calendar at midnight, or a time on any day.
#[tactic(auto, using(crate::proofs::Ladder::alone_day, crate::proofs::Ladder::alone_bad, crate::proofs::Ladder::alone_time, crate::proofs::Rows::has_calendar, crate::proofs::Rows::times_stand))]
fn alone(s: &[u8]) -> Result<Wants, Refusal>
    ensures { said result ≡ alone s.now }
{
    if let Some(form) = form_of(all_calendars(), s) {
        return Ok(Wants {
            calendar: form.calendar(s),
            clock: MIDNIGHT,
            ticks: 0,
        });
    }
    let Time { clock, ticks } = time_in(s, all_times())?;
    Ok(Wants {
        calendar: ANY_DAY,
        clock,
        ticks,
    })
}

const MIDNIGHT: Clock = Clock {
    hour: Some(0),
    minute: Some(0),
    second: Some(0),
};

const ANY_DAY: Calendar = Calendar {
    year: None,
    month: None,
    day: None,
    ordinal: None,
};

// A clock and a tick count.
#[derive(Clone, Copy)]
struct Time {
    clock: Clock,
    ticks: u64,
}

// A time of one of the forms, with Z or without it. That they are forms of times stays a `requires` of four functions: a type
// with it would hold the slice that each of them takes, and no more.
#[tactic(auto, using(crate::proofs::Times::time_behind, crate::proofs::Times::time_whole))]
fn time_in(s: &[u8], forms: &[Form]) -> Result<Time, Refusal>
    requires { are_times (forms_as forms.now) ≡ true }
    ensures { says_time result ≡ time_in (forms_as forms.now) s.now }
{
    let z = until(s, b'Z');
    if 1 < s.len() - z {
        return Err(Refusal::Field);
    }
    unzoned(&s[..z], forms)
}

// The same without Z: a form, and what follows it from its period on.
#[tactic(auto, using(crate::proofs::Times::unzoned_none, crate::proofs::Times::unzoned_bad, crate::proofs::Times::unzoned_done, crate::proofs::Rows::has_clock))]
fn unzoned(s: &[u8], forms: &[Form]) -> Result<Time, Refusal>
    requires { are_times (forms_as forms.now) ≡ true }
    ensures { says_time result ≡ unzoned (forms_as forms.now) s.now }
{
    let (head, rest) = s.split_at(until(s, b'.'));
    let form = form_of(forms, head).ok_or(Refusal::Field)?;
    let Form(.., second, _) = form;
    let ticks = second.fraction(rest)?;
    Ok(Time {
        clock: form.clock(head),
        ticks,
    })
}

// The ticks of nothing, or of a period and 1 to 12 digits.
#[tactic(auto, using(crate::proofs::Times::part_ok, crate::proofs::Times::part_lt))]
fn ticks(s: &[u8]) -> Result<u64, Refusal>
    ensures { said result ≡ fraction_as (at 0) s.now }
{
    if s.is_empty() {
        return Ok(0);
    }
    let d = s.len() - 1;
    if !(1..=12).contains(&d) {
        return Err(Refusal::Field);
    }
    let n = octets::decimal(s, 1, d)?;
    Ok(n * moment::decimal_unit(d))
}

// Where a character first stands, or the length, up to which the whole text stands.
fn until(s: &[u8], c: u8) -> usize
    ensures { (result ≡ until c s.now) × (result ≤ length s.now) }
{
    s.iter().position(|&b| b == c).unwrap_or(s.len())
}

impl Place {
    // What is wanted of a field of w digits whose lowest value is `low`.
    #[tactic(auto, using(crate::proofs::Times::number_there, crate::proofs::Times::number_done))]
    fn want(self, s: &[u8], w: usize, low: u64) -> Want
        requires { (w ≤ 4) × Digits s.now w (place_as self) }
        ensures { result ≡ want_at s.now w low (place_as self) }
    {
        match self {
            Free => None,
            Lowest => Some(low),
            At(at) => Some(octets::decimal(s, usize::from(at), w).unwrap()),
        }
    }

    // The ticks of what follows a time whose second is here: nothing, but something after "::"; or a period and digits,
    // but not after hh or mm.
    #[tactic(auto, using(crate::proofs::Times::part_missing, crate::proofs::Times::part_behind, crate::proofs::Times::part_free, crate::proofs::Times::part_lowest, crate::proofs::Times::part_at))]
    fn fraction(self, s: &[u8]) -> Result<u64, Refusal>
        ensures { said result ≡ fraction_as (place_as self) s.now }
    {
        match self {
            Free if s.is_empty() => Err(Refusal::Field),
            Lowest if !s.is_empty() => Err(Refusal::Field),
            _ => ticks(s),
        }
    }
}

impl Form {
    // Whether a text has the shape.
    fn fits(self, s: &[u8]) -> bool
        ensures { result ≡ fits self.0.now s.now }
    {
        let Form(shape, ..) = self;
        shape.len() == s.len() && shape.iter().zip(s).all(|(&p, &b)| p == kind(b))
    }

    // The date fields of a text of a calendar.
    #[tactic(auto, unfolding(crate::specs::Tags::calendar_as))]
    fn calendar(self, s: &[u8]) -> Calendar
        requires { HasCalendar s.now (form_as self) }
        ensures { result ≡ calendar_as s.now (form_as self) }
    {
        let Form(_, year, month, day, ordinal) = self;
        Calendar {
            year: year.want(s, 4, 1),
            month: month.want(s, 2, 1),
            day: day.want(s, 2, 1),
            ordinal: ordinal.want(s, 3, 1),
        }
    }

    // The clock fields of a text of a time.
    #[tactic(auto, unfolding(crate::specs::Tags::clock_as))]
    fn clock(self, s: &[u8]) -> Clock
        requires { HasClock s.now (form_as self) }
        ensures { result ≡ clock_as s.now (form_as self) }
    {
        let Form(_, hour, minute, second, _) = self;
        Clock {
            hour: hour.want(s, 2, 0),
            minute: minute.want(s, 2, 0),
            second: second.want(s, 2, 0),
        }
    }
}

// The first of the forms that a text has the shape of.
fn form_of(forms: &[Form], s: &[u8]) -> Option<Form>
    ensures { found result ≡ find (forms_as forms.now) s.now }
{
    forms.iter().find(|form| form.fits(s)).copied()
}

// What stands for b in a shape.
fn kind(b: u8) -> u8
    ensures { result ≡ kind_of b }
{
    if b.is_ascii_digit() { b'0' } else { b }
}

// What free fields count as: with a leap year and with a month of 31 days every day stands that some year or some month
// has.
const LEAP_YEAR: u64 = 2000;

const JANUARY: u64 = 1;

// Before midnight second 60 may come.
const LAST_HOUR: u64 = 23;

const LAST_MINUTE: u64 = 59;

// Whether some date has the wanted fields.
#[tactic(auto, unfolding(crate::specs::Tags::good_day))]
fn good_day(c: Calendar) -> bool
    ensures { result ≡ good_day c }
{
    let year = c.year.unwrap_or(LEAP_YEAR);
    match c.ordinal {
        Some(day) => calendar::is_ordinal(year, day),
        None => calendar::is_date(year, c.month.unwrap_or(JANUARY), c.day.unwrap_or(1)),
    }
}

// Whether some clock has the wanted fields.
#[tactic(auto, unfolding(crate::specs::Tags::good_clock))]
fn good_clock(k: Clock) -> bool
    ensures { result ≡ good_clock k }
{
    clock::is_clock(
        k.hour.unwrap_or(LAST_HOUR),
        k.minute.unwrap_or(LAST_MINUTE),
        k.second.unwrap_or(0),
    )
}
