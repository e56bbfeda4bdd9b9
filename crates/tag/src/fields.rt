// Where the first field of a tag that breaks its rule begins.
ghost use Rattle.std.specs.Prelude.{◌≡◌, true, ◌+◌, length};
ghost use Rattle.field.specs.Fields.{first_bad};
ghost use Rattle.tag.specs.Fields.{fields_of, joint_fields, alone_fields, calendar_fields, time_fields, head_fields, clock_fields};
ghost use Rattle.tag.specs.Inner.{place_as, form_as, forms_as, are_times, HasCalendar, HasClock, Begins, Begin};

use super::{
    Form, JANUARY, LAST_HOUR, LAST_MINUTE, LEAP_YEAR, Place, all_calendars, all_times, days,
    form_of, hours, until,
};
use field::Starts;

// In a text that has no permitted form there is none.
#[tactic(auto, using(crate::proofs::Standing::fields_parts, crate::proofs::Standing::fields_alone))]
pub fn bad_field(s: &[u8]) -> Option<usize>
    ensures { result ≡ first_bad (fields_of s.now) }
{
    let t = until(s, b'T');
    if t < s.len() {
        return in_joined(&s[..t], &s[t + 1..]);
    }
    in_alone(s)
}

// In a calendar, or else in the time behind its T.
#[tactic(auto, using(crate::proofs::Standing::joint_none, crate::proofs::Standing::joint_day, crate::proofs::Standing::joint_good, crate::proofs::Standing::joint_time, crate::proofs::Standing::time_low, crate::proofs::Rows::has_day, crate::proofs::Rows::hours_stand))]
fn in_joined(c: &[u8], k: &[u8]) -> Option<usize>
    ensures { result ≡ first_bad (joint_fields (length c.now + 1) c.now k.now) }
{
    let form = form_of(days(), c)?;
    if let Some(place) = in_calendar(c, form) {
        return Some(place);
    }
    let place = in_time(k, hours())?;
    Some(c.len() + 1 + place)
}

// In a calendar, or in a time.
#[tactic(auto, using(crate::proofs::Standing::alone_calendar, crate::proofs::Standing::alone_time, crate::proofs::Rows::has_calendar, crate::proofs::Rows::times_stand))]
fn in_alone(s: &[u8]) -> Option<usize>
    ensures { result ≡ first_bad (alone_fields s.now) }
{
    match form_of(all_calendars(), s) {
        Some(form) => in_calendar(s, form),
        None => in_time(s, all_times()),
    }
}

// In a calendar of a form.
#[tactic(auto, using(crate::proofs::Standing::date_told, crate::proofs::Standing::ordinal_told))]
fn in_calendar(s: &[u8], form: Form) -> Option<usize>
    requires { HasCalendar s.now (form_as form) }
    ensures { result ≡ first_bad (calendar_fields s.now (form_as form)) }
{
    let c = form.calendar(s);
    let year = c.year.unwrap_or(LEAP_YEAR);
    match c.ordinal {
        Some(day) => {
            let Form(_, first, _, _, fourth) = form;
            let at = Starts {
                first: first.start(),
                second: fourth.start(),
                third: 0,
            };
            field::in_ordinal(at, year, day)
        }
        None => field::in_date(
            form.starts(),
            year,
            c.month.unwrap_or(JANUARY),
            c.day.unwrap_or(1),
        ),
    }
}

// In a time of one of the forms, up to its period or Z.
#[tactic(auto, using(crate::proofs::Standing::time_head))]
fn in_time(s: &[u8], forms: &[Form]) -> Option<usize>
    requires { are_times (forms_as forms.now) ≡ true }
    ensures { result ≡ first_bad (time_fields (forms_as forms.now) 0 s.now) }
{
    in_head(&s[..until(s, b'Z')], forms)
}

// The same without Z and a fraction.
#[tactic(auto, using(crate::proofs::Standing::head_none, crate::proofs::Standing::head_form, crate::proofs::Rows::has_clock))]
fn in_head(s: &[u8], forms: &[Form]) -> Option<usize>
    requires { are_times (forms_as forms.now) ≡ true }
    ensures { result ≡ first_bad (head_fields (forms_as forms.now) 0 s.now) }
{
    let head = &s[..until(s, b'.')];
    in_clock(head, form_of(forms, head)?)
}

// In a time of a form.
#[tactic(auto, using(crate::proofs::Standing::clock_told_lem))]
fn in_clock(s: &[u8], form: Form) -> Option<usize>
    requires { HasClock s.now (form_as form) }
    ensures { result ≡ first_bad (clock_fields 0 s.now (form_as form)) }
{
    let k = form.clock(s);
    field::in_clock(
        form.starts(),
        k.hour.unwrap_or(LAST_HOUR),
        k.minute.unwrap_or(LAST_MINUTE),
        k.second.unwrap_or(0),
    )
}

impl Place {
    // Where the field begins; what is said of one that was dropped does not matter.
    fn start(self) -> usize
        ensures { Begins result (place_as self) }
    {
        match self {
            Place::At(at) => usize::from(at),
            _ => 0,
        }
    }
}

impl Form {
    // Where the first three fields begin.
    fn starts(self) -> Starts
        ensures { Begin (form_as self) result }
    {
        let Form(_, first, second, third, _) = self;
        Starts {
            first: first.start(),
            second: second.start(),
            third: third.start(),
        }
    }
}
