// ASCII time codes A and B: how they are laid out, and how they are read, bytes to a moment of UTC. No table is asked.
#![tactic(auto)]

ghost use Rattle.std.specs.Prelude.{◌≡◌, ◌+◌, ◌≤◌, length};
ghost use Rattle.base.specs.Outcome.{done, need, given};
ghost use Rattle.calendar.specs.Gregorian.{from_epoch};
ghost use Rattle.moment.specs.Decimal.{ticks_of};
ghost use Rattle.ascii.specs.Ascii.{
  is_layout,
  front_of,
  part_size,
  bit,
  width,
  layout_of,
  number_at,
  day_at,
  clock_at,
  fields_of,
  text,
};
ghost use Rattle.ascii.specs.Inner.{
  figures_at,
  date_figures,
  clock_figures,
  figures,
  separators,
};
ghost use Rattle.base.specs.Said.{said};

use base::Refusal;
use moment::Moment;
use scale::Record;

// How a code is laid out: form B, with the day of the year, or form A, with month and day; so many digits of
// fraction; with Z. Flags, as the C interface has them.
#[derive(Clone, Copy, Debug, PartialEq, Eq)]
pub struct Layout {
    pub ordinal: bool,
    pub digits: usize,
    pub zone: bool,
}

impl Layout {
    // The length of a code without fraction and Z.
    fn front(self) -> usize
        ensures { (result ≡ front_of self.ordinal) × (17 ≤ result) × (result ≤ 19) }
    {
        if self.ordinal { 17 } else { 19 }
    }

    // The length of a fraction with its period.
    fn part_size(self) -> usize
        requires { self.digits ≤ 12 }
        ensures { (result ≡ part_size self.digits) × (result ≤ 13) }
    {
        if self.digits == 0 { 0 } else { self.digits + 1 }
    }
}

// Whether a layout is one.
pub fn is_layout(l: Layout) -> bool
    ensures { result ≡ is_layout l }
{
    l.digits <= 12
}

// The length of a code, or 0 where the layout is none (and no Option: a public function that can not fail may not begin to).
#[tactic(auto, unfolding(crate::specs::Ascii::width))]
pub fn size(l: Layout) -> usize
    ensures { result ≡ width l }
{
    if is_layout(l) {
        l.front() + l.part_size() + usize::from(l.zone)
    } else {
        0
    }
}

// Reads a code, which is the whole slice.
#[tactic(auto, using(crate::proofs::Ladder::text_told, crate::proofs::Sizes::width_few))]
pub fn read(s: &[u8]) -> Result<Moment, Refusal>
    ensures { said result ≡ text s.now }
{
    let len = s.len();
    if len == 0 {
        return Err(Refusal::Short);
    }
    if len < 17 {
        return Err(Refusal::Field);
    }
    let l = layout_of(s);
    if size(l) != len || !separated(s, l) {
        return Err(Refusal::Field);
    }
    fields(s, l)
}

// The layout that a text has if its shape is right.
#[tactic(auto, unfolding(crate::specs::Ascii::layout_of, crate::specs::Ascii::width))]
fn layout_of(s: &[u8]) -> Layout
    requires { 17 ≤ length s.now }
    ensures { result ≡ layout_of s.now }
{
    let len = s.len();
    let ordinal = s[7] != b'-';
    let zone = s[len - 1] == b'Z';
    let bare = Layout {
        ordinal,
        digits: 0,
        zone,
    };
    Layout {
        digits: len.saturating_sub(size(bare) + 1),
        ..bare
    }
}

// Whether the dash, T, the colons and the period stand where they should. The second dash and Z are what the layout
// was told by.
#[tactic(auto, using(crate::proofs::Sizes::width_of), unfolding(crate::specs::Inner::separators))]
fn separated(s: &[u8], l: Layout) -> bool
    requires { (l.digits ≤ 12) × (width l ≡ length s.now) }
    ensures { result ≡ separators l s.now }
{
    let end = l.front();
    s[4] == b'-'
        && s[end - 9] == b'T'
        && s[end - 6] == b':'
        && s[end - 3] == b':'
        && (l.digits == 0 || s[end] == b'.')
}

// Reads the date, the clock and the fraction.
#[tactic(auto, using(crate::proofs::Reading::fields_told, crate::proofs::Sizes::width_of))]
fn fields(s: &[u8], l: Layout) -> Result<Moment, Refusal>
    requires { (l.digits ≤ 12) × (width l ≡ length s.now) }
    ensures { said result ≡ need (figures l s.now) 4 (fields_of l s.now) }
{
    let end = l.front();
    let day = day_at(s, l.ordinal)?;
    let second = clock_at(s, end - 8)?;
    let ticks = fraction(s, end + 1, l.digits)?;
    Ok(Moment { day, second, ticks })
}

// The day that a date names.
#[tactic(auto, using(crate::proofs::Reading::day_told))]
fn day_at(s: &[u8], ordinal: bool) -> Result<i64, Refusal>
    requires { 17 ≤ length s.now }
    ensures { said result ≡ given from_epoch (need (date_figures ordinal s.now) 4 (day_at ordinal s.now)) }
{
    let year = octets::decimal(s, 0, 4)?;
    if ordinal {
        let day = octets::decimal(s, 5, 3)?;
        calendar::day_of_ordinal(year, day)
    } else {
        let month = octets::decimal(s, 5, 2)?;
        let day = octets::decimal(s, 8, 2)?;
        calendar::day_of_date(year, month, day)
    }
}

// The second of the day that hh:mm:ss from `at` on shows.
#[tactic(auto, using(crate::proofs::Reading::clock_told))]
fn clock_at(s: &[u8], at: usize) -> Result<u64, Refusal>
    requires { at + 8 ≤ length s.now }
    ensures { said result ≡ need (clock_figures s.now at) 4 (clock_at s.now at) }
{
    let hour = octets::decimal(s, at, 2)?;
    let minute = octets::decimal(s, at + 3, 2)?;
    let second = octets::decimal(s, at + 6, 2)?;
    clock::second_of_day(hour, minute, second)
}

// The ticks of a fraction.
#[tactic(auto, using(crate::proofs::Reading::fractions))]
fn fraction(s: &[u8], at: usize, digits: usize) -> Result<u64, Refusal>
    requires { (digits ≤ 12) × (1 ≤ digits → at + digits ≤ length s.now) }
    ensures { said result ≡ need (figures_at s.now at digits) 4 (done (ticks_of digits (number_at s.now at digits))) }
{
    match digits {
        0 => Ok(0),
        // the default setting's, by constants
        3 => Ok(octets::decimal(s, at, 3)? * (Record::TICKS / 1000)),
        _ => Ok(octets::decimal(s, at, digits)? * moment::decimal_unit(digits)),
    }
}
