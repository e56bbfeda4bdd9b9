// ASCII time codes A and B, written: a moment of UTC to bytes. No table is asked.
#![tactic(auto)]

ghost use Rattle.std.specs.Prelude.{◌≡◌, true, false, ◌+◌, ◌≤◌, ◌<◌, length};
ghost use Rattle.base.specs.Outcome.{and_then};
ghost use Rattle.scale.specs.Time.{per_second};
ghost use Rattle.octets.specs.Places.{digits};
ghost use Rattle.octets.specs.Stores.{pasted};
ghost use Rattle.octets.specs.Writes.{roomed, Wrote};
ghost use Rattle.ascii.specs.Ascii.{
  lead,
  day_text,
  clock_text,
  fraction_text,
  zone_text,
  code_text,
  part_of,
  bytes_of,
};

use ascii::Layout;
use base::Refusal;
use moment::Moment;
use scale::Record;

// Writes a code from `at` on: the bytes before and after it stay, and a refusal leaves all.
#[tactic(auto, using(moment::proofs::Laws::moment_parts, ascii::proofs::Ladder::index_high), unfolding(ascii::specs::Ascii::bytes_of))]
pub fn write(m: Moment, l: Layout, out: &mut [u8], at: usize) -> Result<usize, Refusal>
    ensures { Wrote (and_then (bytes_of l m) (roomed out.old at)) at out.old out.new result }
{
    if !ascii::is_layout(l) {
        return Err(Refusal::Unsupported);
    }
    if !m.valid() {
        return Err(Refusal::Range);
    }
    let index = calendar::index_of_day(m.day)?;
    store(out, at, l, index, m.second, part_of(l.digits, m.ticks))
}

// The fraction of a second that so many digits show.
#[tactic(auto, using(crate::proofs::Puts::some_ticks))]
fn part_of(digits: usize, ticks: u64) -> u64
    requires { (digits ≤ 12) × (ticks < per_second) }
    ensures { result ≡ part_of digits ticks }
{
    if digits == 3 {
        // by constants, and in two steps, or the compiler joins it with the division below
        let millionths = (ticks / (Record::TICKS / 1_000_000)) as u32;
        u64::from(millionths / 1000)
    } else {
        ticks / moment::decimal_unit(digits)
    }
}

// Stores a code where there is room: the date, the clock, the fraction and Z. The bound on a day stays a `requires` of the
// functions for its text: a type with it would be the calendar's private one over again.
fn store(
    out: &mut [u8],
    at: usize,
    l: Layout,
    day: u64,
    second: u64,
    part: u64,
) -> Result<usize, Refusal>
    requires { (day ≤ 3652058) × (second ≤ 86400) × (l.digits ≤ 12) }
    ensures { Wrote (roomed out.old at (code_text l day second part)) at out.old out.new result }
{
    if !octets::fits(out.len(), at, ascii::size(l)) {
        return Err(Refusal::Room);
    }
    let mut code = Writer { out, at };
    code.put_day(l.ordinal, day);
    code.put(&clock_text(second));
    code.put_fraction(l.digits, part);
    code.put_zone(l.zone);
    Ok(code.at)
}

// Lent bytes, and where the next text goes.
#[derive(Drop)]
struct Writer<'a> {
    out: &'a mut [u8],
    at: usize,
}

impl Writer<'_> {
    #[tactic(auto, using(crate::proofs::Puts::copied))]
    fn put(&mut self, text: &[u8])
        requires { self.old.at + length text.now ≤ length self.old.out.now }
        ensures ends { self.new.at ≡ self.old.at + length text.now }
        ensures puts { self.new.out.now ≡ pasted self.old.out.now self.old.at text.now }
        ensures same { self.new.out.ghost_name ≡ self.old.out.ghost_name }
    {
        let end = self.at + text.len();
        self.out[self.at..end].copy_from_slice(text);
        self.at = end;
    }

    // The date of a day.
    fn put_day(&mut self, ordinal: bool, day: u64)
        requires { (day ≤ 3652058) × (self.old.at + length (day_text ordinal day) ≤ length self.old.out.now) }
        ensures ends { self.new.at ≡ self.old.at + length (day_text ordinal day) }
        ensures puts { self.new.out.now ≡ pasted self.old.out.now self.old.at (day_text ordinal day) }
        ensures same { self.new.out.ghost_name ≡ self.old.out.ghost_name }
    {
        if ordinal {
            self.put(&ordinal_text(day));
        } else {
            self.put(&date_text(day));
        }
    }

    // A fraction of so many digits with its period.
    #[tactic(auto, using(crate::proofs::Puts::fractions))]
    fn put_fraction(&mut self, digits: usize, part: u64)
        requires { self.old.at + length (fraction_text digits part) ≤ length self.old.out.now }
        ensures ends { self.new.at ≡ self.old.at + length (fraction_text digits part) }
        ensures puts { self.new.out.now ≡ pasted self.old.out.now self.old.at (fraction_text digits part) }
        ensures same { self.new.out.ghost_name ≡ self.old.out.ghost_name }
    {
        match digits {
            0 => {}
            // by a width that the compiler knows
            3 => self.put_lead(3, part),
            _ => self.put_lead(digits, part),
        }
    }

    // A period and digits.
    fn put_lead(&mut self, digits: usize, part: u64)
        requires { self.old.at + 1 + digits ≤ length self.old.out.now }
        ensures ends { self.new.at ≡ self.old.at + 1 + digits }
        ensures puts { self.new.out.now ≡ pasted self.old.out.now self.old.at (lead 46 digits part) }
        ensures same { self.new.out.ghost_name ≡ self.old.out.ghost_name }
    {
        self.out[self.at] = b'.';
        octets::put_decimal(self.out, self.at + 1, digits, part);
        self.at += 1 + digits;
    }

    // Z where the layout has it.
    #[tactic(auto, using(crate::proofs::Puts::no_zone))]
    fn put_zone(&mut self, zone: bool)
        requires { self.old.at + length (zone_text zone) ≤ length self.old.out.now }
        ensures ends { self.new.at ≡ self.old.at + length (zone_text zone) }
        ensures puts { self.new.out.now ≡ pasted self.old.out.now self.old.at (zone_text zone) }
        ensures same { self.new.out.ghost_name ≡ self.old.out.ghost_name }
    {
        if zone {
            self.put(b"Z");
        }
    }
}

// YYYY-DDD.
#[tactic(auto, using(crate::proofs::Puts::ordinal_ok, calendar::proofs::Promises::ordinal_fields_lem))]
fn ordinal_text(day: u64) -> [u8; 8]
    requires { day ≤ 3652058 }
    ensures { result ≡ day_text true day }
{
    let o = calendar::ordinal_at(day).unwrap();
    let [a, b, c, d] = four_digits(o.year);
    let [e, f] = two_digits(o.day % 100);
    [a, b, c, d, b'-', b'0' + (o.day / 100) as u8, e, f]
}

// YYYY-MM-DD.
#[tactic(auto, using(crate::proofs::Puts::date_ok, calendar::proofs::Promises::date_fields_lem))]
fn date_text(day: u64) -> [u8; 10]
    requires { day ≤ 3652058 }
    ensures { result ≡ day_text false day }
{
    let t = calendar::date_at(day).unwrap();
    let [a, b, c, d] = four_digits(t.year);
    let [e, f] = two_digits(t.month);
    let [g, h] = two_digits(t.day);
    [a, b, c, d, b'-', e, f, b'-', g, h]
}

// T and the clock of a second of the day.
#[tactic(auto, unfolding(ascii::specs::Ascii::clock_text))]
fn clock_text(second: u64) -> [u8; 9]
    requires { second ≤ 86400 }
    ensures { result ≡ clock_text second }
{
    let minute = clock::minute_of(second);
    let [a, b] = two_digits(minute / 60);
    let [c, d] = two_digits(minute % 60);
    let [e, f] = two_digits(second - minute * 60);
    [b'T', a, b, b':', c, d, b':', e, f]
}

// The four digits of n.
#[tactic(auto, using(crate::proofs::Puts::four))]
fn four_digits(n: u64) -> [u8; 4]
    requires { n < 10000 }
    ensures { result ≡ digits 4 n }
{
    let [a, b] = two_digits(n / 100);
    let [c, d] = two_digits(n % 100);
    [a, b, c, d]
}

// The two digits of n.
fn two_digits(n: u64) -> [u8; 2]
    requires { n < 100 }
    ensures { result ≡ digits 2 n }
{
    let two = n as u8;
    [b'0' + two / 10, b'0' + two % 10]
}
