// CDS, the day segmented code: a T-field is the day from an epoch day, the millisecond of the day and a part of the
// millisecond, in UTC. Its reading and its writing; whether the leap second table has such a second is judged above.
#![tactic(auto)]

ghost use Rattle.std.specs.Prelude.{◌≡◌, true, ◌^◌, ◌<◌};
ghost use Rattle.base.specs.Outcome.{done, and_then};
ghost use Rattle.base.specs.Said.{said, says};
ghost use Rattle.moment.specs.Moment.{is_moment};
ghost use Rattle.octets.specs.Writes.{roomed, Wrote};
ghost use Rattle.cds.specs.Cds.{is_epoch_day, is_width, settled, width, parts, unit, moment_by, field, bytes_of};
ghost use Rattle.cds.specs.Inner.{Good};

use base::Refusal;
use moment::Moment;
use scale::Record;

// The epoch day, the octets of the day (2 or 3) and the octets of the part of a millisecond (0, 2 or 4).
#[derive(Clone, Copy, Debug, PartialEq, Eq)]
pub struct Layout {
    pub epoch: i64,
    pub day: usize,
    pub part: usize,
}

// The ticks of a millisecond.
const MILLISECOND: u64 = Record::TICKS / 1000;

// The last millisecond of a day that ends in 23:59:60.
pub const LAST_MILLISECOND: u64 = 86_400_999;

// The octets of a T-field, or 0 for a layout that is none (and no Option: a public function that can not fail may not begin to).
#[tactic(auto, using(crate::proofs::Laws::few), unfolding(crate::specs::Cds::width))]
pub fn size(l: Layout) -> usize
    ensures { result ≡ width l }
{
    if l.is_width() { l.day + 4 + l.part } else { 0 }
}

// Whether days can be counted from an epoch day.
pub fn is_epoch(epoch: i64) -> bool
    ensures { result ≡ is_epoch_day epoch }
{
    base::between(-(1 << 24), (1 << 24) - 1, epoch)
}

// The moment that the T-field from `at` on names.
#[tactic(auto, using(crate::proofs::Laws::field_unjudged))]
pub fn read(s: &[u8], at: usize, l: Layout) -> Result<Moment, Refusal>
    ensures { said result ≡ field s.now at l }
{
    l.judged()?.read(s, at)
}

// Writes a moment's T-field from `at` on, the fraction taken downward.
#[inline(always)] // by count, as `codes::put` has it
pub fn write(m: Moment, l: Layout, out: &mut [u8], at: usize) -> Result<usize, Refusal>
    ensures { Wrote (and_then (bytes_of l m) (roomed out.old at)) at out.old out.new result }
{
    let judged = l.judged()?;
    if !m.valid() {
        return Err(Refusal::Range);
    }
    judged.write(m, out, at)
}

// How many parts a millisecond has.
pub fn parts(part: usize) -> u64
    ensures { result ≡ parts part }
{
    match part {
        0 => 1,
        2 => 1_000,
        _ => 1_000_000_000,
    }
}

// As CUC has them, of other widths and another epoch.
impl Layout {
    // Whether a P octet gives so many octets.
    #[tactic(auto, unfolding(crate::specs::Cds::is_width))]
    fn is_width(self) -> bool
        ensures { result ≡ is_width self }
    {
        matches!(self.day, 2 | 3) && matches!(self.part, 0 | 2 | 4)
    }

    fn judged(self) -> Result<Judged, Refusal>
        ensures { says (λ judged. judged.layout) result ≡ settled self (done self) }
    {
        if !self.is_width() {
            return Err(Refusal::Unsupported);
        }
        if !is_epoch(self.epoch) {
            return Err(Refusal::Range);
        }
        Ok(Judged { layout: self })
    }
}

// A layout of the code: a P octet gives its octets, and days can be counted from its epoch day.
#[derive(Clone, Copy)]
struct Judged {
    layout: Layout,
    ghost good: { Good layout },
}

impl Judged {
    #[tactic(auto, using(crate::proofs::Laws::rungs, crate::proofs::Laws::days_lt))]
    fn read(self, s: &[u8], at: usize) -> Result<Moment, Refusal>
        ensures { said result ≡ field s.now at self.layout }
    {
        let l = self.layout;
        if !octets::fits(s.len(), at, l.day + 4 + l.part) {
            return Err(Refusal::Short);
        }
        let day = octets::count(s, at, l.day)?;
        let millisecond = octets::count(s, at + l.day, 4)?;
        let part = octets::count(s, at + l.day + 4, l.part)?;
        self.moment(day, millisecond, part)
    }

    // The moment of a day from the epoch, a millisecond of day and a part of the millisecond.
    #[tactic(auto, using(base::proofs::Signed::at_sum, std::proofs::lemmas::Int::ints), unfolding(crate::specs::Cds::moment_by))]
    fn moment(self, day: u64, millisecond: u64, part: u64) -> Result<Moment, Refusal>
        requires { day < 2 ^ 24 }
        ensures { said result ≡ moment_by self.layout day millisecond part }
    {
        if LAST_MILLISECOND < millisecond || parts(self.layout.part) <= part {
            return Err(Refusal::Field);
        }
        Ok(Moment {
            day: base::lowered(base::raised(self.layout.epoch) + day),
            second: millisecond / 1000,
            ticks: millisecond % 1000 * MILLISECOND + part * self.unit(),
        })
    }

    // Writes the T-field of a valid moment.
    #[inline(always)] // by count, as `codes::put` has it
    #[tactic(auto, using(crate::proofs::Laws::many_days, crate::proofs::Laws::grain, moment::proofs::Laws::moment_parts, std::proofs::lemmas::Int::ints))]
    fn write(self, m: Moment, out: &mut [u8], at: usize) -> Result<usize, Refusal>
        requires { is_moment m ≡ true }
        ensures { Wrote (and_then (bytes_of self.layout m) (roomed out.old at)) at out.old out.new result }
    {
        let l = self.layout;
        let first = l.epoch;
        let last = base::lowered(base::raised(first) + (octets::power256(l.day) - 1));
        let day = base::seated(first, last, m.day).ok_or(Refusal::Range)?;
        let millisecond = m.second * 1000 + m.ticks / MILLISECOND;
        let part = m.ticks % MILLISECOND / self.unit();
        let w = l.day + 4 + l.part;
        if !octets::fits(out.len(), at, w) {
            return Err(Refusal::Room);
        }
        octets::put_count(out, at, l.day, day);
        octets::put_count(out, at + l.day, 4, millisecond);
        octets::put_count(out, at + l.day + 4, l.part, part);
        Ok(at + w)
    }

    // The ticks of a part of a millisecond.
    #[tactic(auto, using(crate::proofs::Laws::many_pos))]
    fn unit(self) -> u64
        ensures { result ≡ unit self.layout.part }
    {
        MILLISECOND / parts(self.layout.part)
    }
}
