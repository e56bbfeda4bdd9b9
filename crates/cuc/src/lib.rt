// The T-field of CUC, the unsegmented binary time code: a big-endian count from an epoch, read and written. Its coarse
// octets count whole seconds and its fine ones parts of a second: two counts, each of which fits a u64.
#![tactic(auto)]

ghost use Rattle.std.specs.Prelude.{◌≡◌, true};
ghost use Rattle.base.specs.Outcome.{done, and_then};
ghost use Rattle.base.specs.Said.{says};
ghost use Rattle.scale.specs.Time.{is_record};
ghost use Rattle.scale.specs.Answers.{recorded, says_record};
ghost use Rattle.octets.specs.Writes.{roomed, Wrote};
ghost use Rattle.cuc.specs.Cuc.{is_epoch, is_width, settled, width, unit, field, bytes_of};
ghost use Rattle.cuc.specs.Inner.{Good};

use base::Refusal;
use scale::Record;

// The epoch that a count is from, in whole TAI seconds, and the octets of its whole seconds and of its fraction.
#[derive(Clone, Copy, Debug, PartialEq, Eq)]
pub struct Layout {
    pub epoch: i64,
    pub coarse: usize,
    pub fine: usize,
}

// The octets of a T-field, or 0 where there is no such layout (and no Option: a public function that can not fail may not
// begin to).
#[tactic(auto, using(crate::proofs::Layouts::widths), unfolding(crate::specs::Cuc::width))]
pub fn size(l: Layout) -> usize
    ensures { result ≡ width l }
{
    if l.is_width() { l.coarse + l.fine } else { 0 }
}

// Whether a count can be from an epoch.
pub fn is_epoch(epoch: i64) -> bool
    ensures { result ≡ is_epoch epoch }
{
    base::between(-(1 << 40), (1 << 40) - 1, epoch)
}

// The moment that the T-field from `at` on names.
#[tactic(auto, using(crate::proofs::Fields::field_unjudged))]
pub fn read(s: &[u8], at: usize, l: Layout) -> Result<Record, Refusal>
    ensures { says_record result ≡ field s.now at l }
{
    l.judged()?.read(s, at)
}

// Writes the T-field of a moment from `at` on, its fraction taken downward.
pub fn write(r: Record, l: Layout, out: &mut [u8], at: usize) -> Result<usize, Refusal>
    ensures { Wrote (and_then (bytes_of l (recorded r)) (roomed out.old at)) at out.old out.new result }
{
    if !r.valid() {
        return Err(Refusal::Range);
    }
    l.judged()?.write(r, out, at)
}

// CDS has the like of these two functions, of other widths and another epoch: a trait for both would be longer than they are.
impl Layout {
    // Whether a P octet gives so many octets.
    #[tactic(auto, unfolding(crate::specs::Cuc::is_width))]
    fn is_width(self) -> bool
        ensures { result ≡ is_width self }
    {
        (1..=4).contains(&self.coarse) && self.fine <= 3
    }

    fn judged(self) -> Result<Judged, Refusal>
        ensures { says (λ judged. judged.layout) result ≡ settled self (done self) }
    {
        if !self.is_width() {
            return Err(Refusal::Unsupported);
        }
        if !is_epoch(self.epoch) {
            return Err(Refusal::Range);
        }
        Ok(Judged { layout: self })
    }
}

// A layout that there is: a P octet gives its octets, and a count can be from its epoch.
#[derive(Clone, Copy)]
struct Judged {
    layout: Layout,
    ghost good: { Good layout },
}

impl Judged {
    #[tactic(auto, using(crate::proofs::Fields::rungs, crate::proofs::Fields::seconds_lt, crate::proofs::Fields::parts_lt, base::proofs::Signed::at_sum, std::proofs::lemmas::Int::ints))]
    fn read(self, s: &[u8], at: usize) -> Result<Record, Refusal>
        ensures { says_record result ≡ field s.now at self.layout }
    {
        let l = self.layout;
        if !octets::fits(s.len(), at, l.coarse + l.fine) {
            return Err(Refusal::Short);
        }
        let whole = octets::count(s, at, l.coarse)?;
        let parts = octets::count(s, at + l.coarse, l.fine)?;
        let epoch = l.epoch;
        let start = base::raised(epoch);
        Ok(Record {
            sec: base::lowered(start + whole),
            ticks: parts * self.unit(),
        })
    }

    // Writes the T-field of a valid record.
    #[tactic(auto, using(crate::proofs::Layouts::many_seconds, crate::proofs::Widths::grain, std::proofs::lemmas::Int::ints))]
    fn write(self, r: Record, out: &mut [u8], at: usize) -> Result<usize, Refusal>
        requires { is_record (recorded r) ≡ true }
        ensures { Wrote (and_then (bytes_of self.layout (recorded r)) (roomed out.old at)) at out.old out.new result }
    {
        let l = self.layout;
        let first = l.epoch;
        let last = base::lowered(base::raised(first) + (octets::power256(l.coarse) - 1));
        let whole = base::seated(first, last, r.sec).ok_or(Refusal::Range)?;
        let parts = r.ticks / self.unit();
        let w = l.coarse + l.fine;
        if !octets::fits(out.len(), at, w) {
            return Err(Refusal::Room);
        }
        octets::put_count(out, at, l.coarse, whole);
        octets::put_count(out, at + l.coarse, l.fine, parts);
        Ok(at + w)
    }

    // The ticks of one part of a second, of which there are 256^fine: each octet is a shift by 8.
    #[tactic(auto, using(crate::proofs::Widths::power_bits))]
    fn unit(self) -> u64
        ensures { result ≡ unit self.layout.fine }
    {
        Record::TICKS >> (8 * self.layout.fine)
    }
}
