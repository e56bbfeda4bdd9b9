// The exact scale: records and spans, their difference, shift and order.
#![tactic(auto)]

ghost use Rattle.std.specs.Prelude.{◌≡◌, ◌^◌};
ghost use Rattle.base.specs.Parts.{At};
ghost use Rattle.base.specs.Said.{says};
ghost use Rattle.scale.specs.Time.{held, held_of, difference_of, shift_of, earlier};
ghost use Rattle.scale.specs.Answers.{timed, recorded, spanned, says_record, says_span};
ghost use Rattle.scale.specs.Inner.{Within, Less, Together};

use base::Refusal;

// Whole seconds, from -LAST - 1 to LAST where they are valid, and ticks of a second, which are never negative.
#[derive(Clone, Copy, Debug, PartialEq, Eq, PartialOrd, Ord)]
pub struct Seconds<const LAST: i64> {
    pub sec: i64,
    pub ticks: u64,
}

// A moment: TAI seconds from 1958-01-01T00:00:00 TAI.
pub type Record = Seconds<2199023255551>;

// The way from one moment to another: minus half a second is -1 s and half a second of ticks.
pub type Span = Seconds<4398046511103>;

// 2^63 less 2^42: how far a raised second is raised beyond one that is counted from the first second of a span.
const SPAN_BIAS: u64 = (1 << 63) - (1 << 42);

impl Record {
    // The ticks of a second.
    pub const TICKS: u64 = 4_096_000_000_000_000;
}

impl<const LAST: i64> Seconds<LAST> {
    pub fn new(sec: i64, ticks: u64) -> Result<Self, Refusal>
        ensures { says timed result ≡ held_of LAST (record { sec = sec; ticks = ticks }) }
    {
        Self { sec, ticks }.in_range()
    }

    pub fn valid(self) -> bool
        ensures { result ≡ held LAST (timed self.entry) }
    {
        base::between(-1 - LAST, LAST, self.sec) && self.ticks < Record::TICKS
    }

    // Itself, if it is valid.
    fn in_range(self) -> Result<Self, Refusal>
        ensures { says timed result ≡ held_of LAST (timed self.entry) }
    {
        if self.valid() {
            Ok(self)
        } else {
            Err(Refusal::Range)
        }
    }

    // The seconds, raised by 2^63.
    pub fn raised(self) -> u64
        ensures { At (2 ^ 63) result self.entry.sec }
    {
        base::raised(self.sec)
    }

    // With seconds that were raised by 2^63.
    pub fn lowered(n: u64, ticks: u64) -> Self
        ensures { At (2 ^ 63) n result.sec × (result.ticks ≡ ticks) }
    {
        Self {
            sec: base::lowered(n),
            ticks,
        }
    }
}

// a - b: shifting b by it gives a.
pub fn difference(a: Record, b: Record) -> Result<Span, Refusal>
    ensures { says_span result ≡ difference_of (recorded a) (recorded b) }
{
    let a = a.in_range()?;
    let b = b.in_range()?;
    Ok(apart(a, b))
}

// r + s
pub fn shift(r: Record, s: Span) -> Result<Record, Refusal>
    ensures { says_record result ≡ shift_of (recorded r) (spanned s) }
{
    let r = r.in_range()?;
    let s = s.in_range()?;
    let to = moved(r, s);
    if to.valid() {
        Ok(to)
    } else {
        Err(Refusal::Range)
    }
}

// Whether a stands before b: by the seconds, then by the ticks.
pub fn before(a: Record, b: Record) -> bool
    ensures { result ≡ earlier (recorded a) (recorded b) }
{
    (a.raised(), a.ticks) < (b.raised(), b.ticks)
}

// a - b, which borrows a second where b has more ticks.
fn apart(a: Record, b: Record) -> Span
    requires { Within (2 ^ 41) (recorded a) × Within (2 ^ 41) (recorded b) }
    ensures { Less (recorded a) (recorded b) (spanned result) }
{
    // the seconds of b from -2^41 on, and the difference raised by 2^63
    let from = b.raised() - base::RECORD_BIAS;
    let to = a.raised() - from + (1 << 41);
    if b.ticks <= a.ticks {
        Span::lowered(to, a.ticks - b.ticks)
    } else {
        Span::lowered(to - 1, a.ticks + Record::TICKS - b.ticks)
    }
}

// r + s, which carries a second of ticks, and may be past a record's range.
fn moved(r: Record, s: Span) -> Record
    requires { Within (2 ^ 41) (recorded r) × Within (2 ^ 42) (spanned s) }
    ensures { Together (recorded r) (spanned s) (recorded result) }
{
    // the seconds of s from -2^42 on, and the sum raised by 2^63
    let by = s.raised() - SPAN_BIAS;
    let to = r.raised() - (1 << 42) + by;
    let ticks = r.ticks + s.ticks;
    if ticks < Record::TICKS {
        Record::lowered(to, ticks)
    } else {
        Record::lowered(to + 1, ticks - Record::TICKS)
    }
}
