// Shortened tags: the moments that a tag names in a window of records, listed.
#![tactic(auto)]

mod ends;
mod periodic;

ghost use Rattle.std.specs.Prelude.{◌≡◌};
ghost use Rattle.scale.specs.Answers.{recorded};
ghost use Rattle.leap.specs.Builtin.{builtin};
ghost use Rattle.window.specs.Window.{Lists};
ghost use Rattle.listing.specs.CucTag.{list_periodic, list_cuc};
ghost use Rattle.listing.specs.AsciiTag.{covered, list_wanted, list_ascii};
ghost use Rattle.listing.specs.Inner.{Short, periodic_as};

use base::Refusal;
use ends::Ends;
use periodic::Periodic;
use pfield::Preamble;
use scale::Record;
use seek::Wants;
use window::Listed;

// A second counted from a record's first, less the same second as the table raises it.
const SECOND_SHIFT: u64 = leap::SECOND_BIAS - base::RECORD_BIAS;

// Lists what a CUC tag names from `from` on and before `to`: its seconds into `out`, their one tick count in the answer.
pub fn list_cuc(
    tag: &[u8],
    p: Preamble,
    epoch: i64,
    from: Record,
    to: Record,
    out: &mut [i64],
) -> Result<Listed, Refusal>
    ensures { Lists (list_cuc tag.now p epoch (recorded from) (recorded to)) out.old out.new result }
{
    let tag = periodic::read(tag, p, epoch)?;
    list_periodic(tag, from, to, out)
}

// The same of a tag that has been read.
fn list_periodic(
    tag: Periodic,
    from: Record,
    to: Record,
    out: &mut [i64],
) -> Result<Listed, Refusal>
    requires { Short (periodic_as tag) }
    ensures { Lists (list_periodic (recorded from) (recorded to) (periodic_as tag)) out.old out.new result }
{
    let ticks = tag.first.ticks;
    let Ends { start, end } = ends::at_tick(from, to, ticks)?;
    // raised by 2^41
    let base = tag.first.raised() - base::RECORD_BIAS;
    counter::list(base, tag.period, start, end, ticks, out)
}

// Lists what a shortened ASCII tag names from `from` on and before `to`: its seconds into `out`, their one tick count in
// the answer.
pub fn list_ascii(tag: &[u8], from: Record, to: Record, out: &mut [i64]) -> Result<Listed, Refusal>
    ensures { Lists (list_ascii builtin tag.now (recorded from) (recorded to)) out.old out.new result }
{
    let wants = tag::read(tag)?;
    list_wanted(wants, from, to, out)
}

// The same of the fields that a tag wants.
fn list_wanted(wants: Wants, from: Record, to: Record, out: &mut [i64]) -> Result<Listed, Refusal>
    ensures { Lists (list_wanted builtin (recorded from) (recorded to) wants) out.old out.new result }
{
    let Ends { start, end } = ends::at_tick(from, to, wants.ticks)?;
    if !covered(from, to) {
        return Err(Refusal::Uncovered);
    }
    seek::list(wants, start - SECOND_SHIFT, end - SECOND_SHIFT, out)
}

// Whether the window lies in the cover of the table.
fn covered(from: Record, to: Record) -> bool
    ensures { result ≡ covered builtin (recorded from) (recorded to) }
{
    let first = Record {
        sec: leap::FIRST_SECOND,
        ticks: 0,
    };
    let past = Record {
        sec: leap::PAST_SECOND,
        ticks: 0,
    };
    !scale::before(from, first) && !scale::before(past, to)
}
