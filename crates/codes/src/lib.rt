// All codes: the binary ones CUC, CDS and CCS read from bytes and written into lent ones; ASCII in the module text,
// settings in the module setting. Here the UTC codes meet the leap second table.
#![tactic(auto)]

pub mod setting;
pub mod text;

ghost use Rattle.std.specs.Prelude.{◌≡◌, true, drop};
ghost use Rattle.base.specs.Outcome.{and_then};
ghost use Rattle.scale.specs.Answers.{recorded, says_record};
ghost use Rattle.octets.specs.Writes.{roomed, Wrote};
ghost use Rattle.leap.specs.Builtin.{builtin};
ghost use Rattle.codes.specs.Reading.{field_of, width_of, scan_in, scan_of, used_of};
ghost use Rattle.codes.specs.Writing.{bytes_of, fronted, write_of};
ghost use Rattle.codes.specs.Answers.{says_scan};

use base::Refusal;
use pfield::{Codes, Head, Layout, PField, Preamble};
use scale::Record;

// A moment and how many bytes its code takes.
#[derive(Clone, Copy, Debug, PartialEq, Eq)]
pub struct Decoded {
    pub moment: Record,
    pub used: usize,
}

// The answer, and the part of the caller's bytes that follows the code: all of them when refused.
#[derive(Clone, Copy, Debug, PartialEq, Eq)]
pub struct Taken<'a> {
    pub answer: Result<Decoded, Refusal>,
    pub rest: &'a [u8],
}

// Reads a code from the front of the bytes.
pub fn read<'a>(s: &'a [u8], p: Preamble, epoch: i64) -> Taken<'a>
    ensures { (says_scan result.answer ≡ scan_of builtin s.now p epoch) × (result.rest.now ≡ drop (used_of (scan_of builtin s.now p epoch)) s.now) }
{
    let answer = scan(s, p, epoch);
    let rest = unread(s, answer);
    Taken { answer, rest }
}

// The answer alone.
#[tactic(auto, unfolding(crate::specs::Reading::scan_of))]
pub fn scan(s: &[u8], p: Preamble, epoch: i64) -> Result<Decoded, Refusal>
    ensures { says_scan result ≡ scan_of builtin s.now p epoch }
{
    let Head { layout, start } = pfield::read(s, p, Codes::All, epoch)?;
    field(s, start, layout)
}

// The T-field of a layout that starts at `at`.
pub fn read_field(s: &[u8], at: usize, l: Layout) -> Result<Record, Refusal>
    ensures { says_record result ≡ field_of builtin s.now at l }
{
    match l {
        Layout::Cuc(c) => cuc::read(s, at, c),
        Layout::Cds(d) => utc::timed(cds::read(s, at, d)),
        Layout::Ccs(c) => utc::timed(ccs::read(s, at, c)),
    }
}

// How many octets a T-field has, or 0 for a layout that there is not, as each code has it.
pub fn size(l: Layout) -> usize
    ensures { result ≡ width_of l }
{
    match l {
        Layout::Cuc(c) => cuc::size(c),
        Layout::Cds(d) => cds::size(d),
        Layout::Ccs(c) => ccs::size(c),
    }
}

// What follows the code that was read, or all when it was refused.
pub fn unread<'a>(s: &'a [u8], a: Result<Decoded, Refusal>) -> &'a [u8]
    ensures { result.now ≡ drop (used_of (says_scan a)) s.now }
{
    let n = a.map_or(0, |d| d.used).min(s.len());
    &s[n..]
}

// The T-field that starts at `at`, and where it ends. Not over `read_field`: docs/DECISIONS.md counts both shapes.
#[tactic(auto, using(cuc::proofs::Promises::read_width, crate::proofs::Fields::cds_octets, crate::proofs::Fields::ccs_octets), unfolding(crate::specs::Reading::scan_in))]
fn field(s: &[u8], at: usize, l: Layout) -> Result<Decoded, Refusal>
    ensures { says_scan result ≡ scan_in builtin s.now at l }
{
    match l {
        Layout::Cuc(c) => Ok(Decoded {
            moment: cuc::read(s, at, c)?,
            used: at + cuc::size(c),
        }),
        Layout::Cds(d) => Ok(Decoded {
            moment: utc::timed(cds::read(s, at, d))?,
            used: at + cds::size(d),
        }),
        Layout::Ccs(c) => Ok(Decoded {
            moment: utc::timed(ccs::read(s, at, c))?,
            used: at + ccs::size(c),
        }),
    }
}

// Writes a moment under a P-field and an epoch, with the field in front or without it.
#[tactic(auto, unfolding(crate::specs::Writing::write_of))]
pub fn write_binary(
    r: Record,
    p: PField,
    epoch: i64,
    front: bool,
    out: &mut [u8],
) -> Result<usize, Refusal>
    ensures { Wrote (write_of builtin (recorded r) p epoch front out.old) 0 out.old out.new result }
{
    if !r.valid() {
        return Err(Refusal::Range);
    }
    let l = pfield::lay(p, Codes::All, epoch)?;
    if front {
        put_fronted(r, p, l, out)
    } else {
        put(r, l, out, 0)
    }
}

// The T-field of a moment, stored from `at` on. In place, by count, and what it calls of CDS: hz_write_binary takes two
// thirds of the instructions under CUC, and four fifths under CDS.
#[inline(always)]
fn put(r: Record, l: Layout, out: &mut [u8], at: usize) -> Result<usize, Refusal>
    ensures { Wrote (and_then (bytes_of builtin l (recorded r)) (roomed out.old at)) at out.old out.new result }
{
    match l {
        Layout::Cuc(c) => cuc::write(r, c, out, at),
        Layout::Cds(d) => cds::write(utc::moment_of(r)?, d, out, at),
        Layout::Ccs(c) => ccs::write(utc::moment_of(r)?, c, out, at),
    }
}

// The same behind its P-field, which is stored once the T-field has found room.
#[tactic(auto, using(crate::proofs::Fronts::fronts_long))]
fn put_fronted(r: Record, p: PField, l: Layout, out: &mut [u8]) -> Result<usize, Refusal>
    ensures { Wrote (and_then (bytes_of builtin l (recorded r)) (fronted true p out.old)) 0 out.old out.new result }
{
    let end = put(r, l, out, 1)?;
    out[0] = p.octet;
    Ok(end)
}
