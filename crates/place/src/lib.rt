// Where the first bad field of an input begins, which is what a refusal 4 is to carry. Nothing here is asked of an input that
// is read.
#![tactic(auto)]

ghost use Rattle.std.specs.Prelude.{◌≡◌, true, ◌+◌, ◌≤◌, length};
ghost use Rattle.field.specs.Fields.{first_bad};
ghost use Rattle.cds.specs.Cds.{is_width};
ghost use Rattle.place.specs.Binary.{
  cds_fields,
  date_in,
  clock_in,
  segments_in,
  ccs_fields,
  fields_at,
  place_in,
  end_field,
  binary_place,
  cuc_tag_place,
};
ghost use Rattle.place.specs.Text.{text_place, tag_place};

use field::Starts;
use pfield::{Codes, Head, Layout, Preamble};

// In an ASCII code.
pub fn in_text(s: &[u8]) -> Option<usize>
    ensures { result ≡ text_place s.now }
{
    match fit::code_fit(s) {
        Err(n) => Some(n),
        Ok(()) => tag::fields::bad_field(s),
    }
}

// In a shortened ASCII tag.
pub fn in_tag(s: &[u8]) -> Option<usize>
    ensures { result ≡ tag_place s.now }
{
    match fit::tag_fit(s) {
        Err(n) => Some(n),
        Ok(()) => tag::fields::bad_field(s),
    }
}

// In a binary code, whose P-field is in front or apart.
pub fn in_binary(s: &[u8], p: Preamble, epoch: i64) -> Option<usize>
    ensures { result ≡ binary_place s.now p epoch }
{
    let Head { layout, start } = pfield::read(s, p, Codes::All, epoch).ok()?;
    behind(s, start, layout)
}

// In a CUC tag: what follows its T-field is no part of it.
#[tactic(auto, using(crate::proofs::Heads::head_low))]
pub fn in_cuc_tag(s: &[u8], p: Preamble, epoch: i64) -> Option<usize>
    ensures { result ≡ cuc_tag_place s.now p epoch }
{
    let Head { layout, start } = pfield::read(s, p, Codes::Cuc, epoch).ok()?;
    behind(s, start, layout).or_else(|| past(s, start, layout))
}

// In the T-field of a layout that starts at `at`, counted from there. One that is not all there has none.
#[tactic(auto, using(crate::proofs::Whole::no_layout, crate::proofs::Whole::cut_short))]
pub fn in_field(s: &[u8], at: usize, l: Layout) -> Option<usize>
    ensures { result ≡ first_bad (fields_at s.now at l) }
{
    let w = codes::size(l);
    if w < 1 || !octets::fits(s.len(), at, w) {
        return None;
    }
    match l {
        // any octets are a good count
        Layout::Cuc(_) => None,
        Layout::Cds(d) => in_cds(s, at, d),
        Layout::Ccs(c) => in_ccs(s, at, c),
    }
}

// The same, counted from the input's start.
#[tactic(auto, using(crate::proofs::Whole::starts_low))]
fn behind(s: &[u8], at: usize, l: Layout) -> Option<usize>
    requires { at ≤ 1 }
    ensures { result ≡ place_in s.now at l }
{
    in_field(s, at, l).map(|n| at + n)
}

// The first byte behind a T-field.
#[tactic(auto, using(codes::proofs::Fields::width_low))]
fn past(s: &[u8], at: usize, l: Layout) -> Option<usize>
    requires { at ≤ 1 }
    ensures { result ≡ first_bad (end_field s.now at l) }
{
    let end = at + codes::size(l);
    (end < s.len()).then_some(end)
}

// Millisecond, then remainder; the day has no rule.
fn in_cds(s: &[u8], at: usize, l: cds::Layout) -> Option<usize>
    requires { (is_width l ≡ true) × (at + (l.day + 4 + l.part) ≤ length s.now) }
    ensures { result ≡ first_bad (cds_fields s.now at l) }
{
    let milliseconds = octets::count(s, at + l.day, 4);
    if !milliseconds.is_ok_and(|m| m <= cds::LAST_MILLISECOND) {
        return Some(l.day);
    }
    let remainder = octets::count(s, at + l.day + 4, l.part);
    if !remainder.is_ok_and(|p| p < cds::parts(l.part)) {
        return Some(l.day + 4);
    }
    None
}

// Date, clock, then each pair of fraction digits.
fn in_ccs(s: &[u8], at: usize, l: ccs::Layout) -> Option<usize>
    requires { (l.segments ≤ 6) × (at + (7 + l.segments) ≤ length s.now) }
    ensures { result ≡ first_bad (ccs_fields s.now at l) }
{
    in_date(s, at, l.ordinal)
        .or_else(|| in_clock(s, at))
        .or_else(|| in_segments(s, at, l.segments))
}

// A field that cannot be read counts as the greatest u64, which no rule takes.
fn in_date(s: &[u8], at: usize, ordinal: bool) -> Option<usize>
    requires { at + 7 ≤ length s.now }
    ensures { result ≡ first_bad (date_in ordinal s.now at) }
{
    let year = octets::bcd(s, at, 2).unwrap_or(u64::MAX);
    let starts = Starts {
        first: 0,
        second: 2,
        third: 3,
    };
    if ordinal {
        let of_year = octets::bcd(s, at + 2, 2).unwrap_or(u64::MAX);
        return field::in_ordinal(starts, year, of_year);
    }
    let month = octets::bcd(s, at + 2, 1).unwrap_or(u64::MAX);
    let day = octets::bcd(s, at + 3, 1).unwrap_or(u64::MAX);
    field::in_date(starts, year, month, day)
}

fn in_clock(s: &[u8], at: usize) -> Option<usize>
    requires { at + 7 ≤ length s.now }
    ensures { result ≡ first_bad (clock_in s.now at) }
{
    let hour = octets::bcd(s, at + 4, 1).unwrap_or(u64::MAX);
    let minute = octets::bcd(s, at + 5, 1).unwrap_or(u64::MAX);
    let second = octets::bcd(s, at + 6, 1).unwrap_or(u64::MAX);
    let starts = Starts {
        first: 4,
        second: 5,
        third: 6,
    };
    field::in_clock(starts, hour, minute, second)
}

// Two digits in each octet.
fn in_segments(s: &[u8], at: usize, segments: usize) -> Option<usize>
    requires { (segments ≤ 6) × (at + (7 + segments) ≤ length s.now) }
    ensures { result ≡ first_bad (segments_in s.now at 7 segments) }
{
    (7..7 + segments).find(|&i| octets::bcd(s, at + i, 1).is_err())
}
