// Fields and their rules: where the first field of a date or a clock that breaks its rule begins.
#![tactic(auto)]

ghost use Rattle.std.specs.Prelude.{◌≡◌};
ghost use Rattle.field.specs.Fields.{first_bad, offset};
ghost use Rattle.field.specs.Rules.{date_fields, ordinal_fields, clock_fields};

// What is told of a bad field: where it begins, or 0 where there is none.
pub fn offset(place: Option<usize>) -> usize
    ensures { result ≡ offset place }
{
    place.unwrap_or(0)
}

// Where three fields begin, in their order.
#[derive(Clone, Copy, Debug, PartialEq, Eq)]
pub struct Starts {
    pub first: usize,
    pub second: usize,
    pub third: usize,
}

// The first of year, month and day that breaks its rule.
pub fn in_date(at: Starts, year: u64, month: u64, day: u64) -> Option<usize>
    ensures { result ≡ first_bad (date_fields at.first at.second at.third year month day) }
{
    if !(1..=9999).contains(&year) {
        return Some(at.first);
    }
    if !(1..=12).contains(&month) {
        return Some(at.second);
    }
    if calendar::is_date(year, month, day) {
        None
    } else {
        Some(at.third)
    }
}

// The first of year and day of the year that breaks its rule.
#[tactic(auto, using(crate::proofs::Laws::ordinal_last))]
pub fn in_ordinal(at: Starts, year: u64, day: u64) -> Option<usize>
    ensures { result ≡ first_bad (ordinal_fields at.first at.second year day) }
{
    if !(1..=9999).contains(&year) {
        return Some(at.first);
    }
    if calendar::is_ordinal(year, day) {
        None
    } else {
        Some(at.second)
    }
}

// The first of hour, minute and second that breaks its rule.
pub fn in_clock(at: Starts, hour: u64, minute: u64, second: u64) -> Option<usize>
    ensures { result ≡ first_bad (clock_fields at.first at.second at.third hour minute second) }
{
    if 23 < hour {
        return Some(at.first);
    }
    if 59 < minute {
        return Some(at.second);
    }
    if clock::is_clock(hour, minute, second) {
        None
    } else {
        Some(at.third)
    }
}
