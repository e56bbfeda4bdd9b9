// The leap second table: the UTC reading of a TAI second, and back. Inside, a day is its index, counted from
// 0001-01-01, an offset is raised by 64, and a TAI second is raised by both, so that a day begins at
// day * 86400 + offset.
#![tactic(auto)]

ghost use Rattle.std.specs.Prelude.{◌≡◌, ◌+◌, ◌-◌, ◌*◌, ◌≤◌, ◌<◌};
ghost use Rattle.base.specs.Outcome.{done, need};
ghost use Rattle.leap.specs.Table.{start, covers, day_holding, reading, second_at, reading_at, day_on, day_at};
ghost use Rattle.leap.specs.Utc.{reading_of, second_of, utc_of_second, second_of_utc};
ghost use Rattle.leap.specs.Builtin.{builtin, first_index, past_index, first_raised, past_raised};
ghost use Rattle.leap.specs.Inner.{row_at, end_at, Small, OnDay, InSecond};
ghost use Rattle.base.specs.Said.{said, says};

use base::Refusal;

// A day and TAI minus UTC from it on.
#[derive(Clone, Copy, Debug, PartialEq, Eq)]
pub struct Row {
    pub day: u64,
    pub offset: u64,
}

// A day, a second of it (86,400 is 23:59:60), and the day's offset.
#[derive(Clone, Copy, Debug, PartialEq, Eq)]
pub struct Reading {
    pub day: u64,
    pub second: u64,
    pub offset: u64,
}

// The same of signed numbers: the day counted from 1958-01-01, and TAI minus UTC.
#[derive(Clone, Copy, Debug, PartialEq, Eq)]
pub struct Utc {
    pub day: i64,
    pub second: u64,
    pub offset: i64,
}

// The raised TAI second in which a day begins, and how many seconds the day has.
#[derive(Clone, Copy, Debug, PartialEq, Eq)]
pub struct Day {
    pub start: u64,
    pub length: u64,
}

// A row as it is published: a day counted from 1958-01-01, and TAI minus UTC from it on.
#[derive(Clone, Copy)]
struct Leap {
    day: u16,
    offset: u16,
}

// A row of the table, by its number.
#[derive(Clone, Copy)]
struct RowNumber {
    number: usize,
    ghost in_table: { number < 28 },
}

// A covered day, by its index.
#[derive(Clone, Copy)]
struct CoveredDay {
    index: u64,
    ghost begun: { first_index ≤ index },
    ghost before_end: { index < past_index },
}

// A covered TAI second, raised.
#[derive(Clone, Copy)]
struct CoveredSecond {
    raised: u64,
    ghost begun: { first_raised ≤ raised },
    ghost before_end: { raised < past_raised },
}

// The cover's ends: days counted from 1958-01-01, TAI seconds, and both raised as they are inside; PAST is the first
// past the cover.
pub const FIRST_DAY: i64 = 5113;

pub const LAST_DAY: i64 = 24836;

pub const FIRST_SECOND: i64 = 441763210;

pub const LAST_SECOND: i64 = 2145916836;

pub const PAST_SECOND: i64 = 2145916837;

const FIRST_INDEX: u64 = 719892;

const PAST_INDEX: u64 = 739616;

pub const FIRST_RAISED: u64 = 62198668874;

pub const PAST_RAISED: u64 = 63902822501;

// What `lowered` takes off too much of an offset and of a second: 2^63 less what each was raised by.

const OFFSET_BIAS: u64 = 9223372036854775744;

pub const SECOND_BIAS: u64 = 9223371975097870144;

// How far each is raised, and when the last row begins.
const DAY_RAISE: u64 = 714779;

const OFFSET_RAISE: u64 = 64;

const SECOND_RAISE: u64 = 61756905664;

const LAST_ROW_BEGINS: u64 = 63618825701;

const LAST_ROW: usize = 27;

const LAST_OFFSET: u64 = 101;

const LEAPS: [Leap; 28] = [
    Leap {
        day: 5113,
        offset: 10,
    },
    Leap {
        day: 5295,
        offset: 11,
    },
    Leap {
        day: 5479,
        offset: 12,
    },
    Leap {
        day: 5844,
        offset: 13,
    },
    Leap {
        day: 6209,
        offset: 14,
    },
    Leap {
        day: 6574,
        offset: 15,
    },
    Leap {
        day: 6940,
        offset: 16,
    },
    Leap {
        day: 7305,
        offset: 17,
    },
    Leap {
        day: 7670,
        offset: 18,
    },
    Leap {
        day: 8035,
        offset: 19,
    },
    Leap {
        day: 8582,
        offset: 20,
    },
    Leap {
        day: 8947,
        offset: 21,
    },
    Leap {
        day: 9312,
        offset: 22,
    },
    Leap {
        day: 10043,
        offset: 23,
    },
    Leap {
        day: 10957,
        offset: 24,
    },
    Leap {
        day: 11688,
        offset: 25,
    },
    Leap {
        day: 12053,
        offset: 26,
    },
    Leap {
        day: 12600,
        offset: 27,
    },
    Leap {
        day: 12965,
        offset: 28,
    },
    Leap {
        day: 13330,
        offset: 29,
    },
    Leap {
        day: 13879,
        offset: 30,
    },
    Leap {
        day: 14426,
        offset: 31,
    },
    Leap {
        day: 14975,
        offset: 32,
    },
    Leap {
        day: 17532,
        offset: 33,
    },
    Leap {
        day: 18628,
        offset: 34,
    },
    Leap {
        day: 19905,
        offset: 35,
    },
    Leap {
        day: 21000,
        offset: 36,
    },
    Leap {
        day: 21550,
        offset: 37,
    },
];

// The UTC reading of a TAI second.
#[tactic(auto, using(crate::proofs::Cover::reading_low, base::proofs::Signed::lower_at, base::proofs::Signed::back), unfolding(crate::specs::Utc::utc_of_second))]
pub fn utc_of_second(sec: i64) -> Result<Utc, Refusal>
    ensures { said result ≡ utc_of_second builtin sec }
{
    let Reading {
        day,
        second,
        offset,
    } = reading_of(sec)?;
    Ok(Utc {
        day: base::lowered(day + calendar::DAY_BIAS),
        second,
        offset: base::lowered(offset + OFFSET_BIAS),
    })
}

// The TAI second of a second of a UTC day.
#[tactic(auto, using(base::proofs::Signed::back, crate::proofs::Cover::days_in, crate::proofs::Cover::utc_over, crate::proofs::Cover::utc_in, crate::proofs::Cover::utc_out))]
pub fn second_of_utc(day: i64, second: u64) -> Result<i64, Refusal>
    ensures { said result ≡ second_of_utc builtin day second }
{
    if 86400 < second {
        return Err(Refusal::Field);
    }
    let Some(n) = base::seated(FIRST_DAY, LAST_DAY, day) else {
        return Err(Refusal::Uncovered);
    };
    second_of(n + FIRST_INDEX, second)
}

// The UTC reading of a TAI second, with the day's index.
#[tactic(auto, using(base::proofs::Signed::back, crate::proofs::Cover::seconds_in, crate::proofs::Cover::reading_in, crate::proofs::Cover::reading_out))]
pub fn reading_of(sec: i64) -> Result<Reading, Refusal>
    ensures { said result ≡ reading_of builtin sec }
{
    let Some(n) = base::seated(FIRST_SECOND, LAST_SECOND, sec) else {
        return Err(Refusal::Uncovered);
    };
    Ok(CoveredSecond {
        raised: n + FIRST_RAISED,
    }
    .reading())
}

#[tactic(auto, using(crate::proofs::Cover::second_low, base::proofs::Signed::lower_at), unfolding(crate::specs::Utc::second_of))]
pub fn second_of(day: u64, second: u64) -> Result<i64, Refusal>
    ensures { said result ≡ second_of builtin day second }
{
    Ok(base::lowered(second_at(day, second)? + SECOND_BIAS))
}

// The raised TAI second of a second of a day.
#[tactic(auto, unfolding(crate::specs::Table::second_at))]
pub fn second_at(day: u64, second: u64) -> Result<u64, Refusal>
    ensures { said result ≡ second_at builtin day second }
{
    if 86400 < second {
        return Err(Refusal::Field);
    }
    let covered = CoveredDay::new(day)?;
    let row = covered.row();
    if second == 86400 && covered.day(row).length == 86400 {
        return Err(Refusal::NoSuchSecond);
    }
    Ok(covered.index * 86400 + second + row.offset())
}

// The reading of a raised TAI second.
#[tactic(auto, using(crate::proofs::Builtin::second_in_lem, crate::proofs::Builtin::second_under, crate::proofs::Builtin::second_over), unfolding(crate::specs::Table::reading_at))]
pub fn reading_at(s: u64) -> Result<Reading, Refusal>
    ensures { said result ≡ reading_at builtin s }
{
    if (FIRST_RAISED..PAST_RAISED).contains(&s) {
        Ok(CoveredSecond { raised: s }.reading())
    } else {
        Err(Refusal::Uncovered)
    }
}

// A covered day, by its index.
#[tactic(auto, unfolding(crate::specs::Table::day_at))]
pub fn day_at(day: u64) -> Result<Day, Refusal>
    ensures { said result ≡ day_at builtin day }
{
    let covered = CoveredDay::new(day)?;
    Ok(covered.day(covered.row()))
}

impl CoveredDay {
    #[tactic(auto, using(crate::proofs::Builtin::day_in_lem, crate::proofs::Builtin::day_under, crate::proofs::Builtin::day_over))]
    fn new(index: u64) -> Result<Self, Refusal>
        ensures { says (λ d. d.index) result ≡ need (covers builtin index) 5 (done index) }
    {
        if (FIRST_INDEX..PAST_INDEX).contains(&index) {
            Ok(Self { index })
        } else {
            Err(Refusal::Uncovered)
        }
    }

    // The row in force. No offset is over 101: by then each row whose day has come has begun.
    fn row(self) -> RowNumber
        ensures { OnDay builtin self.index result.number }
    {
        CoveredSecond {
            raised: self.index * 86400 + LAST_OFFSET,
        }
        .row()
    }

    // The day, on which that row is in force. It is an ordinary one, unless the row ends with it and the next has
    // another offset.
    fn day(self, row: RowNumber) -> Day
        requires { OnDay builtin self.index row.number }
        ensures { result ≡ day_on builtin self.index }
    {
        let offset = row.offset();
        let end = row.end();
        let length = if self.index + 1 == end.day {
            86400 + end.offset - offset
        } else {
            86400
        };
        Day {
            start: self.index * 86400 + offset,
            length,
        }
    }
}

impl CoveredSecond {
    fn reading(self) -> Reading
        ensures { result ≡ reading builtin (day_holding builtin self.raised) (self.raised - start builtin (day_holding builtin self.raised)) }
    {
        let row = self.row();
        let offset = row.offset();
        let day = (self.raised - offset) / 86400;
        let second = (self.raised - offset) % 86400;
        if second == 0 && row.end().day == day {
            // 23:59:60 stands in its own day
            return Reading {
                day: day - 1,
                second: 86400,
                offset,
            };
        }
        Reading {
            day,
            second,
            offset,
        }
    }

    // The row in force: its number is how many later rows have begun. Most seconds that are asked for are in the last
    // row.
    fn row(self) -> RowNumber
        ensures { InSecond builtin self.raised result.number }
    {
        if LAST_ROW_BEGINS <= self.raised {
            return RowNumber { number: LAST_ROW };
        }
        let rows = LEAPS;
        // from 1958-01-01, as the rows are
        let t = (self.raised - SECOND_RAISE) as u32;
        // all are counted, and in 32 bits: so it compiles without a branch
        let mut begun: u32 = 0;
        for leap in &rows[1..] {
            begun += (leap.begin() <= t) as u32;
        }
        RowNumber {
            number: begun as usize,
        }
    }
}

impl RowNumber {
    // Each row adds one.
    #[tactic(auto, using(crate::proofs::Rule::offset_at))]
    fn offset(self) -> u64
        ensures { result ≡ (row_at builtin self.number).offset }
    {
        self.number as u64 + 74
    }

    // What ends the row: the next row, or the first day past the cover.
    fn end(self) -> Row
        ensures { (result ≡ end_at builtin self.number) × Small result }
    {
        if self.number == LAST_ROW {
            return Row {
                day: PAST_INDEX,
                offset: LAST_OFFSET,
            };
        }
        let Leap { day, offset } = LEAPS[self.number + 1];
        Row {
            day: day as u64 + DAY_RAISE,
            offset: offset as u64 + OFFSET_RAISE,
        }
    }
}

impl Leap {
    // When it begins, in seconds from 1958-01-01.
    fn begin(self) -> u32
        requires { self.day < 30000 }
        ensures { result ≡ self.day * 86400 + self.offset }
    {
        self.day as u32 * 86400 + self.offset as u32
    }
}
