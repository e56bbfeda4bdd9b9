// Records and spans.
ghost use Rattle.std.specs.Prelude.{◌≡◌};
ghost use Rattle.base.specs.Outcome.{status, cell};
ghost use Rattle.scale.specs.Time.{difference_of, shift_of};
ghost use Rattle.honigzange.specs.Cells.{time, sec_of, ticks_of};

use crate::value_of;
use scale::{Record, Span};

// a - b
#[unsafe(no_mangle)]
pub extern "C" fn hz_difference(
    a_sec: i64,
    a_ticks: u64,
    b_sec: i64,
    b_ticks: u64,
    sec: &mut i64,
    ticks: &mut u64,
) -> u8
    ensures answer { result ≡ status (difference_of (time a_sec a_ticks) (time b_sec b_ticks)) }
    ensures seconds { sec.new ≡ cell sec_of (difference_of (time a_sec a_ticks) (time b_sec b_ticks)) sec.old }
    ensures parts { ticks.new ≡ cell ticks_of (difference_of (time a_sec a_ticks) (time b_sec b_ticks)) ticks.old }
{
    let a = Record {
        sec: a_sec,
        ticks: a_ticks,
    };
    let b = Record {
        sec: b_sec,
        ticks: b_ticks,
    };
    let span = value_of!(scale::difference(a, b));
    *sec = span.sec;
    *ticks = span.ticks;
    0
}

// r + s
#[unsafe(no_mangle)]
pub extern "C" fn hz_shift(
    sec: i64,
    ticks: u64,
    by_sec: i64,
    by_ticks: u64,
    to_sec: &mut i64,
    to_ticks: &mut u64,
) -> u8
    ensures answer { result ≡ status (shift_of (time sec ticks) (time by_sec by_ticks)) }
    ensures seconds { to_sec.new ≡ cell sec_of (shift_of (time sec ticks) (time by_sec by_ticks)) to_sec.old }
    ensures parts { to_ticks.new ≡ cell ticks_of (shift_of (time sec ticks) (time by_sec by_ticks)) to_ticks.old }
{
    let r = Record { sec, ticks };
    let s = Span {
        sec: by_sec,
        ticks: by_ticks,
    };
    let shifted = value_of!(scale::shift(r, s));
    *to_sec = shifted.sec;
    *to_ticks = shifted.ticks;
    0
}
