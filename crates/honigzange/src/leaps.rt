// TAI seconds and UTC readings.
ghost use Rattle.std.specs.Prelude.{◌≡◌};
ghost use Rattle.base.specs.Outcome.{status, cell};
ghost use Rattle.leap.specs.Builtin.{builtin};
ghost use Rattle.leap.specs.Utc.{utc_of_second, second_of_utc};
ghost use Rattle.honigzange.specs.Cells.{itself, utc_day, utc_second, utc_offset};

use crate::value_of;

// The UTC reading of a TAI second.
#[unsafe(no_mangle)]
pub extern "C" fn hz_utc_of_second(
    sec: i64,
    day: &mut i64,
    second_of_day: &mut u64,
    offset: &mut i64,
) -> u8
    ensures answer { result ≡ status (utc_of_second builtin sec) }
    ensures days { day.new ≡ cell utc_day (utc_of_second builtin sec) day.old }
    ensures seconds { second_of_day.new ≡ cell utc_second (utc_of_second builtin sec) second_of_day.old }
    ensures offsets { offset.new ≡ cell utc_offset (utc_of_second builtin sec) offset.old }
{
    let utc = value_of!(leap::utc_of_second(sec));
    *day = utc.day;
    *second_of_day = utc.second;
    *offset = utc.offset;
    0
}

// The TAI second of a second of a UTC day.
#[unsafe(no_mangle)]
pub extern "C" fn hz_second_of_utc(day: i64, second_of_day: u64, sec: &mut i64) -> u8
    ensures answer { result ≡ status (second_of_utc builtin day second_of_day) }
    ensures seconds { sec.new ≡ cell itself (second_of_utc builtin day second_of_day) sec.old }
{
    *sec = value_of!(leap::second_of_utc(day, second_of_day));
    0
}
