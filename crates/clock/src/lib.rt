// The clock of a UTC day: hh:mm:ss, and the second of the day that it shows. 23:59:60 is second 86,400.
#![tactic(auto)]

ghost use Rattle.std.specs.Prelude.{◌≡◌};
ghost use Rattle.clock.specs.Clock.{clock_ok, clock_of, minute_of};
ghost use Rattle.base.specs.Said.{said};

use base::Refusal;

// Whether the fields of a clock are in their ranges; second 60 is good only at 23:59.
pub fn is_clock(h: u64, m: u64, s: u64) -> bool
    ensures { result ≡ clock_ok h m s }
{
    h < 24 && m < 60 && (s < 60 || s == 60 && h == 23 && m == 59)
}

// The second of the day that a clock shows.
pub fn second_of_day(h: u64, m: u64, s: u64) -> Result<u64, Refusal>
    ensures { said result ≡ clock_of h m s }
{
    if is_clock(h, m, s) {
        Ok(h * 3600 + m * 60 + s)
    } else {
        Err(Refusal::Field)
    }
}

// The minute of the day that a second of it belongs to: a second 60 belongs to the last.
pub fn minute_of(second: u64) -> u64
    ensures { result ≡ minute_of second }
{
    (second / 60).min(1439)
}
