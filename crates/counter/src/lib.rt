// A counter with a period: what it names inside a window, listed. Seconds are raised by 2^41, so that a record's are
// natural numbers.
#![tactic(auto)]

ghost use Rattle.std.specs.Prelude.{◌^◌, ◌≤◌, ◌<◌};
ghost use Rattle.window.specs.Window.{Lists};
ghost use Rattle.counter.specs.Counter.{list_of};
ghost use Rattle.counter.specs.Inner.{left};

use base::Refusal;
use window::{Listed, Source};

// The largest number that is taken: what is before it and a period still make a sum of 64 bits.
const MOST: u64 = 1 << 63;

// The moments at, at + period, and so on, that are before `to`.
#[derive(Drop)]
struct Turns {
    at: u64,
    period: u64,
    to: u64,
    ghost some: { 0 < period },
    ghost short: { period ≤ 2 ^ 63 },
    ghost ends: { to ≤ 2 ^ 63 },
}

impl Source for Turns {
    ghost left = { λ s. left s.at s.period s.to };

    fn next(&mut self) -> Option<i64> {
        if self.to <= self.at {
            return None;
        }
        let moment = base::lowered(self.at + base::RECORD_BIAS);
        self.at += self.period;
        Some(moment)
    }
}

// Lists base + k * period, for every k from 0, from `from` on and before `to`.
pub fn list(
    base: u64,
    period: u64,
    from: u64,
    to: u64,
    ticks: u64,
    out: &mut [i64],
) -> Result<Listed, Refusal>
    ensures { Lists (list_of base period from to ticks) out.old out.new result }
{
    if !(1..=MOST).contains(&period) || MOST < base.max(from).max(to) {
        return Err(Refusal::Range);
    }
    let at = base + from.saturating_sub(base).div_ceil(period) * period;
    let listed = window::fill(Turns { at, period, to }, ticks, out);
    Ok(listed)
}
