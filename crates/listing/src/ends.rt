// The two ends of a window of records, for moments that share one tick count.
ghost use Rattle.std.specs.Prelude.{◌≡◌, ◌^◌};
ghost use Rattle.scale.specs.Answers.{recorded};
ghost use Rattle.scale.specs.Inner.{Within};
ghost use Rattle.listing.specs.Records.{start_at};
ghost use Rattle.listing.specs.Ends.{ends_of};
ghost use Rattle.base.specs.Said.{said};

use base::Refusal;
use scale::Record;

// The seconds, raised by 2^41, from which on and before which a moment with the tick count is in the window.
#[derive(Clone, Copy)]
pub struct Ends {
    pub start: u64,
    pub end: u64,
}

// Both must be records, and the end not before the start.
pub fn at_tick(from: Record, to: Record, ticks: u64) -> Result<Ends, Refusal>
    ensures { said result ≡ ends_of (recorded from) (recorded to) ticks }
{
    if !from.valid() {
        return Err(Refusal::Range);
    }
    if !to.valid() {
        return Err(Refusal::Range);
    }
    if scale::before(to, from) {
        return Err(Refusal::Window);
    }
    Ok(Ends {
        start: start(from, ticks),
        end: start(to, ticks),
    })
}

// The first second, raised by 2^41, whose moment with the tick count is not before r.
fn start(r: Record, ticks: u64) -> u64
    requires { Within (2 ^ 41) (recorded r) }
    ensures { result ≡ start_at (2 ^ 41) ticks (recorded r) }
{
    let sec = r.raised() - base::RECORD_BIAS;
    if ticks < r.ticks { sec + 1 } else { sec }
}
