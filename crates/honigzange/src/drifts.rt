// Drift: the rate between two pairs, and the report on a run of pairs.
ghost use Rattle.std.specs.Prelude.{◌≡◌, map};
ghost use Rattle.drift.specs.Rate.{quotient_of};
ghost use Rattle.drift.specs.Run.{report_of};
ghost use Rattle.drift.specs.Answers.{paired, pair_in};
ghost use Rattle.honigzange.specs.Cells.{pair, numbers_in};
ghost use Rattle.honigzange.specs.Calls as Contract;

use crate::value_of;
use drift::{Extreme, Pair};
use scale::Record;

// The rate from one pair to another.
#[unsafe(no_mangle)]
pub extern "C" fn hz_rate(
    onboard: i64,
    onboardticks: u64,
    ground: i64,
    groundticks: u64,
    onboardthen: i64,
    onboardthenticks: u64,
    groundthen: i64,
    groundthenticks: u64,
    num: &mut i64,
    den: &mut u64,
) -> u8
    ensures { Contract.RateCells (quotient_of (pair onboard onboardticks ground groundticks) (pair onboardthen onboardthenticks groundthen groundthenticks)) result num.old num.new den.old den.new }
{
    let first = pair_of(onboard, onboardticks, ground, groundticks);
    let second = pair_of(onboardthen, onboardthenticks, groundthen, groundthenticks);
    let rate = value_of!(drift::rate_between(first, second));
    *num = rate.num;
    *den = rate.den;
    0
}

fn pair_of(onboard: i64, onboardticks: u64, ground: i64, groundticks: u64) -> Pair
    ensures { paired result ≡ pair onboard onboardticks ground groundticks }
{
    Pair {
        onboard: Record {
            sec: onboard,
            ticks: onboardticks,
        },
        ground: Record {
            sec: ground,
            ticks: groundticks,
        },
    }
}

// The report on a run of pairs, into the ten numbers of its struct.
#[unsafe(no_mangle)]
pub extern "C" fn hz_rates(run: &[[i64; 4]], report: &mut [u64; 10]) -> u8
    ensures { Contract.ReportCells (report_of (map pair_in run.now)) result report.new }
{
    let told = drift::report_on(run);
    let low = numbers_in(told.smallest);
    let high = numbers_in(told.largest);
    *report = [
        told.rates as u64,
        told.range as u64,
        told.not_elapsed as u64,
        told.off_grid as u64,
        low[0],
        low[1],
        low[2],
        high[0],
        high[1],
        high[2],
    ];
    0
}

// An extreme as three numbers: the bits of its numerator, its denominator and its place.
fn numbers_in(e: Option<Extreme>) -> [u64; 3]
    ensures { result ≡ numbers_in e }
{
    match e {
        None => [0, 0, 0],
        Some(Extreme { place, rate }) => [base::unsigned(rate.num), rate.den, place as u64],
    }
}
