// Drift: the exact rate between two pairs of an onboard and a ground record, and the extremes over a run of pairs.
#![tactic(auto)]

ghost use Rattle.std.specs.Prelude.{◌≡◌, ◌&&◌, ◌+◌, ◌*◌, ◌/◌, ◌^◌, ◌<◌, ◌≤◌, ltb, map};
ghost use Rattle.std.specs.Int.{IsGcd};
ghost use Rattle.scale.specs.Time.{is_record};
ghost use Rattle.scale.specs.Answers.{recorded};
ghost use Rattle.drift.specs.Fraction.{Lowest};
ghost use Rattle.drift.specs.Rate.{step, on_grid, quotient_of};
ghost use Rattle.drift.specs.Run.{report_of};
ghost use Rattle.drift.specs.Answers.{paired, pair_in, fraction, says_rate, Rates, Reports};
ghost use Rattle.drift.specs.Steps.{most};

use base::Refusal;
use scale::Record;

// An onboard record, and the ground record that it is paired with.
#[derive(Clone, Copy)]
pub struct Pair {
    pub onboard: Record,
    pub ground: Record,
}

// Onboard elapsed over ground elapsed, in lowest terms: 0 is 0/1.
#[derive(Clone, Copy, Debug, PartialEq, Eq)]
pub struct Rate {
    pub num: i64,
    pub den: u64,
}

// A rate of a run, and its first place among all neighbouring twos, from 0.
#[derive(Clone, Copy, Debug, PartialEq, Eq)]
pub struct Extreme {
    pub place: usize,
    pub rate: Rate,
}

// Over the neighbouring twos of a run: how many have a rate, how many are refused 7, 10 and 11, and the extremes.
#[derive(Clone, Copy, Debug, PartialEq, Eq)]
pub struct Report {
    pub rates: usize,
    pub range: usize,
    pub not_elapsed: usize,
    pub off_grid: usize,
    pub smallest: Option<Extreme>,
    pub largest: Option<Extreme>,
}

// The rate from one pair to another.
pub fn rate_between(first: Pair, second: Pair) -> Result<Rate, Refusal>
    ensures { Rates (quotient_of (paired first) (paired second)) (says_rate result) }
{
    let quotient = Quotient::between(first.judged(), second.judged())?;
    Ok(quotient.lowest())
}

// The report on a run of pairs: of each row the onboard seconds and ticks, then the ground seconds and ticks.
pub fn report_on(run: &[[i64; 4]]) -> Report
    ensures { Reports (report_of (map pair_in run.now)) result }
{
    let mut tally = Tally::default();
    let Some((first, rest)) = run.split_first() else {
        return tally.report();
    };
    let mut held = Pair::from(*first).judged();
    for (place, row) in rest.iter().enumerate() {
        let next = Pair::from(*row).judged();
        tally.note(place, Quotient::between(held, next));
        held = next;
    }
    tally.report()
}

impl From<[i64; 4]> for Pair {
    ghost from_gives = { λ row pair. paired pair ≡ pair_in row };

    fn from(row: [i64; 4]) -> Pair {
        let [onboard_sec, onboard_ticks, ground_sec, ground_ticks] = row;
        Pair {
            onboard: Record {
                sec: onboard_sec,
                ticks: base::unsigned(onboard_ticks),
            },
            ground: Record {
                sec: ground_sec,
                ticks: base::unsigned(ground_ticks),
            },
        }
    }
}

impl Pair {
    ghost use Rattle.drift.specs.Inner.{of_both};

    // Both records at once, with `&`: a branch between them is slower.
    fn valid(self) -> bool
        ensures { result ≡ of_both is_record (paired self) }
    {
        self.onboard.valid() & self.ground.valid()
    }

    fn on_grid(self) -> bool
        ensures { result ≡ of_both on_grid (paired self) }
    {
        on_grid(self.onboard) & on_grid(self.ground)
    }

    fn judged(self) -> Judged
        ensures { result.pair ≡ self }
    {
        Judged {
            pair: self,
            onboard_steps: self.onboard.ticks / STEP_TICKS,
            ground_steps: self.ground.ticks / STEP_TICKS,
            valid: self.valid(),
            gridded: self.on_grid(),
        }
    }
}

fn on_grid(r: Record) -> bool
    ensures { result ≡ on_grid (recorded r) }
{
    r.ticks % STEP_TICKS == 0
}

// Why two pairs have no rate: document 01's refusal, and the two that document 02 adds. An enum of its own, so that the
// tally has a case for each and no other.
#[derive(Clone, Copy)]
enum NoRate {
    OutOfRange,
    NotElapsed,
    OffGrid,
}

impl From<NoRate> for Refusal {
    ghost use Rattle.base.specs.Refusals.{number};
    ghost use Rattle.drift.specs.Inner.{number_for};

    ghost from_gives = { λ why refusal. number refusal ≡ number_for why };

    fn from(why: NoRate) -> Refusal {
        match why {
            NoRate::OutOfRange => Refusal::Range,
            NoRate::NotElapsed => Refusal::NotElapsed,
            NoRate::OffGrid => Refusal::OffGrid,
        }
    }
}

// What a run has come to so far. Its extremes are lowered only when they are told.
#[derive(Clone, Copy, Default)]
struct Tally {
    rates: usize,
    range: usize,
    not_elapsed: usize,
    off_grid: usize,
    smallest: Option<Best>,
    largest: Option<Best>,
}

// As Extreme, which is public, with its rate as it is compared.
#[derive(Clone, Copy)]
struct Best {
    place: usize,
    rate: Mixed,
}

impl Tally {
    ghost use Rattle.base.specs.Outcome.{done};
    ghost use Rattle.drift.specs.Inner.{counted, says_tally, noted_of, quotient_as, says_quotient};

    // With one two more, at a place.
    fn note(&mut self, place: usize, two: Result<Quotient, NoRate>)
        requires { counted self.old + 1 < 2 ^ 64 }
        ensures one_more { counted self.new ≡ counted self.old + 1 }
        ensures noted { says_tally self.new ≡ noted_of (says_tally self.old) place (says_quotient two) }
    {
        match two {
            Ok(quotient) => self.add(place, quotient),
            Err(NoRate::OutOfRange) => self.range += 1,
            Err(NoRate::NotElapsed) => self.not_elapsed += 1,
            Err(NoRate::OffGrid) => self.off_grid += 1,
        }
    }

    // With one rate more, at a place. Called, and not put in place: the twos that have no rate are then noted faster.
    #[inline(never)]
    fn add(&mut self, place: usize, quotient: Quotient)
        requires { counted self.old + 1 < 2 ^ 64 }
        ensures one_more { counted self.new ≡ counted self.old + 1 }
        ensures noted { says_tally self.new ≡ noted_of (says_tally self.old) place (done (quotient_as quotient)) }
    {
        self.rates += 1;
        let rate = Mixed::from(quotient);
        let found = Some(Best { place, rate });
        if self.smallest.is_none_or(|best| rate.before(best.rate)) {
            self.smallest = found;
        }
        if self.largest.is_none_or(|best| best.rate.before(rate)) {
            self.largest = found;
        }
    }

    fn report(self) -> Report
        ensures { Reports (says_tally self) result }
    {
        Report {
            rates: self.rates,
            range: self.range,
            not_elapsed: self.not_elapsed,
            off_grid: self.off_grid,
            smallest: self.smallest.map(|best| best.told()),
            largest: self.largest.map(|best| best.told()),
        }
    }
}

impl Best {
    ghost use Rattle.drift.specs.Inner.{quotient_as};

    fn told(self) -> Extreme
        ensures place { result.place ≡ self.place }
        ensures rate { Lowest (quotient_as self.rate.quotient) (fraction result.rate) }
    {
        Extreme {
            place: self.place,
            rate: self.rate.quotient.lowest(),
        }
    }
}

// The grid of 2^-24 s: its steps in a second, and the ticks of a step.
const STEPS: u64 = 1 << 24;

const STEP_TICKS: u64 = Record::TICKS / STEPS;

// An elapsed time is less than LIMIT seconds in size, and so at most MOST steps. It is held raised by MOST, and never negative.
const LIMIT: u64 = 1 << 32;

const MOST: u64 = LIMIT * STEPS - 1;

// A record's seconds, raised by 2^63, and its whole steps of the grid after them.
#[derive(Clone, Copy)]
struct Mark {
    sec: u64,
    steps: u64,
    ghost low: { 2 ^ 63 ≤ sec + 2 ^ 41 },
    ghost high: { sec < 2 ^ 63 + 2 ^ 41 },
    ghost few: { steps < 2 ^ 24 },
}

impl Mark {
    ghost use Rattle.std.specs.Prelude.{true};
    ghost use Rattle.drift.specs.Inner.{Marked, apart, Elapses};

    // Of a record, with its whole steps.
    fn of(r: Record, steps: u64) -> Mark
        requires record { is_record (recorded r) ≡ true }
        requires whole { steps ≡ r.ticks / step }
        ensures { Marked (recorded r) result }
    {
        Mark {
            sec: r.raised(),
            steps,
        }
    }

    // The steps from here to another mark, where they are less than 2^32 s: raised by MOST.
    #[tactic(auto, using(crate::proofs::Apart::too_early, crate::proofs::Apart::too_late))]
    fn steps_to(self, to: Mark) -> Option<u64>
        ensures { Elapses (apart self to) result }
    {
        // seconds, raised by LIMIT; compared, since `checked_sub` is slower
        let end = to.sec + LIMIT;
        if end < self.sec {
            return None;
        }
        let sec = end - self.sec;
        if 2 * LIMIT < sec {
            return None;
        }
        // steps, raised by MOST
        let end = sec * STEPS + to.steps;
        if end <= self.steps {
            return None;
        }
        let steps = end - self.steps - 1;
        if 2 * MOST < steps {
            return None;
        }
        Some(steps)
    }
}

// Where a pair of records stands.
#[derive(Clone, Copy)]
struct Marks {
    onboard: Mark,
    ground: Mark,
}

// A pair, the whole steps of its ticks, whether both records are valid, and whether both are on the grid. Flags, and numbers
// that any pair has: an Option with the marks in it is slower.
#[derive(Clone, Copy)]
struct Judged {
    pair: Pair,
    onboard_steps: u64,
    ground_steps: u64,
    valid: bool,
    gridded: bool,
    ghost onboard: { onboard_steps ≡ pair.onboard.ticks / step },
    ghost ground: { ground_steps ≡ pair.ground.ticks / step },
    ghost records: { valid ≡ is_record (recorded pair.onboard) && is_record (recorded pair.ground) },
    ghost grid: { gridded ≡ on_grid (recorded pair.onboard) && on_grid (recorded pair.ground) },
}

impl Judged {
    ghost use Rattle.std.specs.Prelude.{true};
    ghost use Rattle.drift.specs.Inner.{Stands};

    // Where it stands, if it is valid.
    fn marks(self) -> Marks
        requires { self.valid ≡ true }
        ensures { Stands (paired self.pair) result }
    {
        Marks {
            onboard: Mark::of(self.pair.onboard, self.onboard_steps),
            ground: Mark::of(self.pair.ground, self.ground_steps),
        }
    }
}

impl Marks {
    ghost use Rattle.drift.specs.Steps.{rated};
    ghost use Rattle.drift.specs.Inner.{apart, says_quotient};

    #[tactic(auto, using(crate::proofs::Quotients::no_onboard, crate::proofs::Quotients::no_ground))]
    fn quotient_to(self, to: Marks) -> Result<Quotient, NoRate>
        ensures { says_quotient result ≡ rated (apart self.onboard to.onboard) (apart self.ground to.ground) }
    {
        let onboard = self.onboard.steps_to(to.onboard).ok_or(NoRate::OutOfRange)?;
        let ground = self.ground.steps_to(to.ground).ok_or(NoRate::OutOfRange)?;
        // zero or negative, raised
        if ground <= MOST {
            return Err(NoRate::NotElapsed);
        }
        Ok(Quotient {
            num: onboard,
            den: ground - MOST,
        })
    }
}

// The quotient of two elapsed times in steps: onboard, raised by MOST, over ground.
#[derive(Clone, Copy)]
struct Quotient {
    num: u64,
    den: u64,
    ghost few: { num ≤ 2 * most },
    ghost some: { 0 < den },
}

impl Quotient {
    ghost use Rattle.drift.specs.Inner.{says_quotient, quotient_as};

    // Of two judged pairs: an invalid record of either comes before one off the grid.
    fn between(first: Judged, second: Judged) -> Result<Quotient, NoRate>
        ensures { says_quotient result ≡ quotient_of (paired first.pair) (paired second.pair) }
    {
        if !(first.valid & second.valid) {
            return Err(NoRate::OutOfRange);
        }
        if !(first.gridded & second.gridded) {
            return Err(NoRate::OffGrid);
        }
        first.marks().quotient_to(second.marks())
    }

    // In lowest terms.
    fn lowest(self) -> Rate
        ensures { Lowest (quotient_as self) (fraction result) }
    {
        let size = self.num.abs_diff(MOST);
        let divisor = gcd(size, self.den);
        let part = size / divisor;
        let zero = base::raised(0);
        Rate {
            num: base::lowered(if self.num < MOST {
                zero - part
            } else {
                zero + part
            }),
            den: self.den / divisor,
        }
    }
}

// A quotient with its whole part, taken downward and raised by MOST, and what is left of the onboard steps above that.
#[derive(Clone, Copy)]
struct Mixed {
    quotient: Quotient,
    whole: u64,
    rest: u64,
    ghost left: { rest < quotient.den },
    ghost exact: { quotient.num + most * quotient.den ≡ whole * quotient.den + rest + most },
}

impl From<Quotient> for Mixed {
    ghost from_gives = { λ quotient mixed. mixed.quotient ≡ quotient };

    fn from(quotient: Quotient) -> Mixed {
        let ground = quotient.den;
        if quotient.num < MOST {
            // -(n + 1) over ground goes down to -(n / ground) - 1
            let n = MOST - 1 - quotient.num;
            let whole = MOST - 1 - n / ground;
            return Mixed {
                quotient,
                whole,
                rest: ground - 1 - n % ground,
            };
        }
        let n = quotient.num - MOST;
        Mixed {
            quotient,
            whole: MOST + n / ground,
            rest: n % ground,
        }
    }
}

impl Mixed {
    ghost use Rattle.drift.specs.Fraction.{below};
    ghost use Rattle.drift.specs.Inner.{quotient_as};

    // Whether this is less than another: by their whole parts, then by what is left, which needs no division over one denominator.
    // No Ord: it asks for equality as well, which takes another such recursion, and nothing here asks that.
    #[tactic(auto, using(crate::proofs::Wholes::wholes, crate::proofs::Wholes::evens, crate::proofs::Wholes::rests))]
    fn before(self, other: Mixed) -> bool
        ensures { result ≡ below (quotient_as self.quotient) (quotient_as other.quotient) }
    {
        if self.whole != other.whole {
            return self.whole < other.whole;
        }
        let mine = self.quotient.den;
        let yours = other.quotient.den;
        if mine == yours {
            return self.rest < other.rest;
        }
        less(self.rest, mine, other.rest, yours)
    }
}

// Whether an/ad is less than bn/bd: by the whole parts of both turned over, then by the remainders.
#[tactic(auto, using(crate::proofs::Turned::turned, crate::proofs::Turned::turned_rest))]
fn less(an: u64, ad: u64, bn: u64, bd: u64) -> bool
    requires { 0 < ad }
    ensures { result ≡ ltb (an * bd) (bn * ad) }
{
    if an == 0 || bn == 0 {
        return an < bn;
    }
    let wa = ad / an;
    let wb = bd / bn;
    if wa != wb {
        return wb < wa;
    }
    less(bd % bn, bn, ad % an, an)
}

// The greatest number that divides both: that of the second and what is left of the first.
fn gcd(a: u64, b: u64) -> u64
    ensures { IsGcd a b result }
{
    if b == 0 {
        return a;
    }
    gcd(b, a % b)
}
