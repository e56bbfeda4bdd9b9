// The one place where a code meets the leap second table: a moment of UTC and the record that it is.
#![tactic(auto)]

ghost use Rattle.std.specs.Prelude.{◌≡◌};
ghost use Rattle.scale.specs.Answers.{recorded, says_record};
ghost use Rattle.leap.specs.Builtin.{builtin};
ghost use Rattle.utc.specs.Reckoning.{time_of, moment_of, read_by};
ghost use Rattle.base.specs.Said.{said};

use base::Refusal;
use moment::Moment;
use scale::Record;

// What a code's fields say, by the table.
pub fn timed(a: Result<Moment, Refusal>) -> Result<Record, Refusal>
    ensures { says_record result ≡ read_by builtin (said a) }
{
    record_of(a?)
}

// The record of a moment.
#[tactic(auto, unfolding(crate::specs::Reckoning::time_of))]
pub fn record_of(m: Moment) -> Result<Record, Refusal>
    ensures { says_record result ≡ time_of builtin m }
{
    let sec = leap::second_of_utc(m.day, m.second)?;
    Ok(Record {
        sec,
        ticks: m.ticks,
    })
}

// The moment of a record, whether or not its ticks are a record's.
#[tactic(auto, unfolding(crate::specs::Reckoning::moment_of))]
pub fn moment_of(r: Record) -> Result<Moment, Refusal>
    ensures { said result ≡ moment_of builtin (recorded r) }
{
    let u = leap::utc_of_second(r.sec)?;
    Ok(Moment {
        day: u.day,
        second: u.second,
        ticks: r.ticks,
    })
}
