// The C interface: each call answers 0 or the number of a refusal, and writes behind its pointers only when it answers 0.
#![tactic(auto)]

// The value of an answer. A refusal ends the call, which answers its number: C has no Result, so `?` cannot stand here.
macro_rules! value_of {
    ($answer:expr) => {
        match $answer {
            Ok(value) => value,
            Err(why) => return why.number(),
        }
    };
}

pub(crate) use value_of;

mod binaries;
mod calendars;
mod drifts;
mod leaps;
mod listings;
mod preambles;
mod receivers;
mod scales;
mod texts;
