// What every crate stands on: the refusals of documents 01 and 02, and signed numbers carried to unsigned ones and back.
#![tactic(auto)]

ghost use Rattle.std.specs.Prelude.{◌≡◌, ◌^◌};
ghost use Rattle.base.specs.Refusals.{number};
ghost use Rattle.base.specs.Parts.{At, within, bits_of, signed_of};
ghost use Rattle.base.specs.Seats.{seat_of};

// Why a call is refused, each with its number: 1 to 9 of document 01, 10 and 11 of document 02.
#[derive(Clone, Copy, Debug, PartialEq, Eq)]
pub enum Refusal {
    Short = 1,
    Identification = 2,
    Unsupported = 3,
    Field = 4,
    Uncovered = 5,
    NoSuchSecond = 6,
    Range = 7,
    Room = 8,
    Window = 9,
    NotElapsed = 10,
    OffGrid = 11,
}

impl Refusal {
    // The document's number of a refusal.
    pub fn number(self) -> u8
        ensures { result ≡ number self }
    {
        self as u8
    }
}

// 2^63 less 2^41: how far a raised second is raised beyond one that is counted from the first second of a record.
pub const RECORD_BIAS: u64 = (1 << 63) - (1 << 41);

// 2^63: where raised numbers have 0.
const RAISED_ZERO: u64 = 1 << 63;

// z + 2^63, in the order of the signed numbers. All arithmetic on signed numbers is done on these.
pub fn raised(z: i64) -> u64
    ensures { At (2 ^ 63) result z }
{
    unsigned(z).wrapping_add(RAISED_ZERO)
}

// n - 2^63
pub fn lowered(n: u64) -> i64
    ensures { At (2 ^ 63) n result }
{
    of_bits(n.wrapping_sub(RAISED_ZERO))
}

// The bits of a signed number, read without a sign.
pub fn unsigned(z: i64) -> u64
    ensures { result ≡ bits_of z }
{
    z.cast_unsigned()
}

// The signed number of which these are the bits.
pub fn of_bits(n: u64) -> i64
    ensures { result ≡ signed_of n }
{
    n.cast_signed()
}

// lo <= z <= hi
pub fn between(lo: i64, hi: i64, z: i64) -> bool
    ensures { result ≡ within lo hi z }
{
    (lo..=hi).contains(&z)
}

// A number's place in a range, counted from the range's start.
pub fn seated(lo: i64, hi: i64, z: i64) -> Option<u64>
    ensures { result ≡ seat_of lo hi z }
{
    if between(lo, hi, z) {
        Some(z.abs_diff(lo))
    } else {
        None
    }
}
