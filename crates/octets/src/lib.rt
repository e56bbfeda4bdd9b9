// Big-endian counts, BCD octets and decimal digits, read from bytes and stored into them.
#![tactic(auto)]

ghost use Rattle.std.specs.Prelude.{◌≡◌, Bool, cond, Ok, Err, ℕ, ◌+◌, ◌^◌, ◌<◌, ◌≤◌, leb, length};
ghost use Rattle.std.proofs.Common.{lit≤};
ghost use Rattle.base.specs.declared.Refusal.TheVariants.{Field};
ghost use Rattle.octets.specs.Places.{places, octets, octet_value, octet_of, octet_good, bcd, bcd_value, bcd_element, bcd_good, digits, digit_value, digit_of, digit_good};
ghost use Rattle.octets.specs.Counts.{count_of, count_at, bcd_at, decimal_at};
ghost use Rattle.octets.specs.Stores.{Stored};
ghost use Rattle.octets.specs.Powers.{power_in};
ghost use Rattle.octets.specs.Rules.{Rule, octet_rule, bcd_rule, digit_rule};

use base::Refusal;

// A kind of element: each good element has a value below the base, and each value its element.
trait Place {
    const BASE: u64;

    // The widest of which every number is a u64.
    const WIDEST: usize;

    ghost BASE: { ℕ };

    ghost WIDEST: { ℕ };

    ghost value: { ℕ → ℕ };

    ghost element: { ℕ → ℕ };

    ghost good: { ℕ → Bool };

    fn value(x: u8) -> Result<u64, Refusal>
        ensures { result ≡ cond (good x) (Ok (value x)) (Err Field) };

    fn element(d: u64) -> u8
        requires { d < BASE }
        ensures { result ≡ element d };

    ghost rule: { Rule BASE value element good };

    ghost fits: { BASE ^ WIDEST ≤ 2 ^ 64 };
}

// An octet of a big-endian count.
struct InOctets;

impl Place for InOctets {
    const BASE: u64 = 256;

    const WIDEST: usize = 8;

    ghost BASE = { 256 };

    ghost WIDEST = { 8 };

    ghost value = { octet_value };

    ghost element = { octet_of };

    ghost good = { octet_good };

    fn value(x: u8) -> Result<u64, Refusal> {
        Ok(u64::from(x))
    }

    fn element(d: u64) -> u8 {
        d as u8
    }

    ghost rule = { octet_rule };

    ghost fits = { lit≤ tt };
}

// Two decimal digits in an octet.
struct InBcd;

impl Place for InBcd {
    const BASE: u64 = 100;

    const WIDEST: usize = 9;

    ghost BASE = { 100 };

    ghost WIDEST = { 9 };

    ghost value = { bcd_value };

    ghost element = { bcd_element };

    ghost good = { bcd_good };

    fn value(x: u8) -> Result<u64, Refusal> {
        let high = x / 16;
        let low = x % 16;
        if high <= 9 && low <= 9 {
            Ok(u64::from(high * 10 + low))
        } else {
            Err(Refusal::Field)
        }
    }

    fn element(d: u64) -> u8 {
        let pair = d as u8;
        pair / 10 * 16 + pair % 10
    }

    ghost rule = { bcd_rule };

    ghost fits = { lit≤ tt };
}

// A decimal digit in ASCII.
struct InDigits;

impl Place for InDigits {
    const BASE: u64 = 10;

    const WIDEST: usize = 19;

    ghost BASE = { 10 };

    ghost WIDEST = { 19 };

    ghost value = { digit_value };

    ghost element = { digit_of };

    ghost good = { digit_good };

    fn value(x: u8) -> Result<u64, Refusal> {
        if x.is_ascii_digit() {
            Ok(u64::from(x) - 48)
        } else {
            Err(Refusal::Field)
        }
    }

    fn element(d: u64) -> u8 {
        48 + d as u8
    }

    ghost rule = { digit_rule };

    ghost fits = { lit≤ tt };
}

// The number in w elements from `at` on.
fn read<P: Place>(s: &[u8], at: usize, w: usize) -> Result<u64, Refusal>
    ensures { result ≡ count_of P.BASE P.value P.good P.WIDEST s.now at w }
{
    if P::WIDEST < w || !fits(s.len(), at, w) {
        return Err(Refusal::Short);
    }
    let mut n = 0;
    for x in &s[at..at + w] {
        let d = P::value(*x)?;
        n = n * P::BASE + d;
    }
    Ok(n)
}

// Stores the last w elements of n from `at` on where there is room, and says whether there is.
fn put<P: Place>(out: &mut [u8], at: usize, w: usize, n: u64) -> bool
    ensures { Stored (places P.BASE P.element w n) at out.old out.new result }
{
    if !fits(out.len(), at, w) {
        return false;
    }
    let mut left = n;
    // by the index: of what `iter_mut().rev()` has written a proof knows nothing
    for i in (at..at + w).rev() {
        out[i] = P::element(left % P::BASE);
        left /= P::BASE;
    }
    true
}

// The number in w octets from `at` on.
pub fn count(s: &[u8], at: usize, w: usize) -> Result<u64, Refusal>
    ensures { result ≡ count_at s.now at w }
{
    read::<InOctets>(s, at, w)
}

// The number in w BCD octets from `at` on, two digits each.
pub fn bcd(s: &[u8], at: usize, w: usize) -> Result<u64, Refusal>
    ensures { result ≡ bcd_at s.now at w }
{
    read::<InBcd>(s, at, w)
}

// The number in w ASCII digits from `at` on.
pub fn decimal(s: &[u8], at: usize, w: usize) -> Result<u64, Refusal>
    ensures { result ≡ decimal_at s.now at w }
{
    read::<InDigits>(s, at, w)
}

// Stores the last w octets of n from `at` on where there is room, and says whether there is. It asks nothing of its caller,
// and so it answers, though who has looked for room passes the answer over.
pub fn put_count(out: &mut [u8], at: usize, w: usize, n: u64) -> bool
    ensures { Stored (octets w n) at out.old out.new result }
{
    put::<InOctets>(out, at, w, n)
}

// The same of the last 2w digits of n, as w BCD octets.
pub fn put_bcd(out: &mut [u8], at: usize, w: usize, n: u64) -> bool
    ensures { Stored (bcd w n) at out.old out.new result }
{
    put::<InBcd>(out, at, w, n)
}

// The same of the last w digits of n, in ASCII.
pub fn put_decimal(out: &mut [u8], at: usize, w: usize, n: u64) -> bool
    ensures { Stored (digits w n) at out.old out.new result }
{
    put::<InDigits>(out, at, w, n)
}

// Whether w elements from `at` on lie within a length.
pub fn fits(len: usize, at: usize, w: usize) -> bool
    ensures { result ≡ leb (at + w) len }
{
    at <= len && w <= len - at
}

// 256^k, or 0 from 256^8 on, which is no u64 (and no Option: a public function that can not fail may not begin to).
pub fn power256(k: usize) -> u64
    ensures { result ≡ power_in 256 8 k }
{
    if k < 8 { 1 << (8 * k) } else { 0 }
}

// A table, since 10u64.pow(k) takes more than twice as long.
const POWERS_OF_10: [u64; 20] = [
    1,
    10,
    100,
    1_000,
    10_000,
    100_000,
    1_000_000,
    10_000_000,
    100_000_000,
    1_000_000_000,
    10_000_000_000,
    100_000_000_000,
    1_000_000_000_000,
    10_000_000_000_000,
    100_000_000_000_000,
    1_000_000_000_000_000,
    10_000_000_000_000_000,
    100_000_000_000_000_000,
    1_000_000_000_000_000_000,
    10_000_000_000_000_000_000,
];

// 10^k, or 0 from 10^20 on, which is no u64.
pub fn power10(k: usize) -> u64
    ensures { result ≡ power_in 10 20 k }
{
    POWERS_OF_10.get(k).copied().unwrap_or(0)
}
