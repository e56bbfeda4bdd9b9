// ASCII codes as records: read and written by the leap second table.
ghost use Rattle.std.specs.Prelude.{◌≡◌};
ghost use Rattle.base.specs.Outcome.{and_then};
ghost use Rattle.scale.specs.Answers.{recorded, says_record};
ghost use Rattle.octets.specs.Writes.{roomed, Wrote};
ghost use Rattle.leap.specs.Builtin.{builtin};
ghost use Rattle.codes.specs.Text.{text_of, letters};

use ascii::Layout;
use base::Refusal;
use scale::Record;

// Reads a code, which is the whole slice.
pub fn read(s: &[u8]) -> Result<Record, Refusal>
    ensures { says_record result ≡ text_of builtin s.now }
{
    utc::timed(ascii::read(s))
}

// Writes a code from `at` on: the bytes before and after it stay, and a refusal leaves all. The layout is judged before
// the table.
#[tactic(auto, unfolding(crate::specs::Text::letters))]
pub fn write(r: Record, l: Layout, out: &mut [u8], at: usize) -> Result<usize, Refusal>
    ensures { Wrote (and_then (letters builtin l (recorded r)) (roomed out.old at)) at out.old out.new result }
{
    if !r.valid() {
        return Err(Refusal::Range);
    }
    if !ascii::is_layout(l) {
        return Err(Refusal::Unsupported);
    }
    ascii_write::write(utc::moment_of(r)?, l, out, at)
}
