// Where the P-field of a binary code is.
ghost use Rattle.std.specs.Prelude.{◌≡◌};
ghost use Rattle.pfield.specs.PField.{octet};
ghost use Rattle.codes.specs.Writing.{from};

use pfield::{PField, Preamble};

pub fn preamble_of(front: bool, p: u8) -> Preamble
    ensures { result ≡ from front (octet p) }
{
    if front {
        Preamble::Front
    } else {
        Preamble::Given(PField { octet: p })
    }
}
