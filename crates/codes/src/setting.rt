// Settings: how a moment is to be written.
ghost use Rattle.scale.specs.Answers.{recorded};
ghost use Rattle.octets.specs.Writes.{Wrote};
ghost use Rattle.leap.specs.Builtin.{builtin};
ghost use Rattle.codes.specs.Setting.{written, wall_of};

use base::Refusal;
use pfield::PField;
use scale::Record;

// A P-field with epoch and whether it is written, or the layout of an ASCII code.
#[derive(Clone, Copy)]
pub enum Setting {
    Binary { p: PField, epoch: i64, front: bool },
    Ascii(ascii::Layout),
}

// The default setting: ASCII A, 3 digits, Z.
pub const DEFAULT: ascii::Layout = ascii::Layout {
    ordinal: false,
    digits: 3,
    zone: true,
};

// Writes a moment in a setting.
pub fn write(r: Record, setting: Setting, out: &mut [u8]) -> Result<usize, Refusal>
    ensures { Wrote (written builtin (recorded r) setting out.old) 0 out.old out.new result }
{
    match setting {
        Setting::Binary { p, epoch, front } => super::write_binary(r, p, epoch, front, out),
        Setting::Ascii(l) => super::text::write(r, l, out, 0),
    }
}

// The wall clock: a moment in the default setting.
pub fn write_wall(r: Record, out: &mut [u8]) -> Result<usize, Refusal>
    ensures { Wrote (wall_of builtin (recorded r) out.old) 0 out.old out.new result }
{
    super::text::write(r, DEFAULT, out, 0)
}
