// The binary codes, read and written.
ghost use Rattle.leap.specs.Builtin.{builtin};
ghost use Rattle.pfield.specs.PField.{octet};
ghost use Rattle.codes.specs.Reading.{scan_of};
ghost use Rattle.codes.specs.Writing.{write_of, from};
ghost use Rattle.honigzange.specs.Cells.{time};
ghost use Rattle.honigzange.specs.Calls as Contract;

use crate::value_of;
use pfield::PField;
use scale::Record;

// The moment of a binary code, and how many bytes the code takes.
#[unsafe(no_mangle)]
pub extern "C" fn hz_read_binary(
    bytes: &[u8],
    front: bool,
    p: u8,
    epoch: i64,
    sec: &mut i64,
    ticks: &mut u64,
    used: &mut usize,
) -> u8
    ensures { Contract.Scans (scan_of builtin bytes.now (from front (octet p)) epoch) result sec.old sec.new ticks.old ticks.new used.old used.new }
{
    let preamble = super::preambles::preamble_of(front, p);
    let read = value_of!(codes::scan(bytes, preamble, epoch));
    *sec = read.moment.sec;
    *ticks = read.moment.ticks;
    *used = read.used;
    0
}

// A moment as a binary code.
#[unsafe(no_mangle)]
pub extern "C" fn hz_write_binary(
    sec: i64,
    ticks: u64,
    front: bool,
    p: u8,
    epoch: i64,
    out: &mut [u8],
    written: &mut usize,
) -> u8
    ensures { Contract.Writes (write_of builtin (time sec ticks) (octet p) epoch front out.old) result out.old out.new written.old written.new }
{
    let r = Record { sec, ticks };
    *written = value_of!(codes::write_binary(r, PField { octet: p }, epoch, front, out));
    0
}
