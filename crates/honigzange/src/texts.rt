// ASCII codes, read and written, and the wall clock.
ghost use Rattle.std.specs.Prelude.{◌≡◌};
ghost use Rattle.base.specs.Outcome.{status, cell};
ghost use Rattle.leap.specs.Builtin.{builtin};
ghost use Rattle.codes.specs.Text.{text_of};
ghost use Rattle.codes.specs.Setting.{ascii_of, wall_of};
ghost use Rattle.honigzange.specs.Cells.{time, sec_of, ticks_of, ascii_layout};
ghost use Rattle.honigzange.specs.Calls as Contract;

use crate::value_of;
use ascii::Layout;
use scale::Record;

// The moment of an ASCII code, which is the whole text.
#[unsafe(no_mangle)]
pub extern "C" fn hz_read_ascii(code: &[u8], sec: &mut i64, ticks: &mut u64) -> u8
    ensures answer { result ≡ status (text_of builtin code.now) }
    ensures seconds { sec.new ≡ cell sec_of (text_of builtin code.now) sec.old }
    ensures parts { ticks.new ≡ cell ticks_of (text_of builtin code.now) ticks.old }
{
    let r = value_of!(codes::text::read(code));
    *sec = r.sec;
    *ticks = r.ticks;
    0
}

// A moment as an ASCII code.
#[unsafe(no_mangle)]
pub extern "C" fn hz_write_ascii(
    sec: i64,
    ticks: u64,
    day_of_year: bool,
    digits: u8,
    z: bool,
    out: &mut [u8],
    written: &mut usize,
) -> u8
    ensures { Contract.Writes (ascii_of builtin (ascii_layout day_of_year digits z) (time sec ticks) out.old) result out.old out.new written.old written.new }
{
    let r = Record { sec, ticks };
    let layout = Layout {
        ordinal: day_of_year,
        digits: usize::from(digits),
        zone: z,
    };
    *written = value_of!(codes::text::write(r, layout, out, 0));
    0
}

// A moment in the default setting.
#[unsafe(no_mangle)]
pub extern "C" fn hz_write_wall(sec: i64, ticks: u64, out: &mut [u8], written: &mut usize) -> u8
    ensures { Contract.Writes (wall_of builtin (time sec ticks) out.old) result out.old out.new written.old written.new }
{
    let r = Record { sec, ticks };
    *written = value_of!(codes::setting::write_wall(r, out));
    0
}
