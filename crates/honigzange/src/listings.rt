// The moments that a shortened tag names in a window, listed.
ghost use Rattle.leap.specs.Builtin.{builtin};
ghost use Rattle.pfield.specs.PField.{octet};
ghost use Rattle.codes.specs.Writing.{from};
ghost use Rattle.listing.specs.CucTag.{list_cuc};
ghost use Rattle.listing.specs.AsciiTag.{list_ascii};
ghost use Rattle.honigzange.specs.Cells.{time};
ghost use Rattle.honigzange.specs.Calls as Contract;

use crate::value_of;
use scale::Record;

// What a CUC tag names.
#[unsafe(no_mangle)]
pub extern "C" fn hz_list_cuc(
    tag: &[u8],
    front: bool,
    p: u8,
    epoch: i64,
    begin: i64,
    beginticks: u64,
    end: i64,
    endticks: u64,
    list: &mut [i64],
    ticks: &mut u64,
    count: &mut usize,
    more: &mut bool,
) -> u8
    ensures { Contract.Listing (list_cuc tag.now (from front (octet p)) epoch (time begin beginticks) (time end endticks)) result list.old list.new ticks.old ticks.new count.old count.new more.old more.new }
{
    let since = Record {
        sec: begin,
        ticks: beginticks,
    };
    let before = Record {
        sec: end,
        ticks: endticks,
    };
    let preamble = super::preambles::preamble_of(front, p);
    let listed = value_of!(listing::list_cuc(tag, preamble, epoch, since, before, list));
    *ticks = listed.ticks;
    *count = listed.count;
    *more = listed.more;
    0
}

// What a shortened ASCII tag names.
#[unsafe(no_mangle)]
pub extern "C" fn hz_list_ascii(
    tag: &[u8],
    begin: i64,
    beginticks: u64,
    end: i64,
    endticks: u64,
    list: &mut [i64],
    ticks: &mut u64,
    count: &mut usize,
    more: &mut bool,
) -> u8
    ensures { Contract.Listing (list_ascii builtin tag.now (time begin beginticks) (time end endticks)) result list.old list.new ticks.old ticks.new count.old count.new more.old more.new }
{
    let since = Record {
        sec: begin,
        ticks: beginticks,
    };
    let before = Record {
        sec: end,
        ticks: endticks,
    };
    let listed = value_of!(listing::list_ascii(tag, since, before, list));
    *ticks = listed.ticks;
    *count = listed.count;
    *more = listed.more;
    0
}
