// A CUC tag, read: the first moment that it names, and the seconds after which the next follows.
ghost use Rattle.std.specs.Prelude.{◌≡◌, ◌≤◌};
ghost use Rattle.listing.specs.CucTag.{tag_with, periodic_of};
ghost use Rattle.listing.specs.Inner.{says_periodic};

use base::Refusal;
use pfield::{Codes, Head, Layout, Preamble};
use scale::Record;

#[derive(Clone, Copy)]
pub struct Periodic {
    pub first: Record,
    pub period: u64,
}

pub fn read(tag: &[u8], p: Preamble, epoch: i64) -> Result<Periodic, Refusal>
    ensures { says_periodic result ≡ periodic_of tag.now p epoch }
{
    let Head { layout, start } = pfield::read(tag, p, Codes::Cuc, epoch)?;
    let Layout::Cuc(layout) = layout else {
        return Err(Refusal::Identification);
    };
    read_with(tag, start, layout)
}

// The T-field from `at` on, which must end with the tag.
fn read_with(tag: &[u8], at: usize, layout: cuc::Layout) -> Result<Periodic, Refusal>
    requires { at ≤ 1 }
    ensures { says_periodic result ≡ tag_with tag.now at layout }
{
    let first = cuc::read(tag, at, layout)?;
    let end = at + cuc::size(layout);
    if end < tag.len() {
        return Err(Refusal::Field);
    }
    let period = octets::power256(layout.coarse);
    Ok(Periodic { first, period })
}
