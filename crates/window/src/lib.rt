// What a listing answers, and the loop that fills the lent list with moments. The laws of listing, over any naming rule,
// are in proofs/.
#![tactic(auto)]

ghost use Rattle.std.specs.Prelude.{List, ℤ, Ok};
ghost use Rattle.std.specs.Iterator.{YieldsFirst};
ghost use Rattle.base.specs.Outcome.{done};
ghost use Rattle.window.specs.Window.{Lists};

// The tick count that all named moments share, the number listed, and whether a further one remains.
#[derive(Clone, Copy)]
pub struct Listed {
    pub ticks: u64,
    pub count: usize,
    pub more: bool,
}

// Where moments come from, one after another. An Iterator's `next` may ask something of its caller, and need not end; a source can
// always be asked, and has only those that are left.
pub trait Source {
    ghost left: { Self → List ℤ };

    // The first of those that are left, or none.
    fn next(&mut self) -> Option<i64>
        ensures { YieldsFirst left self.old result self.new };
}

// Writes moments into `out` in their order, as far as the room goes.
pub fn fill<S: Source + Drop>(mut moments: S, ticks: u64, out: &mut [i64]) -> Listed
    ensures { Lists (done (record { ticks = ticks; all = S.left moments })) out.old out.new (Ok result) }
{
    for (count, slot) in out.iter_mut().enumerate() {
        let Some(moment) = moments.next() else {
            return Listed {
                ticks,
                count,
                more: false,
            };
        };
        *slot = moment;
    }
    Listed {
        ticks,
        count: out.len(),
        more: moments.next().is_some(),
    }
}
