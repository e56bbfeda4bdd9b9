// A receiver of T-fields under one P-field and epoch, fed by pieces that are cut anywhere.
#![tactic(auto)]

ghost use Rattle.std.specs.Prelude.{◌≡◌, [], ◌++◌, ◌+◌, ◌*◌, ◌≤◌, length, drop, get_or};
ghost use Rattle.leap.specs.Builtin.{builtin};
ghost use Rattle.codes.specs.Reading.{field_of, width_of};
ghost use Rattle.receiver.specs.Fields.{fields_in};
ghost use Rattle.receiver.specs.Receiver.{holding, held_in, all_zero, made_of, layout_of, run_of, feed_of};
ghost use Rattle.receiver.specs.Answers.{row_of, rows_over, Feeds, Makes};
ghost use Rattle.receiver.specs.Inner.{padded, Passes, Passed, Accepts};
ghost use Rattle.base.specs.Said.{said};

use base::Refusal;
use pfield::{Codes, Layout, PField};

// The first count octets of pending are those of an unfinished T-field, and the others are 0. The longest T-field has one
// octet more than there is room for. The octets and their count stay apart: the library uses no heap, and the C interface
// lays out both.
#[derive(Clone, Copy)]
pub struct Receiver {
    pub p: PField,
    pub epoch: i64,
    pub pending: [u8; 12],
    pub count: usize,
}

// A call's answer, how many T-fields were answered, and the receiver for the next call.
#[derive(Clone, Copy)]
pub struct Fed {
    pub answer: Result<usize, Refusal>,
    pub next: Receiver,
}

// What a receiver holds of an unfinished T-field.
#[derive(Clone, Copy)]
struct Held {
    bytes: [u8; 12],
    count: usize,
}

impl Receiver {
    // A receiver that holds nothing yet. One whose making is refused refuses every piece likewise.
    pub fn new(p: PField, epoch: i64) -> Fed
        ensures { Makes (made_of p epoch) (holding p epoch []) result }
    {
        let answer = pfield::lay(p, Codes::All, epoch).map(|_| 0);
        let next = Receiver {
            p,
            epoch,
            pending: [0; 12],
            count: 0,
        };
        Fed { answer, next }
    }

    // A piece of the run: each T-field that it completes is answered by a row. How many these are is told, and the receiver for
    // the next call handed back, as docs/FORMS.md has it; what is refused leaves the receiver and the rows.
    pub fn feed(mut self, piece: &[u8], rows: &mut [[i64; 3]]) -> Fed
        ensures { Feeds (feed_of builtin self piece.now (length rows.old)) self rows.old rows.new result }
    {
        let answer = match self.accept(piece, rows) {
            Err(why) => Err(why),
            Ok((n, left)) => {
                let longer = left.bytes;
                self.pending = longer;
                self.count = left.count;
                Ok(n)
            }
        };
        Fed { answer, next: self }
    }

    // How many T-fields a piece completes, each answered by a row, and what is then held.
    #[tactic(auto, using(crate::proofs::States::few, crate::proofs::Calls::completed), unfolding(crate::specs::Receiver::feed_of))]
    fn accept(&self, piece: &[u8], rows: &mut [[i64; 3]]) -> Result<(usize, Held), Refusal>
        ensures { Accepts (feed_of builtin self.now piece.now (length rows.old)) rows.old rows.new result }
    {
        let l = self.layout()?;
        let n = (self.count + piece.len()) / codes::size(l);
        if rows.len() < n {
            return Err(Refusal::Room);
        }
        Ok((n, self.pass(l, n, piece, rows)))
    }

    // The layout of the T-fields that it takes. A state that no call can have made is out of range.
    #[tactic(auto, unfolding(crate::specs::Receiver::layout_of, crate::specs::Receiver::is_state))]
    fn layout(&self) -> Result<Layout, Refusal>
        ensures { said result ≡ layout_of self.now }
    {
        let l = pfield::lay(self.p, Codes::All, self.epoch)?;
        if codes::size(l) <= self.count || !self.clear() {
            return Err(Refusal::Range);
        }
        Ok(l)
    }

    // Whether only zeros stand behind the octets that it holds.
    fn clear(&self) -> bool
        ensures { result ≡ all_zero (drop self.now.count self.now.pending) }
    {
        // in a copy: what is indexed at run time lies in memory, and the octets of the receiver itself then need not
        let pending = self.pending;
        pending.iter().skip(self.count).all(|&b| b == 0)
    }

    // The octets that it holds of an unfinished T-field.
    fn held(&self) -> &[u8]
        requires { self.now.count ≤ 12 }
        ensures { result.now ≡ held_in self.now }
    {
        &self.pending[..self.count]
    }

    // The n T-fields that a piece completes, each into its row; and what is then held.
    #[tactic(auto, using(crate::proofs::Passing::held_low, crate::proofs::Passing::waits_within, crate::proofs::Passing::waits))]
    fn pass(&self, l: Layout, n: usize, piece: &[u8], rows: &mut [[i64; 3]]) -> Held
        requires { Passes l n self.now piece.now rows.old }
        ensures { Passed l (run_of self.now piece.now) rows.old rows.new result }
    {
        let held = self.held();
        if n == 0 {
            return Held {
                bytes: joined(held, piece),
                count: self.count + piece.len(),
            };
        }
        let run: [u8; 13] = joined(held, piece);
        rows[0] = row_at(&run, 0, l);
        let lacking = codes::size(l) - self.count;
        let end = go_on(piece, lacking, l, &mut rows[1..n]);
        let rest = &piece[end..];
        Held {
            bytes: joined(&[], rest),
            count: rest.len(),
        }
    }
}

// The row of a T-field, as the C interface lays it out: 0, seconds and ticks, or the refusal's number and zeros.
#[tactic(auto, using(crate::proofs::Rows::ticks_low))]
fn row_at(s: &[u8], at: usize, l: Layout) -> [i64; 3]
    ensures { result ≡ row_of (field_of builtin s.now at l) }
{
    match codes::read_field(s, at, l) {
        Ok(r) => [0, r.sec, r.ticks as i64],
        Err(why) => [i64::from(why.number()), 0, 0],
    }
}

// The first N octets of a run, which are held and then in a piece, with zeros behind its end: of 13, a whole T-field,
// where it has one. Octet by octet: a copy of some number would call the C library's memcpy, which the shared library lacks.
fn joined<const N: usize>(held: &[u8], piece: &[u8]) -> [u8; N]
    ensures { result ≡ padded N (held.now ++ piece.now) }
{
    let mut run = [0u8; N];
    let octets = &mut run[..];
    for (i, octet) in octets.iter_mut().enumerate() {
        *octet = octet_at(held, piece, i);
    }
    run
}

// The octet of a run at a place, or 0 past its end.
#[tactic(auto, using(crate::proofs::Pads::held_at, crate::proofs::Pads::fed_at))]
fn octet_at(held: &[u8], piece: &[u8], i: usize) -> u8
    ensures { result ≡ get_or (held.now ++ piece.now) i 0 }
{
    if i < held.len() {
        held[i]
    } else {
        piece.get(i - held.len()).copied().unwrap_or(0)
    }
}

// The T-fields of a piece from a place on, one into each row; and where they end.
fn go_on(piece: &[u8], at: usize, l: Layout, rows: &mut [[i64; 3]]) -> usize
    requires { at + length rows.old * width_of l ≤ length piece.now }
    ensures { (result ≡ at + length rows.old * width_of l) × (rows.new ≡ rows_over (fields_in builtin l (length rows.old) (drop at piece.now)) rows.old) }
{
    let w = codes::size(l);
    // `end` by hand: a `zip` on `iter_mut` loses the rows in the proof
    let mut end = at;
    for row in rows.iter_mut() {
        *row = row_at(piece, end, l);
        end += w;
    }
    end
}
