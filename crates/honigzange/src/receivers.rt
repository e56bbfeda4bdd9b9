// T-fields that a link cuts anywhere: a receiver kept in a struct of the caller's, which is octets alone.
ghost use Rattle.std.specs.Prelude.{◌≡◌, ◌<◌, ◌≤◌, length};
ghost use Rattle.leap.specs.Builtin.{builtin};
ghost use Rattle.pfield.specs.PField.{octet};
ghost use Rattle.receiver.specs.Receiver.{made_of, feed_of};
ghost use Rattle.honigzange.specs.Cells.{state_of, epoch_in, receiver_in};
ghost use Rattle.honigzange.specs.Calls as Contract;

use crate::value_of;
use pfield::PField;
use receiver::Receiver;

// A receiver of T-fields under one P octet and epoch.
#[unsafe(no_mangle)]
pub extern "C" fn hz_receiver_make(p: u8, epoch: i64, receiver: &mut [u8; 22]) -> u8
    ensures { Contract.MakeCells (made_of (octet p) epoch) result receiver.old receiver.new }
{
    let made = Receiver::new(PField { octet: p }, epoch);
    value_of!(made.answer);
    *receiver = state_of(made.next);
    0
}

// A piece for a receiver: the T-fields that it completes, each answered in a row, and their number.
#[unsafe(no_mangle)]
pub extern "C" fn hz_receive(
    receiver: &mut [u8; 22],
    piece: &[u8],
    rows: &mut [[i64; 3]],
    count: &mut usize,
) -> u8
    ensures { Contract.FeedCells (feed_of builtin (receiver_in receiver.old) piece.now (length rows.old)) result receiver.old receiver.new rows.old rows.new count.old count.new }
{
    let fed = receiver_in(*receiver).feed(piece, rows);
    let n = value_of!(fed.answer);
    *receiver = state_of(fed.next);
    *count = n;
    0
}

// The octets of a receiver.
fn state_of(r: Receiver) -> [u8; 22]
    requires { r.count < 256 }
    ensures { result ≡ state_of r }
{
    let mut state = [0u8; 22];
    state[0] = r.p.octet;
    octets::put_count(&mut state, 1, 8, base::unsigned(r.epoch));
    state[9] = r.count as u8;
    state[10..].copy_from_slice(&r.pending);
    state
}

// The receiver of which these are the octets.
fn receiver_in(state: [u8; 22]) -> Receiver
    ensures { result ≡ receiver_in state }
{
    let mut pending = [0u8; 12];
    pending.copy_from_slice(&state[10..]);
    Receiver {
        p: PField { octet: state[0] },
        epoch: epoch_in(&state),
        pending,
        count: state[9] as usize,
    }
}

#[tactic(auto, using(crate::proofs::States::epoch_read))]
fn epoch_in(state: &[u8]) -> i64
    requires { 9 ≤ length state.now }
    ensures { result ≡ epoch_in state.now }
{
    octets::count(state, 1, 8).map_or(0, base::of_bits)
}
