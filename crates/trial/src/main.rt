// A program for the gate, which holds what it prints to the file `stdout`. It runs what no call of the C interface does:
// the reader that hands back the part that follows, settings as one value, and the makers of records and spans.
// Standard input is binary codes end to end, each behind its P octet.
#![tactic(auto)]

ghost use Rattle.std.specs.Io.{ReadsAtMost};

use base::Refusal;
use codes::Decoded;
use codes::setting::{DEFAULT, Setting};
use pfield::{PField, Preamble};
use scale::{Record, Seconds, Span};
use std::io;
use std::io::Read;

// So many bytes of the input are read at most.
const INPUT: usize = 4096;

// CDS from 1958 on behind its P octet.
const DAYS: Setting = Setting::Binary {
    p: PField { octet: 64 },
    epoch: 0,
    front: true,
};

fn main(rt: HostRuntime) -> io::Result<()> {
    tell_made(&rt, "record", Record::new(-2199023255552, 0))?;
    tell_made(&rt, "record", Record::new(2199023255552, 0))?;
    tell_made(&rt, "record", Record::new(0, Record::TICKS))?;
    tell_made(&rt, "span", Span::new(-4398046511104, Record::TICKS - 1))?;
    tell_made(&rt, "span", Span::new(4398046511104, 0))?;
    let mut buf = [0u8; INPUT];
    let n = read_full(&mut rt.stdin(), &mut buf)?;
    run(&rt, &buf[..n])
}

// Reads until the buffer is full or the input ends, and answers how many bytes it put at the start of it.
fn read_full<R: Read>(input: &mut R, buf: &mut [u8]) -> io::Result<usize>
    ensures { ReadsAtMost result buf.new }
{
    let mut done: usize = 0;
    while done < buf.len() {
        let n = input.read(&mut buf[done..])?;
        if n == 0 {
            break;
        }
        done += n;
    }
    Ok(done)
}

// Each code in turn, until one is refused or none is left.
fn run(rt: &impl Print, s: &[u8]) -> io::Result<()> {
    let mut rest = s;
    while !rest.is_empty() {
        let taken = codes::read(rest, Preamble::Front, 0);
        tell_read(rt, taken.answer, taken.rest.len())?;
        if rest.len() <= taken.rest.len() {
            break;
        }
        rest = taken.rest;
    }
    Ok(())
}

// A line for what was made: its ticks, or the refusal.
fn tell_made<const LAST: i64>(
    rt: &impl Print,
    name: &str,
    made: Result<Seconds<LAST>, Refusal>,
) -> io::Result<()> {
    print!(rt; "{name}")?;
    match made {
        Ok(Seconds { ticks, .. }) => print!(rt; " {ticks}")?,
        Err(why) => put_refusal(rt, why)?,
    }
    println!(rt; "")
}

// A line for what was read: the number of bytes that follow, and the moment or the refusal.
fn tell_read(rt: &impl Print, answer: Result<Decoded, Refusal>, left: usize) -> io::Result<()> {
    print!(rt; "{left}")?;
    match answer {
        Ok(Decoded { moment, .. }) => show(rt, moment)?,
        Err(why) => put_refusal(rt, why)?,
    }
    println!(rt; "")
}

// A moment in two settings, and the moment half a second before it.
fn show(rt: &impl Print, r: Record) -> io::Result<()> {
    put_text(rt, Ok(r))?;
    put_octets(rt, r)?;
    put_text(rt, earlier(r))
}

fn earlier(r: Record) -> Result<Record, Refusal> {
    scale::shift(r, Span::new(-1, Record::TICKS / 2)?)
}

fn put_text(rt: &impl Print, moment: Result<Record, Refusal>) -> io::Result<()> {
    let mut text = [0u8; 40];
    match moment.and_then(|r| codes::setting::write(r, Setting::Ascii(DEFAULT), &mut text)) {
        Ok(n) => {
            print!(rt; " ")?;
            rt.write_all(&text[..n.min(40)])
        }
        Err(why) => put_refusal(rt, why),
    }
}

// In hexadecimal.
fn put_octets(rt: &impl Print, r: Record) -> io::Result<()> {
    let mut code = [0u8; 16];
    match codes::setting::write(r, DAYS, &mut code) {
        Ok(n) => {
            print!(rt; " ")?;
            for octet in code.iter().take(n) {
                print!(rt; "{octet:02x}")?;
            }
            Ok(())
        }
        Err(why) => put_refusal(rt, why),
    }
}

fn put_refusal(rt: &impl Print, why: Refusal) -> io::Result<()> {
    let number = why.number();
    print!(rt; " refused {number}")
}
