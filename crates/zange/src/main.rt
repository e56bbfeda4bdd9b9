// Answers standard input line by line. All that matters is in the library `lines`; this program only moves bytes.
#![tactic(auto)]

ghost use Rattle.std.specs.Prelude.{◌≤◌, length};
ghost use Rattle.std.specs.Io.{ReadsAtMost};

use lines::Line;
use std::io::{Cursor, ErrorKind, Read, Write};
use std::{fmt, io};

// What ends the program before its input does.
#[derive(Debug, Drop)]
enum Failure {
    Input(io::Error),
    Output(io::Error),
}

// Which stream failed, and the system's words for it. They are short; of longer ones the start would stand.
impl fmt::Display for Failure {
    fn fmt<W: fmt::Write>(&self, f: &mut fmt::Formatter<W>) -> fmt::Result {
        let (stream, error) = match self {
            Failure::Input(error) => ("input", error),
            Failure::Output(error) => ("output", error),
        };
        let mut said = Cursor::new([0u8; 256]);
        let _ = write!(said, "{error}");
        let n = said.position().min(256) as usize;
        match str::from_utf8(&said.get_ref()[..n]) {
            Ok(words) => {
                let words = without_number(words);
                write!(f, "standard {stream}: {words}")
            }
            Err(_) => write!(f, "standard {stream}: {error}"),
        }
    }
}

// A signal can interrupt a call before it moves a byte. Such a call is made again, so many times at most.
const TRIES: u64 = 1000;

const BUFFER: usize = 65536;

fn main(rt: HostRuntime) {
    let mut input = rt.stdin();
    let mut output = rt.stdout();
    let mut buf = [0u8; BUFFER];
    let mut out = [0u8; BUFFER];
    if let Err(failure) = run(&mut input, &mut output, &mut buf, &mut out) {
        let _ = eprintln!(rt; "zange: {failure}");
    }
}

fn run<R: Read, W: Write>(
    input: &mut R,
    output: &mut W,
    buf: &mut [u8],
    out: &mut [u8; BUFFER],
) -> Result<(), Failure> {
    let held = pump(input, output, buf, out)?;
    let w = lines::finish(held, out);
    write_out(output, &out[..w])
}

// Answers the input to its end, and hands back the line that its end left open. A proved loop has to end, and nothing
// says that the input does: the turns are counted up to a number that no run reaches.
fn pump<R: Read, W: Write>(
    input: &mut R,
    output: &mut W,
    buf: &mut [u8],
    out: &mut [u8; BUFFER],
) -> Result<Line, Failure> {
    let mut held = lines::start();
    for _ in 0..u64::MAX {
        let n = read_in(input, buf)?;
        if n == 0 {
            break;
        }
        held = drain(held, &buf[..n], output, out)?;
    }
    Ok(held)
}

// Answers what a piece holds, and writes each buffer of answers. After a write that fails, nothing more is written.
fn drain<W: Write>(
    line: Line,
    piece: &[u8],
    output: &mut W,
    out: &mut [u8; BUFFER],
) -> Result<Line, Failure> {
    let mut held = line;
    let mut rest = piece;
    while !rest.is_empty() {
        let fed = lines::feed(held, rest, out);
        held = fed.line;
        rest = &rest[fed.used..];
        write_out(output, &out[..fed.wrote])?;
    }
    Ok(held)
}

// Reads what there is: how many bytes, or 0 at the end of the input.
fn read_in<R: Read>(input: &mut R, buf: &mut [u8]) -> Result<usize, Failure>
    ensures { ReadsAtMost result buf.new }
{
    for _ in 0..TRIES {
        match input.read(buf) {
            Err(error) if error.kind() == ErrorKind::Interrupted => {}
            read => return read.map_err(Failure::Input),
        }
    }
    input.read(buf).map_err(Failure::Input)
}

// Writes all of the bytes. An interrupted call is made again a thousand times and no more (docs/DECISIONS.md), where std's
// `write_all` would go on.
fn write_out<W: Write>(output: &mut W, bytes: &[u8]) -> Result<(), Failure> {
    let mut rest = bytes;
    let mut tries = TRIES;
    while !rest.is_empty() {
        match output.write(rest) {
            Ok(0) => return Err(Failure::Output(io::Error::from(ErrorKind::WriteZero))),
            Ok(n) => rest = &rest[n..],
            Err(error) if 0 < tries && error.kind() == ErrorKind::Interrupted => tries -= 1,
            Err(error) => return Err(Failure::Output(error)),
        }
    }
    Ok(())
}

// An error's text without the number that std puts behind the system's words.
fn without_number(text: &str) -> &str {
    match text.split_once(" (os error ") {
        Some((words, _)) => words,
        None => text,
    }
}
