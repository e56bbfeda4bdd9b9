// Lines of standard input, each a full ASCII code, answered one by one.
#![tactic(auto)]

ghost use Rattle.std.specs.Prelude.{◌≡◌, [], ◌++◌, ◌+◌, ◌-◌, ◌≤◌, min, length, drop, take, get_or};
ghost use Rattle.base.specs.Outcome.{refused, and_then};
ghost use Rattle.base.specs.Refusals.{number};
ghost use Rattle.octets.specs.Stores.{pasted};
ghost use Rattle.octets.specs.Writes.{roomed, Wrote};
ghost use Rattle.leap.specs.Builtin.{builtin};
ghost use Rattle.lines.specs.Answer.{printed, outcome_of, answer_of};
ghost use Rattle.lines.specs.Split.{before, fate, after, kept, ending};
ghost use Rattle.lines.specs.Says.{line_of, held_of, Fares, Ends};

use base::Refusal;

// A longer line is refused.
const LONGEST: usize = 64;

// So many bytes of a line are held: with one more than the longest has, what follows does not matter.
const HELD: usize = LONGEST + 1;

// The room that is asked for an answer, which has 25 bytes at most.
const ROOM: usize = 80;

// The line so far: the first len of bytes, its first 65 at most. A buffer with a length beside it: the library has no heap.
#[derive(Clone, Copy, Debug, PartialEq, Eq)]
pub struct Line {
    pub bytes: [u8; HELD],
    pub len: usize,
}

impl Line {
    // What is held of the line.
    fn held(&self) -> &[u8]
        ensures { result.now ≡ held_of self.now }
    {
        &self.bytes[..self.len.min(HELD)]
    }

    // The line with more bytes behind it.
    fn join(self, part: &[u8]) -> Line
        ensures { result ≡ line_of (kept (held_of self ++ part.now)) }
    {
        let n = self.len.min(HELD);
        let more = part.len().min(HELD - n);
        let mut bytes = [0u8; HELD];
        bytes[..n].copy_from_slice(&self.bytes[..n]);
        bytes[n..n + more].copy_from_slice(&part[..more]);
        Line {
            bytes,
            len: n + more,
        }
    }
}

// What a piece came to: the line so far, the bytes written, and how many bytes of the piece were used.
#[derive(Clone, Copy, Debug, PartialEq, Eq)]
pub struct Fed {
    pub line: Line,
    pub wrote: usize,
    pub used: usize,
}

// Before the input: nothing of a line.
pub fn start() -> Line
    ensures { result ≡ line_of [] }
{
    Line {
        bytes: [0u8; HELD],
        len: 0,
    }
}

// A piece of the input: each line that it ends is answered into out, while there is room for one more answer.
pub fn feed(line: Line, piece: &[u8], out: &mut [u8]) -> Fed
    ensures { Fares (fate builtin (held_of line) piece.now (length out.old)) piece.now out.old out.new result }
{
    let end = find(piece, 0);
    let first = line.join(&piece[..end]);
    if end == piece.len() || out.len() < ROOM {
        return Fed {
            line: first,
            wrote: 0,
            used: end,
        };
    }
    let wrote = answer(first.held(), out);
    go_on(piece, end + 1, out, wrote)
}

// The end of the input: a last line that lacks its line feed is answered, where out has room for an answer.
pub fn finish(line: Line, out: &mut [u8]) -> usize
    ensures { Ends (ending builtin (held_of line) (length out.old)) out.old out.new result }
{
    if out.len() < ROOM || line.len == 0 {
        return 0;
    }
    answer(line.held(), out)
}

// The lines of a piece from a place on, each answered straight from the piece, into out from `at` on.
fn go_on(piece: &[u8], from: usize, out: &mut [u8], at: usize) -> Fed
    requires { (from ≤ length piece.now) × (at ≤ length out.old) }
    ensures { Fares (after (take at out.old) from (fate builtin [] (drop from piece.now) (length out.old - at))) piece.now out.old out.new result }
{
    let mut begin = from;
    let mut wrote = at;
    let mut end = find(piece, begin);
    // by places, since the caller is told how much of the piece was used
    while end < piece.len() && ROOM <= out.len() - wrote {
        wrote += answer(&piece[begin..end], &mut out[wrote..]);
        begin = end + 1;
        end = find(piece, begin);
    }
    Fed {
        line: start().join(&piece[begin..end]),
        wrote,
        used: end,
    }
}

// Where the first line feed from a place on stands, or where the bytes end.
fn find(s: &[u8], from: usize) -> usize
    requires { from ≤ length s.now }
    ensures { (result ≡ from + before (drop from s.now)) × (from ≤ result) × (result ≤ length s.now) }
{
    let rest = &s[from..];
    from + rest.iter().position(|&b| b == b'\n').unwrap_or(rest.len())
}

// What is printed for one line, into the first bytes of out; and how many bytes that is.
fn answer(line: &[u8], out: &mut [u8]) -> usize
    requires { 80 ≤ length out.old }
    ensures { (result ≡ length (answer_of builtin line.now)) × (out.new ≡ pasted out.old 0 (answer_of builtin line.now)) }
{
    match rewrite(line, out) {
        Ok(end) => {
            out[end] = b'\n';
            end + 1
        }
        Err(why) => refuse(why, out),
    }
}

// A line's moment in the default setting, into the first bytes of out.
fn rewrite(line: &[u8], out: &mut [u8]) -> Result<usize, Refusal>
    ensures { Wrote (and_then (outcome_of builtin line.now) (roomed out.old 0)) 0 out.old out.new result }
{
    if LONGEST < line.len() {
        return Err(Refusal::Field);
    }
    let r = codes::text::read(line)?;
    codes::setting::write_wall(r, out)
}

// "refused ", the number and the line feed, into the first bytes of out; and how many bytes that is.
fn refuse(why: Refusal, out: &mut [u8]) -> usize
    requires { 80 ≤ length out.old }
    ensures { (result ≡ length (printed (refused (number why)))) × (out.new ≡ pasted out.old 0 (printed (refused (number why)))) }
{
    let n = why.number();
    let width = if n < 10 { 1 } else { 2 };
    let word = b"refused ";
    let end = word.len() + width;
    out[..word.len()].copy_from_slice(word);
    octets::put_decimal(out, word.len(), width, u64::from(n));
    out[end] = b'\n';
    end + 1
}
