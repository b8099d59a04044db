// The batch tool: reads question lines from standard input and writes one answer line for each to standard output.
//
//   judge SHEET | probe SHEET LIST STATE | phase SHEET LIST STATE BUFFER | command SHEET LIST STATE COMMAND BUFFER
//   loop SHEET PRESENT BUFFER | read TEXT NAMES COMMANDS CLASSES SHEET TABLE
//   write SHEET OWNNAME OWNSTATES NAMES COMMANDS CLASSES BUFFER
//
// Byte strings are lower-case hex, `-` for the empty one; numbers are decimal, 0 to 255; fields are parted by one space. A line that is
// none of these, or longer than 1,048,576 bytes, is answered `bad line`. A line is answered by `asking`.
#![tactic(auto)]

ghost use Rattle.std.specs.Prelude.{IfSome};
ghost use Rattle.io.specs.Counts.{IsPrefixLen};
ghost use Rattle.questions.specs.Inputs.{Inside};

use asking::answer;
use std::io::{Read, Stdin};
use texts::reading::find;
use texts::writing::{append_byte, append_bytes};

// How far the input is taken: the next byte of the chunk, the chunk's bytes, and the bytes of the line so far, which wait for its end.
#[derive(Clone, Copy)]
pub struct Input {
    pub at: usize,
    pub end: usize,
    pub waiting: usize,
}

// Answers a line, of which at most one byte too many was taken.
fn respond(line: &[u8], out: &mut [u8]) -> bool {
    let end = answer(line, out);
    let stop = append_byte(out, end, b'\n');
    io::write_all(1, &out[..stop])
}

// The next chunk. Where there is none, the input is over, and a last line may have ended with no line feed.
fn refill(
    mut stdin: Stdin,
    waiting: usize,
    chunk: &mut [u8],
    line: &[u8],
    out: &mut [u8],
) -> Option<Input>
    requires { IsPrefixLen waiting line.now }
    ensures { IfSome result (λ s. Inside s chunk.new line.now) }
{
    let got = stdin.read(chunk);
    let n = got.unwrap_or(0);
    if n == 0 {
        if 0 < waiting {
            respond(&line[..waiting], out);
        }
        return None;
    }
    Some(Input {
        at: 0,
        end: n,
        waiting,
    })
}

// One turn: a further chunk is read, or the bytes up to a line feed or the chunk's end are taken, and a line that is whole is answered. None
// where the input is over, or an answer was not taken.
fn turn(stdin: Stdin, s: Input, chunk: &mut [u8], line: &mut [u8], out: &mut [u8]) -> Option<Input>
    requires { Inside s chunk.old line.old }
    ensures { IfSome result (λ t. Inside t chunk.new line.new) }
{
    let at = s.at;
    let end = s.end;
    let waiting = s.waiting;
    if at == end {
        return refill(stdin, waiting, chunk, line, out);
    }
    let Some(stop) = find(&chunk[..end], at, b'\n') else {
        let taken = append_bytes(line, waiting, &chunk[at..end]);
        return Some(Input {
            at: end,
            end,
            waiting: taken,
        });
    };
    let taken = append_bytes(line, waiting, &chunk[at..stop]);
    if !respond(&line[..taken], out) {
        return None;
    }
    Some(Input {
        at: stop + 1,
        end,
        waiting: 0,
    })
}

// A proved loop has to end, and nothing says that the input does: the turns are counted up to a number that no run comes to.
fn main(rt: HostRuntime) {
    let mut chunk = [0u8; 65536];
    let mut line = [0u8; 1048577];
    let mut out = [0u8; 1048832];
    let mut s = Input {
        at: 0,
        end: 0,
        waiting: 0,
    };
    for _ in 0..u64::MAX {
        let Some(next) = turn(rt.stdin(), s, &mut chunk, &mut line, &mut out) else {
            return;
        };
        s = next;
    }
}
