// The lines of the answers, each written from the buffer's front on, and their parts, each from a place on; what is answered is the place
// behind it. What does not fit is cut off at the buffer's end.
ghost use Rattle.std.specs.Prelude.{[], ◌∷◌, ◌++◌};
ghost use Rattle.model.specs.Refusals.{number_of};
ghost use Rattle.model.specs.Values.{referrer_values, probed_values, settled_values};
ghost use Rattle.model.specs.Answers.{referrer_as, probed_as, ending_as, phased_values, handled_values, looped_values, judge_numbers, probe_numbers, phase_numbers, command_numbers, loop_numbers};
ghost use Rattle.texts.specs.Texts.{Appended};
ghost use Rattle.lines.specs.Lines.{bad_line, clause_word, refused_word, empty_field, string_field, said, judge_text, probe_text, phase_text, handled_text, command_text, loop_text, phase_line, command_line, loop_line};

use model::{Ending, Handling, Loops, OwnState, Phase, Probed, Referrer, Refusal};
use texts::writing::{append_byte, append_bytes, append_hex, append_number};

// A line that is no question.
pub fn bad_line(out: &mut [u8]) -> usize
    ensures { Appended out.old out.new 0 bad_line result }
{
    append_bytes(out, 0, b"bad line")
}

// A word and numbers.
pub fn say(out: &mut [u8], at: usize, word: &[u8], numbers: &[u64]) -> usize
    ensures { Appended out.old out.new at (said word.now numbers.now) result }
{
    let mut end = append_bytes(out, at, word);
    for n in numbers {
        end = append_number(out, end, *n);
    }
    end
}

// refused NUMBER
pub fn refused(x: Refusal, out: &mut [u8]) -> usize
    ensures { Appended out.old out.new 0 (said refused_word (number_of x ∷ [])) result }
{
    say(out, 0, b"refused", &[u64::from(x)])
}

// A further field with nothing to say: a space, then `-`.
fn append_empty(out: &mut [u8], at: usize) -> usize
    ensures { Appended out.old out.new at empty_field result }
{
    append_bytes(out, at, b" -")
}

// A string of bytes as a further field: a space, then its hex digits, `-` for the empty one.
pub fn append_string(out: &mut [u8], at: usize, bytes: &[u8]) -> usize
    ensures { Appended out.old out.new at (string_field bytes.now) result }
{
    if bytes.is_empty() {
        return append_empty(out, at);
    }
    let next = append_byte(out, at, b' ');
    append_hex(out, next, bytes)
}

// accepted
pub fn judge_line(answer: Result<(), Refusal>, out: &mut [u8]) -> usize
    ensures { Appended out.old out.new 0 (judge_text (judge_numbers answer)) result }
{
    match answer {
        Ok(()) => append_bytes(out, 0, b"accepted"),
        Err(x) => refused(x, out),
    }
}

// clause NUMBER REFERRER TARGET
fn clause_line(i: usize, referrer: Referrer, out: &mut [u8]) -> usize
    ensures { Appended out.old out.new 0 (said clause_word (i ∷ referrer_values (referrer_as referrer))) result }
{
    match referrer {
        Referrer::MoveTo(q) => say(out, 0, b"clause", &[i as u64, 0, q.0 as u64]),
        Referrer::Do(a) => say(out, 0, b"clause", &[i as u64, 1, a as u64]),
        Referrer::Stay => say(out, 0, b"clause", &[i as u64, 2, 0]),
    }
}

// none, or clause NUMBER REFERRER TARGET
fn probed_line(probed: Probed, out: &mut [u8]) -> usize
    ensures { Appended out.old out.new 0 (probe_text (0 ∷ probed_values (probed_as probed))) result }
{
    match probed {
        None => append_bytes(out, 0, b"none"),
        Some((i, referrer)) => clause_line(i, referrer, out),
    }
}

// The line of the probe's answer.
pub fn probe_line(answer: Result<Probed, Refusal>, out: &mut [u8]) -> usize
    ensures { Appended out.old out.new 0 (probe_text (probe_numbers answer)) result }
{
    match answer {
        Err(x) => refused(x, out),
        Ok(p) => probed_line(p, out),
    }
}

// ENDING STATE MOVES WRITTEN and `-`: a phase that no DO closed.
fn append_unclosed(
    out: &mut [u8],
    at: usize,
    ending: &[u8],
    q: OwnState,
    moves: usize,
    written: usize,
) -> usize
    ensures { Appended out.old out.new at (said ending.now (q.0 ∷ moves ∷ written ∷ []) ++ empty_field) result }
{
    let end = say(out, at, ending, &[q.0 as u64, moves as u64, written as u64]);
    append_empty(out, end)
}

// none STATE MOVES WRITTEN -, stay STATE MOVES WRITTEN -, or do STATE MOVES WRITTEN COMMAND
fn append_settled(
    out: &mut [u8],
    at: usize,
    ending: Ending,
    q: OwnState,
    moves: usize,
    written: usize,
) -> usize
    ensures { Appended out.old out.new at (phase_text (0 ∷ settled_values (ending_as ending) q.0 moves written)) result }
{
    match ending {
        Ending::ByNone => append_unclosed(out, at, b"none", q, moves, written),
        Ending::ByStay => append_unclosed(out, at, b"stay", q, moves, written),
        Ending::ByDo(c) => say(
            out,
            at,
            b"do",
            &[q.0 as u64, moves as u64, written as u64, c as u64],
        ),
    }
}

// The same, or loop STATE MOVES 0 -
fn append_phase(out: &mut [u8], at: usize, phase: Phase) -> usize
    ensures { Appended out.old out.new at (phase_text (0 ∷ phased_values phase)) result }
{
    match phase {
        Phase::Settled(ending, q, moves, written) => append_settled(
            out, at, ending, q, moves, written,
        ),
        Phase::Loops(q, moves) => append_unclosed(out, at, b"loop", q, moves, 0),
    }
}

// The text of the when phase's answer.
fn phasing_line(answer: Result<Phase, Refusal>, out: &mut [u8]) -> usize
    ensures { Appended out.old out.new 0 (phase_text (phase_numbers answer)) result }
{
    match answer {
        Err(x) => refused(x, out),
        Ok(p) => append_phase(out, 0, p),
    }
}

// The same, and the whole buffer
pub fn phase_line(answer: Result<Phase, Refusal>, lent: &[u8], out: &mut [u8]) -> usize
    ensures { Appended out.old out.new 0 (phase_line (phase_numbers answer) lent.now) result }
{
    let end = phasing_line(answer, out);
    append_string(out, end, lent)
}

// handled LEFT OWN, or ignored LEFT 0
fn handled_line(handling: Handling, out: &mut [u8]) -> usize
    ensures { Appended out.old out.new 0 (handled_text (0 ∷ handled_values handling)) result }
{
    match handling {
        Handling::Ignored(q) => say(out, 0, b"ignored", &[q.0 as u64, 0]),
        Handling::Handled(q, n) => say(out, 0, b"handled", &[q.0 as u64, n as u64]),
    }
}

// The same, and behind it the phase as it is told alone
fn given_line(handling: Handling, phase: Phase, out: &mut [u8]) -> usize
    ensures { Appended out.old out.new 0 (command_text (0 ∷ (handled_values handling ++ phased_values phase))) result }
{
    let end = handled_line(handling, out);
    let next = append_byte(out, end, b' ');
    append_phase(out, next, phase)
}

// The text of the command's answer.
fn handling_line(answer: Result<(Handling, Phase), Refusal>, out: &mut [u8]) -> usize
    ensures { Appended out.old out.new 0 (command_text (command_numbers answer)) result }
{
    match answer {
        Err(x) => refused(x, out),
        Ok((handling, phase)) => given_line(handling, phase, out),
    }
}

// The same, and the whole buffer
pub fn command_line(
    answer: Result<(Handling, Phase), Refusal>,
    lent: &[u8],
    out: &mut [u8],
) -> usize
    ensures { Appended out.old out.new 0 (command_line (command_numbers answer) lent.now) result }
{
    let end = handling_line(answer, out);
    append_string(out, end, lent)
}

// loop CONFIGURATION STATE, or free MOVES
fn looped_line(loops: Loops, out: &mut [u8]) -> usize
    ensures { Appended out.old out.new 0 (loop_text (0 ∷ looped_values loops)) result }
{
    match loops {
        Loops::Loop(k, q) => say(out, 0, b"loop", &[k as u64, q.0 as u64]),
        Loops::Free(moves) => say(out, 0, b"free", &[moves as u64]),
    }
}

// The text of the loop question's answer.
pub fn looping_line(answer: Result<Loops, Refusal>, out: &mut [u8]) -> usize
    ensures { Appended out.old out.new 0 (loop_text (loop_numbers answer)) result }
{
    match answer {
        Err(x) => refused(x, out),
        Ok(l) => looped_line(l, out),
    }
}

// The same, and the whole buffer
pub fn loop_line(answer: Result<Loops, Refusal>, lent: &[u8], out: &mut [u8]) -> usize
    ensures { Appended out.old out.new 0 (loop_line (loop_numbers answer) lent.now) result }
{
    let end = looping_line(answer, out);
    append_string(out, end, lent)
}
