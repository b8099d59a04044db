// The line of the answer to a class text to be written, from the buffer's front on; what is answered is the place behind it. What does
// not fit is cut off at the buffer's end.
#![tactic(auto)]

ghost use Rattle.model.specs.Answers.{write_numbers};
ghost use Rattle.texts.specs.Texts.{Appended};
ghost use Rattle.lines.specs.Lines.{write_text, write_line};

use lines::answers::{append_string, refused, say};
use model::Refusal;

// written LENGTH, or refused NUMBER
fn written_line(answer: Result<usize, Refusal>, out: &mut [u8]) -> usize
    ensures { Appended out.old out.new 0 (write_text (write_numbers answer)) result }
{
    match answer {
        Err(x) => refused(x, out),
        Ok(length) => say(out, 0, b"written", &[length as u64]),
    }
}

// The same, and the whole buffer
pub fn write_line(answer: Result<usize, Refusal>, lent: &[u8], out: &mut [u8]) -> usize
    ensures { Appended out.old out.new 0 (write_line (write_numbers answer) lent.now) result }
{
    let end = written_line(answer, out);
    append_string(out, end, lent)
}
