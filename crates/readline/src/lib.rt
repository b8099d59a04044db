// The line of the answer to a class text, written from the buffer's front on; what is answered is the place behind it. What does not fit is
// cut off at the buffer's end.
#![tactic(auto)]

ghost use Rattle.model.specs.Answers.{read_numbers};
ghost use Rattle.texts.specs.Texts.{Appended};
ghost use Rattle.lines.specs.Lines.{read_text, read_line};

use lines::answers::{append_string, refused, say};
use model::Misread;

// read LENGTH STATES, refused 16 PLACE, or refused NUMBER
fn reading_line(answer: Result<(usize, usize), Misread>, out: &mut [u8]) -> usize
    ensures { Appended out.old out.new 0 (read_text (read_numbers answer)) result }
{
    match answer {
        Err(Misread::Refused(x)) => refused(x, out),
        Err(Misread::WrongWord(place)) => say(out, 0, b"refused", &[16, place as u64]),
        Ok((length, states)) => say(out, 0, b"read", &[length as u64, states as u64]),
    }
}

// The same, and the two buffers, each whole
pub fn read_line(
    answer: Result<(usize, usize), Misread>,
    sheet: &[u8],
    table: &[u8],
    out: &mut [u8],
) -> usize
    ensures { Appended out.old out.new 0 (read_line (read_numbers answer) sheet.now table.now) result }
{
    let end = reading_line(answer, out);
    let next = append_string(out, end, sheet);
    append_string(out, next, table)
}
