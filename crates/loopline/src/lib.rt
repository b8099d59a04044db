// The line that loopcheck prints, written from the buffer's front on; what is answered is the place behind it. What does not fit is cut
// off at the buffer's end.
#![tactic(auto)]

ghost use Rattle.std.specs.Prelude.{◌≡◌};
ghost use Rattle.model.specs.Answers.{loop_numbers};
ghost use Rattle.texts.specs.Texts.{Appended};
ghost use Rattle.lines.specs.Lines.{child_field, child_fields, is_loop, loopcheck_line};

use lines::answers::looping_line;
use model::{Loops, Refusal};
use texts::writing::{append_byte, append_decimal, append_number, least};

// A child as class:name, a space before it.
fn append_child(out: &mut [u8], at: usize, class: u8, name: u8) -> usize
    ensures { Appended out.old out.new at (child_field class name) result }
{
    let next = append_number(out, at, class as u64);
    let end = append_byte(out, next, b':');
    append_decimal(out, end, name as u64)
}

// Each child of a list of pairs.
fn append_children(out: &mut [u8], at: usize, list: &[u8]) -> usize
    ensures { Appended out.old out.new at (child_fields list.now) result }
{
    let mut end = least(at, out.len());
    for i in 0..list.len() / 2 {
        end = append_child(out, end, list[2 * i], list[2 * i + 1]);
    }
    end
}

// Whether the answer is a loop.
fn is_loop(answer: Result<Loops, Refusal>) -> bool
    ensures { result ≡ is_loop (loop_numbers answer) }
{
    matches!(answer, Ok(Loops::Loop(_, _)))
}

// refused NUMBER, free MOVES, or loop CONFIGURATION STATE with each child of the list, and a line feed
pub fn loopcheck_line(answer: Result<Loops, Refusal>, list: &[u8], out: &mut [u8]) -> usize
    ensures { Appended out.old out.new 0 (loopcheck_line (loop_numbers answer) list.now) result }
{
    let end = looping_line(answer, out);
    if is_loop(answer) {
        let last = append_children(out, end, list);
        return append_byte(out, last, b'\n');
    }
    append_byte(out, end, b'\n')
}
