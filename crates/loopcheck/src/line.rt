// The line that loopcheck prints of a sheet, written into a lent buffer. What it is, is in specs/Line.antt.
ghost use Rattle.std.specs.Prelude.{◌≡◌, ◌-◌, ◌^◌, ◌≤◌};
ghost use Rattle.model.specs.Replies.{Answered};
ghost use Rattle.model.specs.Answers.{loop_numbers};
ghost use Rattle.loops.specs.LoopQuestion.{loops_values};
ghost use Rattle.loopcheck.specs.Line.{loop_reply, children_in, Printed};

use accepted::held::Sheet;
use loopline::loopcheck_line;
use loops::asked::loop_with;
use model::{Loops, Refusal};

// A line has less than 1,024 bytes: a list has at most 20 children.
pub const LINE: usize = 1024;

// All K classes, as a byte of present classes.
fn all_classes(k: usize) -> u8
    requires { k ≤ 8 }
    ensures { result ≡ 2 ^ k - 1 }
{
    let bits: u16 = 1 << k;
    (bits - 1) as u8
}

// The loop question with all K classes present; the sheet is judged once.
fn ask(sheet: &[u8], list: &mut [u8]) -> Result<Loops, Refusal>
    ensures { Answered loops_values (loop_reply sheet.now list.old) list.old (loop_numbers result) list.new }
{
    let sheet = Sheet::judged(sheet)?;
    loop_with(sheet, all_classes(sheet.class_count()), list)
}

// How many children the list of an answer has: one for each set bit of a loop's configuration.
fn children_in(answer: Result<Loops, Refusal>) -> usize
    ensures { result ≡ children_in answer }
{
    let Ok(found) = answer else {
        return 0;
    };
    match found {
        Loops::Loop(k, _) => k.count_ones() as usize,
        Loops::Free(_) => 0,
    }
}

// The line of any byte string, at the head of the buffer, and how long it is.
pub fn render(sheet: &[u8], out: &mut [u8; LINE]) -> usize
    ensures { Printed sheet.now out.old out.new result }
{
    let mut list = [0u8; 40];
    let answer = ask(sheet, &mut list);
    let n = children_in(answer);
    loopcheck_line(answer, &list[..2 * n], out)
}
