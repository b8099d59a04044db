// The loop question on an accepted sheet: refusals 13, 14 and 15 in their order, then the search; a loop's list is written.
ghost use Rattle.std.specs.Prelude.{◌≡◌};
ghost use Rattle.model.specs.Replies.{Answered};
ghost use Rattle.model.specs.Answers.{loop_numbers};
ghost use Rattle.sheet.specs.Reading.{class_of};
ghost use Rattle.loops.specs.LoopQuestion.{bits_below, reply_loop, loops_values};

use crate::cells::{read_cells, write_list};
use crate::chase::returning_in;
use accepted::held::{CLASSES, Sheet};
use blocks::search::search;
use model::{Loops, Refusal};

// No present bit is at or over K.
fn present_ok(present: u8, classes: usize) -> bool
    ensures { result ≡ bits_below present classes }
{
    for i in 0..8 {
        if ((present >> i) & 1 == 1) & (classes <= i) {
            return false;
        }
    }
    true
}

// Which states of children of the present classes can make the node loop, or how many moves does it make at most?
pub fn loop_with(sheet: Sheet, present: u8, out: &mut [u8]) -> Result<Loops, Refusal>
    ensures { Answered loops_values (reply_loop (class_of sheet.entry.bytes.now) present out.old) out.old (loop_numbers result) out.new }
{
    if !present_ok(present, sheet.class_count()) {
        return Err(Refusal::PresentBit);
    }
    let cells = read_cells(sheet.body(CLASSES), present);
    let n = cells.count;
    if 20 < n {
        return Err(Refusal::NameCount);
    }
    if out.len() < 2 * n {
        return Err(Refusal::Room);
    }
    match search(sheet, present, cells) {
        Err(k) => {
            let q = returning_in(sheet, cells, k);
            write_list(cells, k, out);
            Ok(Loops::Loop(k, q))
        }
        Ok(m) => Ok(Loops::Free(m)),
    }
}
