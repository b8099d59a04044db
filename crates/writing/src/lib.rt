// The class text of an accepted sheet: refusals 17, 19 and 15 in that order, then the text. Its length is known before the first byte is written.
#![tactic(auto)]

ghost use Rattle.sheet.specs.Reading.{class_of};
ghost use Rattle.writing.specs.Writing.{named_of, Writes, WritesText};

use accepted::held::Sheet;
use classtext::put_text;
use lists::{Lists, Own};
use missing::{guards_few, names_right};
use model::Refusal;

// The text, or 15. It is written twice: to no buffer, which tells how long it is, and to the lent one.
fn write_within(sheet: Sheet, own: Own, lists: Lists, out: &mut [u8]) -> Result<usize, Refusal>
    ensures { WritesText (named_of own.entry lists.entry) (class_of sheet.entry.bytes.now) out.old out.new result }
{
    let mut none = [0u8; 1];
    let needed = put_text(sheet, own, lists, &mut none, 0);
    if out.len() < needed {
        return Err(Refusal::Room);
    }
    let length = put_text(sheet, own, lists, out, 0);
    Ok(length)
}

// 17 for the names, 19 for the guard records that would be written, then the text or 15.
pub fn write_text(sheet: Sheet, own: Own, lists: Lists, out: &mut [u8]) -> Result<usize, Refusal>
    ensures { Writes (named_of own.entry lists.entry) (class_of sheet.entry.bytes.now) out.old out.new result }
{
    if !names_right(sheet, own, lists) {
        return Err(Refusal::Naming);
    }
    if !guards_few(sheet) {
        return Err(Refusal::WrittenGuards);
    }
    write_within(sheet, own, lists, out)
}
