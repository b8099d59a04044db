// Reading a class text: 16, then 17, 18 and 15, each over the whole text and all lists before the next; nothing is written before all is known.
#![tactic(auto)]

ghost use Rattle.std.specs.Prelude.{◌≡◌, length};
ghost use Rattle.readings.specs.Promise.{Answered};
ghost use Rattle.reading.specs.Ways.{asked_of, OfText, OfKnown, OfWithin};

use known::text_known;
use laying::write_table;
use lent::lists_right;
use limits::{all_shallow, few_enough};
use lists::Lists;
use model::{Misread, Refusal};
use prefixed::walks::order_guards;
use recognised::first_wrong;
use sheets::{sheet_length, table_length, write_sheet};
use sizes::{Sizes, sizes_of};

// The answer to a class text; where it is read, its sheet and its table stand at the heads of the lent buffers.
pub fn read_class(
    text: &[u8],
    lists: Lists,
    sheet: &mut [u8],
    table: &mut [u8],
) -> Result<(usize, usize), Misread>
    ensures { Answered (asked_of text.now lists.entry sheet.old table.old) result sheet.new table.new }
{
    if let Err(place) = first_wrong(text) {
        return Err(Misread::WrongWord(place));
    }
    read_text(text, lists, sheet, table)
}

// 17, by the lists and by the names of the text.
fn read_text(
    text: &[u8],
    lists: Lists,
    sheet: &mut [u8],
    table: &mut [u8],
) -> Result<(usize, usize), Misread>
    ensures { OfText (asked_of text.now lists.entry sheet.old table.old) result sheet.new table.new }
{
    if !lists_right(lists) {
        return Err(Misread::Refused(Refusal::Naming));
    }
    if !text_known(text, lists) {
        return Err(Misread::Refused(Refusal::Naming));
    }
    read_known(text, lists, sheet, table)
}

// Room for 1,024 guard records.
fn empty_records() -> [u8; 8192]
    ensures { length result ≡ 8192 }
{
    [0u8; 8192]
}

// 18, by the counts and by the operators of the guards, which are put in order on the way.
fn read_known(
    text: &[u8],
    lists: Lists,
    sheet: &mut [u8],
    table: &mut [u8],
) -> Result<(usize, usize), Misread>
    ensures { OfKnown (asked_of text.now lists.entry sheet.old table.old) result sheet.new table.new }
{
    let n = sizes_of(text);
    if !few_enough(n, lists) {
        return Err(Misread::Refused(Refusal::Limit));
    }
    let mut records = empty_records();
    let count = order_guards(text, lists, &mut records);
    let end = count * 8;
    if !all_shallow(&records[..end]) {
        return Err(Misread::Refused(Refusal::Limit));
    }
    read_within(text, lists, n, &records[..end], sheet, table)
}

// 15, and then all is written.
fn read_within(
    text: &[u8],
    lists: Lists,
    n: Sizes,
    guards: &[u8],
    sheet: &mut [u8],
    table: &mut [u8],
) -> Result<(usize, usize), Misread>
    ensures { OfWithin (asked_of text.now lists.entry sheet.old table.old) n guards.now result sheet.new table.new }
{
    let length = sheet_length(lists.classes.len() / 36, n);
    if sheet.len() < length {
        return Err(Misread::Refused(Refusal::Room));
    }
    if table.len() < table_length(n) {
        return Err(Misread::Refused(Refusal::Room));
    }
    write_sheet(text, lists, n, guards, sheet);
    write_table(text, table);
    Ok((length, n.states))
}
